//! Which request is granted or taken away next.

ghost use Rattle.std.specs.Prelude.{◌≡◌, IsTrue, IfSome};
ghost use Rattle.std.specs.Option.{option_map};
ghost use Rattle.fbc_levels.specs.LockState.{IsDead, holder_of};
ghost use Rattle.fbc_lock_table.specs.Effects.{MayGrant};
ghost use Rattle.fbc_levels.specs.declared.resources.Request.{Request as ARequest};
ghost use Rattle.fbc_owner_queues.specs.Grants as spec;

use fbc_levels::{Request, Resource};
use fbc_lock_table::LockTable;

/// Grants the first waiting request for the resource, in the order of asking, whose owner lives
/// and that nobody is in the way of, and answers that owner. None where there is none: then
/// nothing changes.
pub fn grant_waiting(table: &mut LockTable, resource: Resource) -> Option<u32>
    ensures answer { result ≡ option_map (λ (r : ARequest). r.owner) (spec.next_grant table.old resource) }
    ensures after { table.new ≡ spec.with_grant table.old (spec.next_grant table.old resource) }
{
    let request = next_grant(table, resource)?;
    table.grant(request.owner, request.resource);
    Some(request.owner)
}

/// Takes away the first request of the owner, who is dead, in the order of asking, and answers
/// its resource. None where it has none: then nothing changes.
pub fn purge(table: &mut LockTable, owner: u32) -> Option<Resource>
    requires { IsDead table.old owner }
    ensures answer { result ≡ option_map (λ (r : ARequest). r.resource) (spec.first_of table.old owner) }
    ensures after { table.new ≡ spec.without_request table.old (spec.first_of table.old owner) }
    ensures dead { IsDead table.new owner }
{
    let request = first_of(table, owner)?;
    table.remove(request.owner, request.resource);
    Some(request.resource)
}

/// The first request that can be granted.
fn next_grant(table: &LockTable, resource: Resource) -> Option<Request>
    ensures value { result ≡ spec.next_grant table.now resource }
    ensures may { IfSome result (λ r. MayGrant table.now r.owner r.resource) }
{
    for k in 0..table.used() {
        let request = table.request(k);
        if is_grantable(table, &request, resource) {
            return Some(request);
        }
    }
    None
}

/// The first request of the owner.
fn first_of(table: &LockTable, owner: u32) -> Option<Request>
    ensures { result ≡ spec.first_of table.now owner }
{
    for k in 0..table.used() {
        let first = table.request(k);
        if first.owner == owner {
            return Some(first);
        }
    }
    None
}

/// Whether it is a living owner's request for this resource that waits and can be granted.
fn is_grantable(table: &LockTable, request: &Request, resource: Resource) -> bool
    ensures value { result ≡ spec.is_grantable table.now resource request.now }
    ensures clear { IsTrue result → IfSome request.now.waiting (λ level. holder_of table.now request.now.owner request.now.resource level ≡ None) }
{
    request.resource.is_same(resource) && request.alive && is_clear(table, request)
}

/// Whether it waits, and nobody is in the way of what it waits for.
fn is_clear(table: &LockTable, request: &Request) -> bool
    ensures value { result ≡ spec.is_clear table.now request.now }
    ensures clear { IsTrue result → IfSome request.now.waiting (λ level. holder_of table.now request.now.owner request.now.resource level ≡ None) }
{
    match request.waiting {
        Some(level) => table
            .holder(request.owner, request.resource, level)
            .is_none(),
        None => false,
    }
}
