//! The list of requests: finding one, and changing some in their places.

ghost use Rattle.std.specs.Prelude.{◌≡◌, ◌==◌, ◌&&◌, ℕ, ◌+◌, ◌^◌, ◌<◌, ◌≤◌, Bool, false, not, min, map, List, [], ◌∷◌, ◌++◌, length, vec_len, vec_capacity};
ghost use Rattle.std.specs.List.{find, filter, list_any, reduce};
ghost use Rattle.fbc_levels.specs.declared.resources.Request.{Request as ARequest};
ghost use Rattle.fbc_levels.specs.LockState.{is_of, is_wait_of, is_dead, is_dead_of, stands_in_way, of_least_owner, lesser};
ghost use Rattle.fbc_levels.specs.Waits.{is_waited_for};
ghost use Rattle.fbc_lock_table.specs.Answers.{is_held_number};
ghost use Rattle.fbc_lock_table.specs.Effects.{entered, new_request, with_granted, with_waiting, is_bare_wait_of, without_wait, of_dead, granting};
ghost use Rattle.fbc_lock_table.specs.Waiters.{waiting_of};

use fbc_levels::{Level, Request, Resource, Series, compatible};

/// Whether it is this owner's request for this resource.
fn is_request_of(request: &Request, owner: u32, resource: Resource) -> bool
    ensures { result ≡ is_of owner resource request.now }
{
    request.owner == owner && request.resource.is_same(resource)
}

/// Whether the owner waits by this request.
fn is_wait(request: &Request, owner: u32) -> bool
    ensures { result ≡ is_wait_of owner request.now }
{
    request.owner == owner && request.waiting.is_some()
}

/// Whether the owner waits by this request and has no level by it.
fn is_bare_wait(request: &Request, owner: u32) -> bool
    ensures { result ≡ is_bare_wait_of owner request.now }
{
    is_wait(request, owner) && matches!(request.granted, Level::Free)
}

/// Whether another owner's granted level keeps this owner from this level.
fn is_in_way(request: &Request, owner: u32, resource: Resource, level: Level) -> bool
    ensures { result ≡ stands_in_way owner resource level request.now }
{
    request.resource.is_same(resource)
        && request.owner != owner
        && !compatible(level, request.granted)
}

/// Whether a living owner holds it in EX, and it is of this series.
fn is_held(request: &Request, series: Series) -> bool
    ensures { result ≡ is_held_number series request.now }
{
    request.resource.series.is_same(series) && request.alive && matches!(request.granted, Level::Ex)
}

/// Of two requests the one of the lesser owner, and of equal owners the first.
fn of_lesser_owner(first: Request, second: Request) -> Request
    ensures { result ≡ lesser first second }
{
    if second.owner < first.owner {
        second
    } else {
        first
    }
}

/// The owner's request for the resource.
pub fn request_of(requests: &[Request], owner: u32, resource: Resource) -> Option<Request>
    ensures { result ≡ find (is_of owner resource) requests.now }
{
    requests
        .iter()
        .copied()
        .find(|request| is_request_of(request, owner, resource))
}

/// The request by which the owner waits.
pub fn wait_of(requests: &[Request], owner: u32) -> Option<Request>
    ensures { result ≡ find (is_wait_of owner) requests.now }
{
    requests
        .iter()
        .copied()
        .find(|request| is_wait(request, owner))
}

/// Whether a request says that the owner is dead.
pub fn is_dead_owner(requests: &[Request], owner: u32) -> bool
    ensures { result ≡ list_any (is_dead_of owner) requests.now }
{
    requests
        .iter()
        .any(|request| request.owner == owner && !request.alive)
}

/// Whether the waiting request waits for this owner, who lives.
pub fn is_wait_for(requests: &[Request], wait: &Request, other: u32) -> bool
    ensures { result ≡ list_any (λ r. (r.owner == other) && is_waited_for wait.now r) requests.now }
{
    requests.iter().any(|request| request.owner == other && is_waited_for(wait, request))
}

/// Whether the waiting request waits for what the other is granted, and the other's owner lives.
fn is_waited_for(wait: &Request, request: &Request) -> bool
    ensures { result ≡ is_waited_for wait.now request.now }
{
    match wait.waiting {
        Some(level) => is_in_way(request, wait.owner, wait.resource, level) && request.alive,
        None => false,
    }
}

/// The request of the least owner whose granted level keeps this owner from this level.
pub fn holder_of(
    requests: &[Request],
    owner: u32,
    resource: Resource,
    level: Level,
) -> Option<Request>
    ensures { result ≡ of_least_owner (filter (stands_in_way owner resource level) requests.now) }
{
    requests
        .iter()
        .copied()
        .filter(|request| is_in_way(request, owner, resource, level))
        .reduce(|first, second| of_lesser_owner(first, second))
}

/// The request of the least dead owner.
pub fn dead_of(requests: &[Request]) -> Option<Request>
    ensures { result ≡ of_least_owner (filter is_dead requests.now) }
{
    requests
        .iter()
        .copied()
        .filter(|request| !request.alive)
        .reduce(|first, second| of_lesser_owner(first, second))
}

/// The least data word of those that living owners hold in EX in this series.
pub fn least_data_of(requests: &[Request], series: Series) -> Option<u32>
    ensures { result ≡ reduce min (map (λ (r : ARequest). r.word) (filter (is_held_number series) requests.now)) }
{
    requests
        .iter()
        .copied()
        .filter(|request| is_held(request, series))
        .map(|request| request.word)
        .reduce(|least, word| least.min(word))
}

/// How many of the requests wait.
pub fn waiters_of(requests: &[Request]) -> u32
    requires { length requests.now < 2 ^ 32 }
    ensures { result ≡ waiting_of requests.now }
{
    requests
        .iter()
        .filter(|request| request.waiting.is_some())
        .count() as u32
}

/// How many of the requests wait, where they were at most so many before. Where none did it takes
/// no pass.
pub fn waiters_left(requests: &[Request], before: u32) -> u32
    requires room { length requests.now < 2 ^ 32 }
    requires fewer { waiting_of requests.now ≤ before }
    ensures { result ≡ waiting_of requests.now }
{
    if before == 0 { 0 } else { waiters_of(requests) }
}

/// The owner's request for the resource gets this granted level.
pub fn set_granted(requests: &mut Vec<Request>, owner: u32, resource: Resource, level: Level)
    ensures items { requests.new.items ≡ map (with_granted owner resource level) requests.old.items }
    ensures capacity { vec_capacity requests.new ≡ vec_capacity requests.old }
{
    for request in requests.iter_mut() {
        *request = granted_at(*request, owner, resource, level);
    }
}

fn granted_at(request: Request, owner: u32, resource: Resource, level: Level) -> Request
    ensures { result ≡ with_granted owner resource level request }
{
    if is_request_of(&request, owner, resource) {
        Request {
            granted: level,
            ..request
        }
    } else {
        request
    }
}

/// The owner's request for the resource waits for this level.
pub fn set_waiting(requests: &mut Vec<Request>, owner: u32, resource: Resource, level: Level)
    ensures items { requests.new.items ≡ map (with_waiting owner resource level) requests.old.items }
    ensures capacity { vec_capacity requests.new ≡ vec_capacity requests.old }
{
    for request in requests.iter_mut() {
        *request = waiting_at(*request, owner, resource, level);
    }
}

fn waiting_at(request: Request, owner: u32, resource: Resource, level: Level) -> Request
    ensures { result ≡ with_waiting owner resource level request }
{
    if is_request_of(&request, owner, resource) {
        Request {
            waiting: Some(level),
            ..request
        }
    } else {
        request
    }
}

/// The owner's requests wait for nothing.
pub fn clear_waiting(requests: &mut Vec<Request>, owner: u32)
    ensures items { requests.new.items ≡ map (without_wait owner) requests.old.items }
    ensures capacity { vec_capacity requests.new ≡ vec_capacity requests.old }
{
    for request in requests.iter_mut() {
        *request = cleared(*request, owner);
    }
}

fn cleared(request: Request, owner: u32) -> Request
    ensures { result ≡ without_wait owner request }
{
    if request.owner == owner {
        Request {
            waiting: None,
            ..request
        }
    } else {
        request
    }
}

/// The owner's requests are a dead owner's.
pub fn mark_dead(requests: &mut Vec<Request>, owner: u32)
    ensures items { requests.new.items ≡ map (of_dead owner) requests.old.items }
    ensures capacity { vec_capacity requests.new ≡ vec_capacity requests.old }
{
    for request in requests.iter_mut() {
        *request = dead(*request, owner);
    }
}

fn dead(request: Request, owner: u32) -> Request
    ensures { result ≡ of_dead owner request }
{
    if request.owner == owner {
        Request {
            alive: false,
            ..request
        }
    } else {
        request
    }
}

/// The owner's request for the resource is granted what it waits for.
pub fn grant_wait(requests: &mut Vec<Request>, owner: u32, resource: Resource)
    ensures items { requests.new.items ≡ map (granting owner resource) requests.old.items }
    ensures capacity { vec_capacity requests.new ≡ vec_capacity requests.old }
{
    for request in requests.iter_mut() {
        *request = granted_wait(*request, owner, resource);
    }
}

fn granted_wait(request: Request, owner: u32, resource: Resource) -> Request
    ensures { result ≡ granting owner resource request }
{
    match request.waiting {
        Some(level) if is_request_of(&request, owner, resource) => Request {
            granted: level,
            waiting: None,
            ..request
        },
        _ => request,
    }
}

/// Puts a request of the owner for the resource behind all others, unless it has one.
pub fn enter(requests: &mut Vec<Request>, owner: u32, resource: Resource, word: u32)
    requires { find (is_of owner resource) requests.old.items ≡ None → vec_len requests.old < vec_capacity requests.old }
    ensures items { requests.new.items ≡ entered requests.old.items owner resource word }
    ensures capacity { vec_capacity requests.old ≤ vec_capacity requests.new }
{
    if request_of(requests, owner, resource).is_none() {
        let request = Request {
            owner,
            resource,
            granted: Level::Free,
            waiting: None,
            word,
            alive: true,
        };
        requests.push(request).unwrap();
    }
}

/// Takes away the owner's request for the resource.
pub fn remove(requests: &mut Vec<Request>, owner: u32, resource: Resource)
    ensures items { requests.new.items ≡ filter (λ r. not (is_of owner resource r)) requests.old.items }
    ensures len { vec_len requests.new ≤ vec_len requests.old }
    ensures capacity { vec_capacity requests.new ≡ vec_capacity requests.old }
{
    requests.retain(|request| !is_request_of(request, owner, resource));
}

/// Takes away the requests by which the owner waits and has no level.
pub fn remove_bare_wait(requests: &mut Vec<Request>, owner: u32)
    ensures items { requests.new.items ≡ filter (λ r. not (is_bare_wait_of owner r)) requests.old.items }
    ensures len { vec_len requests.new ≤ vec_len requests.old }
    ensures capacity { vec_capacity requests.new ≡ vec_capacity requests.old }
{
    requests.retain(|request| !is_bare_wait(request, owner));
}
