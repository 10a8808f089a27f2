//! A page in the role in which it is named.

ghost use Rattle.std.specs.Prelude.{◌≡◌, ◌<◌, ◌+◌, ◌*◌, ◌^◌};
ghost use Rattle.fbc_reach.specs.Content.{differs_in_relation, differs_in_sequence, is_late};
ghost use Rattle.fbc_reach.specs.Roles.{has_late_state, has_other_relation, has_other_sequence, kind_code};
ghost use Rattle.fbc_reach.specs.declared.namings.Role.{Role};

use crate::content::{Content, Version};
use crate::namings::Role;
use fbc_kinds::{Flag, State};

/// The byte that names the kind of a role's pages.
pub(crate) fn kind_code(role: Role) -> u8
    ensures { result ≡ kind_code role }
{
    match role {
        Role::Header => 1,
        Role::Inventory { .. } => 2,
        Role::Tip { .. } => 3,
        Role::Pointer { .. } => 4,
        Role::Data { .. } => 5,
    }
}

/// Whether a page of the role's kind is of another relation than the role's.
pub(crate) fn has_other_relation(role: Role, content: &Content) -> bool
    ensures { result ≡ differs_in_relation role content.now }
{
    match (role, content) {
        (Role::Pointer { relation, .. }, Content::Pointer { relation: own, .. }) => {
            *own != relation
        }
        (Role::Data { relation, .. }, Content::Data { relation: own, .. }) => *own != relation,
        _ => false,
    }
}

/// Whether a page of the role's kind has another sequence than the role's.
pub(crate) fn has_other_sequence(role: Role, content: &Content) -> bool
    ensures { result ≡ differs_in_sequence role content.now }
{
    match (role, content) {
        (Role::Inventory { sequence }, Content::Inventory { sequence: own, .. }) => {
            *own != sequence
        }
        (Role::Tip { sequence }, Content::Tip { sequence: own, .. }) => *own != sequence,
        (Role::Pointer { sequence, .. }, Content::Pointer { sequence: own, .. }) => {
            *own != sequence
        }
        (Role::Data { sequence, .. }, Content::Data { sequence: own, .. }) => *own != sequence,
        _ => false,
    }
}

/// Whether a version has a number that is not below the next one.
pub(crate) fn is_late(version: &Version, next: u32) -> bool
    ensures { result ≡ is_late next version.now }
{
    version.flag != Flag::Empty && version.number >= next
}

/// Whether a state that is not active belongs to a number that is not below the next one; the first
/// state is that of the number `first`.
pub(crate) fn has_late_state(states: &[State], first: u64, next: u32) -> bool
    requires { first < 2 ^ 63 }
    ensures { result ≡ has_late_state next first states.now }
{
    let mut number = first;
    for state in states {
        if *state != State::Active && number >= u64::from(next) {
            return true;
        }
        number += 1;
    }
    false
}
