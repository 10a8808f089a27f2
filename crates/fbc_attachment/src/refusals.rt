//! How a statement is refused by its own words, before any step.

ghost use Rattle.std.specs.Prelude.{◌≡◌, ◌<◌, ◌↔◌, ℕ, ◌&&◌, not, IfSome, Some, true, false, length, option_and_then};
ghost use Rattle.std.specs.List.{position_from};
ghost use Rattle.std.specs.Str.{bytes_eq};
ghost use Rattle.fbc_kinds.specs.Edits.{IsShape};
ghost use Rattle.fbc_attachment.specs.declared.refusals.Refusal.TheVariants as refusals;
ghost use Rattle.fbc_attachment.specs.Refusals as spec;
ghost use Rattle.fbc_attachment.specs.Refusals.{HasItsRelation, HasLongText, LacksTransaction, lacks_relation, wants_transaction};

use fbc_apply::fitting::value_length;
use fbc_kinds::{Name, Reply, Shape};
use fbc_script::Statement;

/// How a statement is refused.
#[derive(Clone, Copy, Debug, PartialEq, Eq)]
pub enum Refusal {
    /// There is no relation of this name.
    NoRelation,
    /// The owner has no open transaction.
    NoTransaction,
    /// The owner has an open transaction.
    AlreadyOpen,
    /// The text is longer than the relation's values; `length` is its length in bytes.
    TooLong { length: u32 },
}

impl Refusal {
    /// What the statement is answered.
    pub fn reply(&self) -> Reply
        ensures { result ≡ spec.reply_to self.now }
    {
        match *self {
            Refusal::NoRelation => Reply::NoRelation,
            Refusal::NoTransaction => Reply::NoTransaction,
            Refusal::AlreadyOpen => Reply::AlreadyOpen,
            Refusal::TooLong { length } => Reply::TooLong { length },
        }
    }
}

/// How the statement is refused, if it is, by an attachment of which `is_open` says whether it has
/// an open transaction. The first that is so comes: a relation that the file does not have; no
/// transaction where one is wanted, or one where it is to begin; a text that is too long.
pub fn refusal_of(statement: &Statement, shape: &Shape, is_open: bool) -> Option<Refusal>
    requires { IsShape shape.now }
    ensures order { result ≡ spec.refusal_of statement.now shape.now is_open }
    ensures no_relation { (result ≡ Some refusals.NoRelation) ↔ (lacks_relation shape.now statement.now ≡ true) }
    ensures no_transaction { (result ≡ Some refusals.NoTransaction) ↔ HasItsRelation shape.now statement.now × LacksTransaction statement.now is_open }
    ensures already_open { (result ≡ Some refusals.AlreadyOpen) ↔ (spec.is_begin statement.now ≡ true) × (is_open ≡ true) }
    ensures too_long { (n : ℕ) → (result ≡ Some (refusals.TooLong n))
        ↔ HasItsRelation shape.now statement.now × (is_open ≡ true) × HasLongText shape.now statement.now n }
{
    if names_no_relation(shape, statement) {
        Some(Refusal::NoRelation)
    } else if is_without_transaction(statement, is_open) {
        Some(Refusal::NoTransaction)
    } else if is_begun_twice(statement, is_open) {
        Some(Refusal::AlreadyOpen)
    } else {
        length_refusal(shape, statement)
    }
}

/// Whether the statement names a relation that the file does not have.
fn names_no_relation(shape: &Shape, statement: &Statement) -> bool
    requires { IsShape shape.now }
    ensures { result ≡ lacks_relation shape.now statement.now }
{
    match name_in(statement) {
        Some(name) => relation_number(shape, &name).is_none(),
        None => false,
    }
}

/// The relation that the statement names.
fn name_in(statement: &Statement) -> Option<Name>
    ensures { result ≡ spec.name_in statement.now }
{
    match *statement {
        Statement::Insert { relation, .. }
        | Statement::Update { relation, .. }
        | Statement::Delete { relation, .. }
        | Statement::Read { relation, .. }
        | Statement::Scan { relation }
        | Statement::Reserve { relation, .. } => Some(relation),
        _ => None,
    }
}

/// Whether the statement is a transaction's, and none is open.
fn is_without_transaction(statement: &Statement, is_open: bool) -> bool
    ensures { result ≡ (wants_transaction statement.now && not is_open) }
{
    match statement {
        Statement::Attach | Statement::Begin { .. } | Statement::Detach => false,
        _ => !is_open,
    }
}

/// Whether the statement begins a transaction, and one is open.
fn is_begun_twice(statement: &Statement, is_open: bool) -> bool
    ensures { result ≡ (spec.is_begin statement.now && is_open) }
{
    match statement {
        Statement::Begin { .. } => is_open,
        _ => false,
    }
}

/// The refusal of a text that is longer than the values of its relation.
fn length_refusal(shape: &Shape, statement: &Statement) -> Option<Refusal>
    requires { IsShape shape.now }
    ensures { result ≡ spec.length_refusal shape.now statement.now }
{
    let length = text_length(statement);
    if greatest_length(shape, statement) < length {
        Some(Refusal::TooLong { length })
    } else {
        None
    }
}

/// The length of the statement's text in bytes, 0 without one.
fn text_length(statement: &Statement) -> u32
    ensures { result ≡ spec.text_length statement.now }
{
    match *statement {
        Statement::Insert { text, .. } | Statement::Update { text, .. } => text.len() as u32,
        _ => 0,
    }
}

/// The greatest length of the values of the statement's relation, 0 where it names none that the
/// file has.
fn greatest_length(shape: &Shape, statement: &Statement) -> u32
    requires { IsShape shape.now }
    ensures { result ≡ spec.greatest_length shape.now statement.now }
{
    match relation_in(shape, statement) {
        Some(relation) => value_length(shape, relation) as u32,
        None => 0,
    }
}

/// The number of the relation that the statement names.
fn relation_in(shape: &Shape, statement: &Statement) -> Option<u8>
    requires { IsShape shape.now }
    ensures { result ≡ option_and_then (spec.relation_number shape.now) (spec.name_in statement.now) }
{
    match name_in(statement) {
        Some(name) => relation_number(shape, &name),
        None => None,
    }
}

/// The number of the relation of that name, its place in the shape from 0; none exactly where the
/// file does not have it.
pub fn relation_number(shape: &Shape, name: &Name) -> Option<u8>
    requires { IsShape shape.now }
    ensures number { result ≡ spec.relation_number shape.now name.now }
    ensures within { IfSome result (λ number. number < shape.now.count) }
{
    match place_of(&shape.names[..shape.count as usize], name) {
        Some(place) => Some(place as u8),
        None => None,
    }
}

/// The first place at which a name stands.
fn place_of(names: &[Name], name: &Name) -> Option<usize>
    ensures place { result ≡ position_from (bytes_eq name.now) 0 names.now }
    ensures within { IfSome result (λ place. place < length names.now) }
{
    names.iter().position(|own| is_same_name(name, own))
}

fn is_same_name(name: &Name, other: &Name) -> bool
    ensures { result ≡ bytes_eq name.now other.now }
{
    name.as_bytes() == other.as_bytes()
}
