//! The relations that a file is made with.

ghost use Rattle.std.specs.Prelude.{◌≡◌, ◌↔◌, ◌&&◌, IsTrue, length};
ghost use Rattle.std.specs.List.{list_all};
ghost use Rattle.std.specs.Str.{bytes_eq};
ghost use Rattle.fbc_files.specs.NewPages.{AreNewRelations};
ghost use Rattle.fbc_files.specs.RelationTests.{has_name, has_right_count, have_own_names, is_new_relation, pass_tests};

use fbc_kinds::{Name, is_name};

/// A relation of a file to be made.
#[derive(Clone, Copy, Debug, PartialEq, Eq)]
pub struct NewRelation {
    pub name: Name,
    /// The greatest length of a value, in bytes.
    pub length: u8,
}

/// Whether a file can be made with these relations: there are one to eight, each within its limits,
/// and no two have one name.
pub fn are_new_relations(relations: &[NewRelation]) -> bool
    ensures { IsTrue result ↔ AreNewRelations relations.now }
{
    pass_tests(relations)
}

fn pass_tests(relations: &[NewRelation]) -> bool
    ensures { result ≡ pass_tests relations.now }
{
    has_right_count(relations) && are_within_limits(relations) && have_own_names(relations)
}

fn has_right_count(relations: &[NewRelation]) -> bool
    ensures { result ≡ has_right_count relations.now }
{
    1 <= relations.len() && relations.len() <= 8
}

fn are_within_limits(relations: &[NewRelation]) -> bool
    ensures { result ≡ list_all is_new_relation relations.now }
{
    relations.iter().all(|relation| is_new_relation(relation))
}

fn is_new_relation(relation: &NewRelation) -> bool
    ensures { result ≡ is_new_relation relation.now }
{
    is_name(relation.name.as_bytes()) && 1 <= relation.length && relation.length <= 200
}

/// Whether no two relations have one name.
fn have_own_names(relations: &[NewRelation]) -> bool
    ensures { result ≡ have_own_names relations.now }
{
    for i in 0..relations.len() {
        if has_name(relations[i].name.as_bytes(), &relations[i + 1..]) {
            return false;
        }
    }
    true
}

/// Whether a relation has this name.
fn has_name(name: &[u8], relations: &[NewRelation]) -> bool
    ensures { result ≡ has_name name.now relations.now }
{
    relations
        .iter()
        .any(|relation| is_same(relation.name.as_bytes(), name))
}

fn is_same(bytes: &[u8], others: &[u8]) -> bool
    ensures { result ≡ bytes_eq bytes.now others.now }
{
    bytes == others
}
