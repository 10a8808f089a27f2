//! The lock on a relation.

ghost use Rattle.std.specs.Prelude.{◌≡◌, ◌↔◌, IfSome, None};
ghost use Rattle.fbc_levels.specs.Levels as levels;
ghost use Rattle.fbc_reserve.specs.Relations.{relation_lock, relation_resource};
ghost use Rattle.fbc_reserve.specs.Waits.{MayWaitFor};

use fbc_levels::{Level, Resource, Series, join};
use fbc_world::Ask;

/// The ask by which a relation that is held in one level is held in the wanted one besides: none
/// exactly where the level that is held gives the wanted one. It asks for the level that gives
/// both, with data word 0, and waits if it may.
pub fn relation_ask(held: Level, wanted: Level, relation: u8, wait: bool) -> Option<Ask>
    ensures none { (result ≡ None) ↔ (levels.join held wanted ≡ held) }
    ensures some { IfSome result (λ ask. ask ≡ relation_lock relation (levels.join held wanted) wait) }
    ensures lawful { IfSome result (λ _. MayWaitFor (relation_resource relation) (levels.join held wanted)) }
{
    let level = join(held, wanted);
    if level == held {
        return None;
    }
    Some(Ask::Lock {
        resource: Resource {
            series: Series::Relation,
            key: relation as u32,
        },
        level,
        wait,
        word: 0,
    })
}
