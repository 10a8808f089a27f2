//! The order of writes: pairs of pages, which page comes first, and how many have room.

use crate::graph_tests::Step::{Clear, HasRoom, IsBlocked, Next, Relate};
use fbc_precedence::Related::{Already, Recorded, WriteFirst};
use fbc_precedence::{Graph, Related};
use std::process::Abort;
use std::test::Fail;

/// A call of the graph.
#[derive(Clone, Copy)]
enum Step {
    /// The first page is to be written before the second.
    Relate(u32, u32),
    /// The pairs of the page are gone.
    Clear(u32),
    /// The page that is to be written next for this one.
    Next(u32),
    IsBlocked(u32),
    HasRoom(u32, u32),
}

/// What the graph answers.
#[derive(Clone, Copy, Debug, PartialEq, Eq)]
enum Seen {
    Done,
    Pair(Related),
    Page(u32),
    Is(bool),
}

/// A call, and what the graph answers.
type Row = (Step, Seen);

/// Asserts what the graph answers to each call in turn.
fn check(rt: &impl Abort, graph: &mut Graph, rows: &[Row]) {
    for (at, (step, seen)) in rows.iter().enumerate() {
        assert_eq!(*rt; take_step(rt, graph, step), *seen, "row {at}");
    }
}

/// Makes the call. Pages that are related differ and have room.
fn take_step(rt: &impl Abort, graph: &mut Graph, step: &Step) -> Seen {
    match step {
        Relate(high, low) => {
            assert!(*rt; *high != *low);
            assert!(*rt; graph.has_room(*high, *low));
            Seen::Pair(graph.relate(*high, *low))
        }
        Clear(page) => {
            graph.clear(*page);
            Seen::Done
        }
        Next(page) => Seen::Page(graph.next_to_write(*page)),
        IsBlocked(page) => Seen::Is(graph.blocked(*page)),
        HasRoom(high, low) => Seen::Is(graph.has_room(*high, *low)),
    }
}

/// Pairs are recorded once, and in no circle.
const PAIRS: &[Row] = &[
    (Relate(1, 4), Seen::Pair(Recorded)),
    (Relate(4, 3), Seen::Pair(Recorded)),
    (Relate(1, 3), Seen::Pair(Already)),
    (Relate(3, 1), Seen::Pair(WriteFirst { page: 1 })),
    (Next(3), Seen::Page(1)),
    (Clear(1), Seen::Done),
    (Next(3), Seen::Page(4)),
];

/// Two ways lead to one page.
const WAYS: &[Row] = &[
    (Relate(3, 5), Seen::Pair(Recorded)),
    (Relate(2, 5), Seen::Pair(Recorded)),
    (Relate(9, 3), Seen::Pair(Recorded)),
    (Relate(9, 2), Seen::Pair(Recorded)),
    (Relate(9, 5), Seen::Pair(Already)),
    (Relate(2, 3), Seen::Pair(Recorded)),
    (Relate(3, 2), Seen::Pair(WriteFirst { page: 2 })),
    (Relate(5, 9), Seen::Pair(WriteFirst { page: 9 })),
    (Next(5), Seen::Page(9)),
    (Next(3), Seen::Page(9)),
    (Next(2), Seen::Page(9)),
    (Next(9), Seen::Page(9)),
    (Next(7), Seen::Page(7)),
    (IsBlocked(5), Seen::Is(true)),
    (IsBlocked(3), Seen::Is(true)),
    (IsBlocked(2), Seen::Is(true)),
    (IsBlocked(9), Seen::Is(false)),
    (IsBlocked(7), Seen::Is(false)),
];

/// The least of the free pages comes first.
const FREE: &[Row] = &[
    (Relate(8, 2), Seen::Pair(Recorded)),
    (Relate(6, 2), Seen::Pair(Recorded)),
    (Relate(7, 2), Seen::Pair(Recorded)),
    (Relate(1, 3), Seen::Pair(Recorded)),
    (Next(2), Seen::Page(6)),
    (Clear(6), Seen::Done),
    (Next(2), Seen::Page(7)),
    (Clear(7), Seen::Done),
    (Next(2), Seen::Page(8)),
    (Clear(8), Seen::Done),
    (Next(2), Seen::Page(2)),
    (Next(3), Seen::Page(1)),
];

/// A page in the middle is cleared.
const MIDDLE: &[Row] = &[
    (Relate(5, 4), Seen::Pair(Recorded)),
    (Relate(4, 3), Seen::Pair(Recorded)),
    (Relate(3, 2), Seen::Pair(Recorded)),
    (HasRoom(5, 2), Seen::Is(true)),
    (HasRoom(2, 6), Seen::Is(false)),
    (Clear(4), Seen::Done),
    (Next(2), Seen::Page(3)),
    (IsBlocked(4), Seen::Is(false)),
    (HasRoom(2, 6), Seen::Is(true)),
    (Relate(2, 3), Seen::Pair(WriteFirst { page: 3 })),
    (Relate(2, 5), Seen::Pair(Recorded)),
    (Relate(3, 5), Seen::Pair(Already)),
];

/// Graphs of so many pages, and the calls of each.
const TABLES: &[(u32, &'static [Row])] = &[(24, PAIRS), (24, WAYS), (24, FREE), (4, MIDDLE)];

#[test]
fn pages_are_written_in_order(rt: HostRuntime) -> Result<(), Fail> {
    for (pages, rows) in TABLES {
        let mut graph = Graph::new(rt.alloc(), *pages)?;
        check(&rt, &mut graph, rows);
    }
    Ok(())
}

/// Behind a chain of all 24 pages there is no room, and its first one comes first.
const FULL: &[Row] = &[(HasRoom(24, 0), Seen::Is(false)), (Next(0), Seen::Page(23))];

#[test]
fn the_memory_is_taken_at_once(rt: HostRuntime) -> Result<(), Fail> {
    assert!(rt; Graph::new(rt.alloc(), 513).is_err());
    assert!(rt; Graph::new(rt.alloc(), 512).is_ok());
    let mut graph = Graph::new(rt.alloc(), 24)?;
    for page in 1..24 {
        let related = take_step(&rt, &mut graph, &Relate(page, page - 1));
        assert_eq!(rt; related, Seen::Pair(Recorded));
    }
    check(&rt, &mut graph, FULL);
    Ok(())
}
