// The least tables of nets, worked out by hand, and how many steps they take.
use crate::by_worklist;
use crate::net::Arc;
use crate::rounds::{Solved, by_rounds};
use interval_domain::interval::Interval;
use std::alloc::AllocError;
use std::marker::Brand;
use std::sync::ledger::Blank;
use std::test::Fail;

/// A net, the bounds of its least table, and how many steps it takes at least and at most.
struct Row {
    nodes: usize,
    arcs: &'static [Arc],
    table: &'static [(i128, i128)],
    fewest: u64,
    most: u64,
}

/// From no node, so from 0.
macro_rules! first {
    ($to:expr, $by:expr) => {
        ((9, 9, 9, 9), true, $to, $by)
    };
}

/// From one node.
macro_rules! from {
    ($from:expr, $to:expr, $by:expr) => {
        (($from, 9, 9, 9), false, $to, $by)
    };
}

/// (1, 0) is the empty interval. Each unit takes a step, and one more for each time that a node
/// which it reads rises; the most is the number of units and, for each of them, that of the numbers
/// which the nodes hold that it reads.
const ROWS: [Row; 14] = [
    // no node
    Row {
        nodes: 0,
        arcs: &[],
        table: &[],
        fewest: 0,
        most: 0,
    },
    // nodes without arcs
    Row {
        nodes: 2,
        arcs: &[],
        table: &[(1, 0), (1, 0)],
        fewest: 0,
        most: 0,
    },
    // one node after another
    Row {
        nodes: 2,
        arcs: &[first!(0, 2), from!(0, 1, 3)],
        table: &[(2, 2), (5, 5)],
        fewest: 2,
        most: 3,
    },
    // the same with the arcs in the other order: the first is evaluated again
    Row {
        nodes: 2,
        arcs: &[from!(0, 1, 3), first!(0, 2)],
        table: &[(2, 2), (5, 5)],
        fewest: 3,
        most: 3,
    },
    // two nodes that wait for one another: each number up to 7 takes an arc once more
    Row {
        nodes: 2,
        arcs: &[first!(0, 0), from!(0, 1, 1), from!(1, 0, 1)],
        table: &[(0, 7), (1, 7)],
        fewest: 8,
        most: 18,
    },
    // the same with nothing to start from
    Row {
        nodes: 2,
        arcs: &[from!(0, 1, 1), from!(1, 0, 1)],
        table: &[(1, 0), (1, 0)],
        fewest: 2,
        most: 2,
    },
    // a node that waits for itself, downward
    Row {
        nodes: 1,
        arcs: &[from!(0, 0, -1), first!(0, 7)],
        table: &[(0, 7)],
        fewest: 9,
        most: 10,
    },
    // two arcs to one node, and numbers past 7
    Row {
        nodes: 2,
        arcs: &[first!(0, 1), first!(0, 6), from!(0, 1, 4)],
        table: &[(1, 6), (5, 7)],
        fewest: 3,
        most: 9,
    },
    // all numbers past 7
    Row {
        nodes: 2,
        arcs: &[first!(0, 5), from!(0, 1, 4)],
        table: &[(5, 5), (1, 0)],
        fewest: 2,
        most: 3,
    },
    // an arc that leads to no node
    Row {
        nodes: 1,
        arcs: &[first!(1, 0), first!(0, 3)],
        table: &[(3, 3)],
        fewest: 2,
        most: 2,
    },
    // one arc from four nodes
    Row {
        nodes: 5,
        arcs: &[
            ((0, 1, 2, 3), false, 4, 1),
            first!(0, 6),
            first!(1, 2),
            first!(2, 4),
            first!(3, 0),
        ],
        table: &[(6, 6), (2, 2), (4, 4), (0, 0), (1, 7)],
        fewest: 6,
        most: 9,
    },
    // a chain against the order of the arcs: each is evaluated twice, but the last
    Row {
        nodes: 4,
        arcs: &[from!(2, 3, 1), from!(1, 2, 1), from!(0, 1, 1), first!(0, 0)],
        table: &[(0, 0), (1, 1), (2, 2), (3, 3)],
        fewest: 7,
        most: 7,
    },
    // a node that starts and is read with others
    Row {
        nodes: 3,
        arcs: &[((0, 2, 9, 9), true, 1, 2), first!(0, 3), from!(1, 2, 1)],
        table: &[(3, 3), (2, 7), (3, 7)],
        fewest: 6,
        most: 16,
    },
    // two rings apart, one of which has nothing to start from
    Row {
        nodes: 4,
        arcs: &[
            first!(0, 6),
            from!(0, 1, 1),
            from!(1, 0, 1),
            from!(2, 3, 0),
            from!(3, 2, 0),
        ],
        table: &[(6, 6), (7, 7), (1, 0), (1, 0)],
        fewest: 5,
        most: 7,
    },
];

fn solved_row(rt: &HostRuntime, row: &Row) -> Result<Solved, AllocError> {
    by_worklist::<Brand>(rt, Blank::new(2), row.nodes, row.arcs)
}

#[test]
fn least_tables(rt: HostRuntime) -> Result<(), Fail> {
    for (place, row) in ROWS.iter().enumerate() {
        let solved = solved_row(&rt, row)?;
        let rounds = by_rounds(rt.alloc(), row.nodes, row.arcs)?;
        let mut wanted = Vec::new(rt.alloc());
        for bounds in row.table {
            wanted.push(Interval::of(bounds.0, bounds.1))?;
        }
        assert_eq!(rt; solved.nodes, wanted, "in row {place}");
        assert_eq!(rt; rounds.nodes, wanted, "by rounds in row {place}");
        assert!(rt;
            row.fewest <= solved.steps && solved.steps <= row.most,
            "{} steps in row {place}",
            solved.steps
        );
    }
    Ok(())
}
