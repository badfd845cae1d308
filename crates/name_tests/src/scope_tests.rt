// Declarations of one name in several cases of letters, in several scopes.
use scope_names::{NameRow, Names, compare_names, is_same_name};
use st_tree::{Node, NodeNo, Site};
use std::cmp::Ordering;

fn row(scope: u32, name: &'static [u8], file: u16, number: u32) -> NameRow<'static, u32> {
    let node = NodeNo(number);
    NameRow {
        scope,
        name,
        site: Site { file, node },
        node: Node {
            number: node,
            start: 0,
            end: 0,
        },
        what: number,
    }
}

/// Whether it is a row for that declaration, or none where none is wanted.
fn is_what(row: Option<&NameRow<'static, u32>>, what: Option<u32>) -> bool {
    match (row, what) {
        (Some(row), Some(what)) => row.what == what,
        (None, None) => true,
        _ => false,
    }
}

fn are_found(names: &Names<'static, u32>) -> bool {
    is_what(names.find(1, b"sPEED"), Some(7))
        && is_what(names.last(1, b"speed"), Some(4))
        && names.all(1, b"speed").len() == 3
        && names.all(2, b"level").is_empty()
        && is_what(names.find(2, b"level"), None)
        && is_what(names.last(3, b"speed"), None)
}

/// What stands at each place in order, and whether it repeats the name before it.
const ORDER: [(u32, bool); 6] = [
    (9, false),
    (7, false),
    (8, true),
    (4, true),
    (2, false),
    (1, false),
];

fn stands_at(names: &Names<'static, u32>, at: usize, what: u32, repeats: bool) -> bool {
    names.repeats(at) == repeats && is_what(names.rows().get(at), Some(what))
}

fn are_in_order(names: &Names<'static, u32>) -> bool {
    for at in 0..ORDER.len() {
        if !stands_at(names, at, ORDER[at].0, ORDER[at].1) {
            return false;
        }
    }
    !names.repeats(ORDER.len())
}

#[test]
fn declarations(rt: HostRuntime) {
    let rows = vec![in rt.alloc();
        row(1, b"Speed", 1, 4),
        row(2, b"SPEED", 0, 1),
        row(1, b"level", 0, 9),
        row(1, b"speed", 0, 7),
        row(1, b"Speeds", 0, 2),
        row(1, b"SPEED", 0, 8),
    ];
    let rows = rows.expect(&rt, "memory");
    let names = Names::of(rows);
    assert!(rt; are_found(&names));
    assert!(rt; are_in_order(&names));
}

fn are_compared() -> bool {
    is_same_name(b"a_1z", b"A_1Z")
        && !is_same_name(b"a", b"ab")
        && compare_names(b"ab", b"AC") == Ordering::Less
        && compare_names(b"abc", b"AB") == Ordering::Greater
        && compare_names(b"x_", b"xa") == Ordering::Greater
}

#[test]
fn names(rt: HostRuntime) {
    assert!(rt; are_compared());
}
