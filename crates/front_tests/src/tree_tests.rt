// Trees of texts: how operators group, and the numbers of nodes and comments, worked out by hand.
ghost use Rattle.std.specs.Prelude.{◌≡◌};

use iec_tables::fault::FaultCode;
use st_lexer::tokens;
use st_tree::{BinaryOperator, Body, Expr, SourceTree, Stmt, Unit};
use st_units::{ParseFault, expression, parse_file, sfc_body, statements};
use station_ports::steps::Steps;
use std::alloc::Global;
use std::marker::Brand;
use std::sync::ledger::{Blank, Ledger};
use tree_copies::Copied;

/// Whether this is the operator between two operands, with this number, from the first byte of the text on up to this end.
fn is_binary(tree: &Expr, operator: BinaryOperator, number: u32, end: usize) -> bool {
    match tree {
        Expr::Binary(node, found, _, _) => {
            *found == operator && node.number.0 == number && node.start == 0 && node.end == end
        }
        _ => false,
    }
}

fn left_of(tree: &Expr) -> Option<&Expr> {
    match tree {
        Expr::Binary(_, _, left, _) => Some(left.get()),
        _ => None,
    }
}

/// Whether the tree is two of these operators, the outer one up to the first end, that of its left operand up to the second.
fn groups_left(tree: &Expr, operator: BinaryOperator, end: usize, inner: usize) -> bool {
    match left_of(tree) {
        Some(left) => is_binary(tree, operator, 0, end) && is_binary(left, operator, 1, inner),
        None => false,
    }
}

/// Whether a text begins with two of these operators that group to the left, and the token behind has this number.
fn is_grouped(
    alloc: Global,
    text: &str,
    operator: BinaryOperator,
    ends: (usize, usize),
    behind: usize,
) -> bool {
    let Ok(tokens) = tokens(alloc, text.as_bytes()) else {
        return false;
    };
    match &expression(alloc, &tokens, 0, 0) {
        Ok((tree, found)) => *found == behind && groups_left(tree, operator, ends.0, ends.1),
        Err(_) => false,
    }
}

#[test]
fn operators_group_to_the_left(rt: HostRuntime) {
    let alloc = rt.alloc();
    assert!(rt; is_grouped(alloc, "a - b - c", BinaryOperator::Subtract, (9, 5), 5));
    assert!(rt;
        is_grouped(
            alloc,
            "a < b (* x *) < c {y} ; d",
            BinaryOperator::Less,
            (17, 5),
            7
        )
    );
}

/// How many statements a text begins with, and the number of the token behind.
fn counted(alloc: Global, text: &str) -> Option<(usize, usize)> {
    let tokens = tokens(alloc, text.as_bytes()).ok()?;
    let (found, behind) = statements(alloc, &tokens, 0).ok()?;
    Some((found.len(), behind))
}

fn is_counted(alloc: Global, text: &str, wanted: Option<(usize, usize)>) -> bool {
    counted(alloc, text) == wanted
}

/// How many parts a chart has behind its initial step with which a text begins, the number and the last byte of its node, and the number of
/// the token behind.
fn charted(alloc: Global, text: &str) -> Option<(usize, u32, usize, usize)> {
    let tokens = tokens(alloc, text.as_bytes()).ok()?;
    let (chart, behind) = sfc_body(alloc, &tokens, 0).ok()?;
    Some((
        chart.parts.len(),
        chart.node.number.0,
        chart.node.end,
        behind,
    ))
}

fn is_charted(alloc: Global, text: &str, wanted: Option<(usize, u32, usize, usize)>) -> bool {
    charted(alloc, text) == wanted
}

#[test]
fn charts_end_where_they_do(rt: HostRuntime) {
    let alloc = rt.alloc();
    let text = "INITIAL_STEP S: A(N); END_STEP (* x *) STEP T: END_STEP END_PROGRAM";
    assert!(rt; is_charted(alloc, text, Some((1, 0, 55, 14))));
    assert!(rt; is_charted(alloc, "INITIAL_STEP S: END_STEP a", Some((0, 0, 24, 4))));
    assert!(rt; is_charted(alloc, "INITIAL_STEP S: END_STEP STEP", None));
    assert!(rt; is_charted(alloc, "STEP S: END_STEP", None));
    assert!(rt; is_charted(alloc, "", None));
}

#[test]
fn statements_end_where_they_do(rt: HostRuntime) {
    let alloc = rt.alloc();
    assert!(rt; is_counted(alloc, "a := 1;; (* x *) b(); END_IF", Some((2, 10))));
    assert!(rt; is_counted(alloc, "", Some((0, 0))));
    assert!(rt; is_counted(alloc, "a := 1", None));
}

/// What stands at the front of the tokens of a text from a number on, at a depth: the number of the token behind an expression, or a fault and
/// its place.
struct Front {
    text: &'static str,
    from: usize,
    outer: usize,
    behind: Result<usize, (FaultCode, usize)>,
}

const FRONTS: [Front; 12] = [
    Front {
        text: "x := a + b;",
        from: 2,
        outer: 0,
        behind: Ok(5),
    },
    Front {
        text: "(* c *) a",
        from: 0,
        outer: 0,
        behind: Ok(2),
    },
    Front {
        text: "a b",
        from: 1,
        outer: 7,
        behind: Ok(2),
    },
    Front {
        text: "a",
        from: 0,
        outer: 256,
        behind: Ok(1),
    },
    Front {
        text: "(a)",
        from: 0,
        outer: 255,
        behind: Ok(3),
    },
    Front {
        text: "",
        from: 0,
        outer: 0,
        behind: Err((FaultCode::Grammar, 0)),
    },
    Front {
        text: "a b",
        from: 2,
        outer: 0,
        behind: Err((FaultCode::Grammar, 3)),
    },
    Front {
        text: "a + ; (* x *)",
        from: 0,
        outer: 0,
        behind: Err((FaultCode::Grammar, 4)),
    },
    Front {
        text: "a + (* x *)",
        from: 0,
        outer: 0,
        behind: Err((FaultCode::Grammar, 11)),
    },
    Front {
        text: "(a;",
        from: 0,
        outer: 255,
        behind: Err((FaultCode::Grammar, 2)),
    },
    Front {
        text: "(a)",
        from: 0,
        outer: 256,
        behind: Err((FaultCode::TooDeep, 0)),
    },
    Front {
        text: "a + b",
        from: 0,
        outer: 256,
        behind: Err((FaultCode::TooDeep, 4)),
    },
];

/// Whether this is what is read of the front.
fn is_read(front: &Front, read: &Result<(Expr, usize), ParseFault>) -> bool {
    match (read, front.behind) {
        (Ok((_, behind)), Ok(wanted)) => *behind == wanted,
        (Err(ParseFault::At { code, at }), Err((wanted, place))) => {
            *code == wanted && *at == place
        }
        _ => false,
    }
}

/// Whether the front is read as it is to be; not where the text isn't cut or there is no memory.
fn is_front(alloc: Global, front: &Front) -> bool {
    let Ok(tokens) = tokens(alloc, front.text.as_bytes()) else {
        return false;
    };
    if front.from > tokens.list.len() || front.outer > 256 {
        return false;
    }
    is_read(front, &expression(alloc, &tokens, front.from, front.outer))
}

#[test]
fn fronts_of_token_lists(rt: HostRuntime) {
    for front in &FRONTS {
        assert!(rt;
            is_front(rt.alloc(), front),
            "{} from {} at depth {}",
            front.text,
            front.from,
            front.outer
        );
    }
}

const FILE: &str = "(* c *) PROGRAM P // d\nVAR a : INT; END_VAR a := 1; {x} END_PROGRAM\n(* e *)";

/// What `parse_file` gave, and the parse steps that it counted.
#[derive(Drop)]
struct Answer {
    result: Result<SourceTree, ParseFault>,
    steps: u64,
}

fn parsed<L: Ledger>(rt: &HostRuntime, blank: Blank, text: &[u8]) -> Answer
    requires name { blank.name ≡ L.name }
    requires parts { blank.parts ≡ L.parts }
    requires two { blank.parts ≡ 2 }
{
    let mut steps = Steps::<L>::new(rt, blank);
    let result = parse_file(rt.alloc(), text, &mut steps);
    Answer {
        result,
        steps: steps.parsed(),
    }
}

fn parsed_text(rt: &HostRuntime, text: &str) -> Answer {
    parsed::<Brand>(rt, Blank::new(2), text.as_bytes())
}

/// Whether a text has a tree that can be copied.
pub(crate) fn has_copied_tree(rt: &HostRuntime, text: &str) -> bool {
    let found = parsed_text(rt, text);
    match &found.result {
        Ok(tree) => tree.copy(rt.alloc()).is_ok(),
        Err(_) => false,
    }
}

/// The numbers of a unit, of its name, of its first section and of its first statement, if that is an assignment.
fn numbers_of(unit: &Unit) -> Option<(u32, u32, u32, u32)> {
    let section = unit.sections.get(0)?;
    let Body::Statements(body) = &unit.body else {
        return None;
    };
    match body.get(0)? {
        Stmt::Assign(node, _, _) => Some((
            unit.node.number.0,
            unit.name.node.number.0,
            section.node.number.0,
            node.number.0,
        )),
        _ => None,
    }
}

fn comment_numbers(tree: &SourceTree) -> Option<(u32, u32, u32)> {
    Some((
        tree.comments.get(0)?.node.number.0,
        tree.comments.get(1)?.node.number.0,
        tree.comments.get(2)?.node.number.0,
    ))
}

/// Whether the nodes, the comments and the line feeds of the file are as they were worked out.
fn is_numbered(tree: &SourceTree) -> bool {
    tree.units.get(0).and_then(numbers_of) == Some((1, 2, 4, 9))
        && comment_numbers(tree) == Some((0, 3, 13))
        && tree.comments.get(1).map(|comment| comment.text.bytes()) == Some(b"// d".as_slice())
        && tree.feeds.as_slice() == [22usize, 67].as_slice()
}

fn is_parsed_as_numbered(rt: &HostRuntime, text: &str, steps: u64) -> bool {
    let found = parsed_text(rt, text);
    match &found.result {
        Ok(tree) => found.steps == steps && is_numbered(tree),
        Err(_) => false,
    }
}

#[test]
fn nodes_and_comments_are_numbered(rt: HostRuntime) {
    assert!(rt; is_parsed_as_numbered(&rt, FILE, 17));
}
