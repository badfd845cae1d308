// The tables of results, and results of intervals over types of 8 bits against each concrete result.
use crate::operation::{Operation, apply};
use crate::tables::{ARITHMETIC, CHOICES, CUT, Case, PATTERNS, SHIFTS, WORKED};
use iec_tables::elem::Elem;
use interval_domain::comparison::{compare, cut};
use interval_domain::interval::Interval;
use interval_domain::relation::{Compare, Flags};
use interval_domain::selection::{limit, sel};
use std::process::Abort;

const SIGNED: [i64; 7] = [-128, -7, -1, 0, 1, 5, 127];

const PATTERN: [i64; 6] = [0, 1, 3, 64, 129, 255];

const COUNTS: [i64; 7] = [-3, 0, 1, 5, 8, 9, 20];

const FEW: [i64; 5] = [-2, -1, 0, 1, 3];

const COMPARISONS: [Compare; 6] = [
    Compare::Less,
    Compare::LessEqual,
    Compare::Greater,
    Compare::GreaterEqual,
    Compare::Equal,
    Compare::NotEqual,
];

/// A span of numbers.
#[derive(Clone, Copy)]
struct Numbers {
    low: i64,
    high: i64,
}

impl Numbers {
    fn interval(self) -> Interval {
        Interval::of(self.low as i128, self.high as i128)
    }

    fn end(self) -> i64 {
        self.high.wrapping_add(1)
    }
}

#[test]
fn worked_results(rt: HostRuntime) {
    check_table(&rt, &WORKED, "worked");
    check_table(&rt, &ARITHMETIC, "arithmetic");
    check_table(&rt, &CHOICES, "choices");
    check_table(&rt, &PATTERNS, "patterns");
    check_table(&rt, &SHIFTS, "shifts");
    check_table(&rt, &CUT, "cut");
}

fn check_table(rt: &impl Abort, cases: &[Case], table: &str) {
    for (index, case) in cases.iter().enumerate() {
        assert!(rt; is_met(case), "{index} of {table}");
    }
}

/// Whether the operator gives the raw result and the result of a row.
fn is_met(case: &Case) -> bool {
    let out = apply(case.operation, case.elem, of(case.a), of(case.b));
    out.raw == of(case.raw) && out.result == of(case.result)
}

fn of(bounds: (i128, i128)) -> Interval {
    Interval::of(bounds.0, bounds.1)
}

type Bounds = (i128, i128);

/// Three operands of the limit, and its result.
const LIMITS: [(Bounds, Bounds, Bounds, Bounds); 5] = [
    ((0, 2), (-9, 9), (5, 7), (0, 7)),
    ((0, 0), (-9, -3), (5, 5), (0, 0)),
    ((6, 8), (1, 2), (3, 4), (3, 4)),
    ((1, 0), (1, 2), (3, 4), (1, 0)),
    ((0, 1), (1, 2), (1, 0), (1, 0)),
];

/// Three operands of the choice, and its result.
const CHOSEN: [(Bounds, Bounds, Bounds, Bounds); 5] = [
    ((0, 0), (1, 2), (8, 9), (1, 2)),
    ((1, 1), (1, 2), (8, 9), (8, 9)),
    ((0, 1), (1, 2), (8, 9), (1, 9)),
    ((1, 0), (1, 2), (8, 9), (1, 0)),
    ((0, 0), (1, 2), (1, 0), (1, 0)),
];

fn is_limit(mn: Bounds, a: Bounds, mx: Bounds, wanted: Bounds) -> bool {
    limit(Elem::Sint, of(mn), of(a), of(mx)).result == of(wanted)
}

fn is_choice(g: Bounds, first: Bounds, second: Bounds, wanted: Bounds) -> bool {
    sel(Elem::Sint, of(g), of(first), of(second)).result == of(wanted)
}

#[test]
fn three_operands(rt: HostRuntime) {
    for (mn, a, mx, wanted) in &LIMITS {
        assert!(rt; is_limit(*mn, *a, *mx, *wanted), "limit");
    }
    for (g, first, second, wanted) in &CHOSEN {
        assert!(rt; is_choice(*g, *first, *second, *wanted), "choice");
    }
}

/// The raw results are exactly what the concrete results span.
#[test]
fn exact_results(rt: HostRuntime) {
    let operations = [
        Operation::Add,
        Operation::Sub,
        Operation::Mul,
        Operation::Div,
        Operation::Min,
        Operation::Max,
    ];
    for operation in &operations {
        check_pairs(&rt, *operation, Elem::Sint, &SIGNED, &SIGNED, true);
    }
    check_pairs(&rt, Operation::Shr, Elem::Byte, &PATTERN, &COUNTS, true);
    check_pairs(&rt, Operation::Neg, Elem::Sint, &SIGNED, &[0], true);
    check_pairs(&rt, Operation::Abs, Elem::Sint, &SIGNED, &[0], true);
    check_pairs(&rt, Operation::Not, Elem::Byte, &PATTERN, &[0], true);
}

/// Each concrete result lies in the result.
#[test]
fn held_results(rt: HostRuntime) {
    check_pairs(&rt, Operation::Mod, Elem::Sint, &SIGNED, &SIGNED, false);
    check_pairs(&rt, Operation::And, Elem::Byte, &PATTERN, &PATTERN, false);
    check_pairs(&rt, Operation::Or, Elem::Byte, &PATTERN, &PATTERN, false);
    check_pairs(&rt, Operation::Xor, Elem::Byte, &PATTERN, &PATTERN, false);
    check_pairs(&rt, Operation::Shl, Elem::Byte, &PATTERN, &COUNTS, false);
    check_pairs(&rt, Operation::Rol, Elem::Byte, &PATTERN, &COUNTS, false);
    check_pairs(&rt, Operation::Ror, Elem::Byte, &PATTERN, &COUNTS, false);
}

fn check_pairs(
    rt: &impl Abort,
    operation: Operation,
    t: Elem,
    lefts: &[i64],
    rights: &[i64],
    is_exact: bool,
) {
    for low in lefts {
        for high in lefts {
            check_left(rt, operation, t, from_to(*low, *high), rights, is_exact);
        }
    }
}

fn from_to(low: i64, high: i64) -> Numbers {
    Numbers { low, high }
}

fn check_left(
    rt: &impl Abort,
    operation: Operation,
    t: Elem,
    a: Numbers,
    rights: &[i64],
    is_exact: bool,
) {
    for low in rights {
        for high in rights {
            let b = from_to(*low, *high);
            assert!(rt; is_spanned(operation, t, a, b, is_exact), "{operation:?}");
        }
    }
}

/// Whether the result is what the concrete results span, or holds it.
fn is_spanned(operation: Operation, t: Elem, a: Numbers, b: Numbers, is_exact: bool) -> bool {
    let out = apply(operation, t, a.interval(), b.interval());
    let spanned = spanned(operation, a, b).interval();
    if is_exact {
        out.raw == spanned
    } else {
        spanned.is_within(out.result)
    }
}

/// What the concrete results span: from the least to the greatest, or nothing.
fn spanned(operation: Operation, a: Numbers, b: Numbers) -> Numbers {
    let mut all = from_to(i64::MAX, i64::MIN);
    for x in a.low..a.end() {
        for y in b.low..b.end() {
            if let Some(z) = concrete(operation, x, y) {
                all = from_to(all.low.min(z), all.high.max(z));
            }
        }
    }
    all
}

/// One concrete result, or None where the operator faults.
fn concrete(operation: Operation, x: i64, y: i64) -> Option<i64> {
    match operation {
        Operation::Add => Some(x.wrapping_add(y)),
        Operation::Sub => Some(x.wrapping_sub(y)),
        Operation::Mul => Some(x.wrapping_mul(y)),
        Operation::Div if y != 0 => Some(x.wrapping_div(y)),
        Operation::Mod if y != 0 => Some(x.wrapping_rem(y)),
        Operation::Neg => Some(x.wrapping_neg()),
        Operation::Abs => Some(x.wrapping_abs()),
        Operation::Min => Some(if x < y { x } else { y }),
        Operation::Max => Some(if x < y { y } else { x }),
        Operation::And => Some(x & y),
        Operation::Or => Some(x | y),
        Operation::Xor => Some(x ^ y),
        Operation::Not => Some(x ^ 255),
        Operation::Shl => Some(up(x, y)),
        Operation::Shr => Some(down(x, y)),
        Operation::Rol => Some(turned(x, y.max(0) % 8)),
        Operation::Ror => Some(turned(x, (8i64).wrapping_sub(y.max(0) % 8))),
        _ => None,
    }
}

/// A byte moved up one bit at a time.
fn up(x: i64, count: i64) -> i64 {
    let mut z = x;
    for _ in 0..count {
        z = z.wrapping_mul(2) & 255;
    }
    z
}

/// A byte moved down one bit at a time.
fn down(x: i64, count: i64) -> i64 {
    let mut z = x;
    for _ in 0..count {
        z /= 2;
    }
    z
}

/// A byte turned up one bit at a time.
fn turned(x: i64, count: i64) -> i64 {
    let mut z = x;
    for _ in 0..count {
        z = (z.wrapping_mul(2) & 255) | (z / 128);
    }
    z
}

/// Truth values and cuts are exactly those of the concrete comparisons.
#[test]
fn comparisons(rt: HostRuntime) {
    for op in &COMPARISONS {
        for low in &FEW {
            for high in &FEW {
                check_comparison(&rt, *op, from_to(*low, *high));
            }
        }
    }
}

fn check_comparison(rt: &impl Abort, op: Compare, a: Numbers) {
    for low in &FEW {
        for high in &FEW {
            let b = from_to(*low, *high);
            assert!(rt; has_flags(op, a, b), "{op:?}");
            assert!(rt; is_cut(op, a, b), "{op:?}");
        }
    }
}

fn has_flags(op: Compare, a: Numbers, b: Numbers) -> bool {
    compare(Elem::Lint, op, a.interval(), b.interval()) == concrete_flags(op, a, b)
}

fn is_cut(op: Compare, a: Numbers, b: Numbers) -> bool {
    cut(op, a.interval(), b.interval()) == concrete_cut(op, a, b).interval()
}

fn concrete_flags(op: Compare, a: Numbers, b: Numbers) -> Flags {
    let mut flags = Flags {
        yes: false,
        no: false,
    };
    for x in a.low..a.end() {
        for y in b.low..b.end() {
            if is_true(op, x, y) {
                flags.yes = true;
            } else {
                flags.no = true;
            }
        }
    }
    flags
}

fn concrete_cut(op: Compare, a: Numbers, b: Numbers) -> Numbers {
    let mut all = from_to(i64::MAX, i64::MIN);
    for x in a.low..a.end() {
        for y in b.low..b.end() {
            if is_true(op, x, y) {
                all = from_to(all.low.min(x), all.high.max(x));
            }
        }
    }
    all
}

fn is_true(op: Compare, x: i64, y: i64) -> bool {
    match op {
        Compare::Less => x < y,
        Compare::LessEqual => x <= y,
        Compare::Greater => x > y,
        Compare::GreaterEqual => x >= y,
        Compare::Equal => x == y,
        Compare::NotEqual => x != y,
    }
}
