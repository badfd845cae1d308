// The operators by name.
ghost use Rattle.std.specs.Prelude.{◌≡◌};
ghost use Rattle.interval_bench.specs.Operations.{raw_of};

use iec_tables::elem::Elem;
use interval_domain::arithmetic::{abs, div, modulo, mul, neg};
use interval_domain::bits::{and, not, or, xor};
use interval_domain::interval::Interval;
use interval_domain::operators::{Out, add, sub};
use interval_domain::selection::{convert, limit, max, min, sel};
use interval_domain::shifts::{rol, ror, shl, shr};

/// The operators on intervals.
#[derive(Clone, Copy, Debug, PartialEq, Eq)]
pub enum Operation {
    Add,
    Sub,
    Mul,
    Div,
    Mod,
    Neg,
    Abs,
    Min,
    Max,
    Limit,
    Sel,
    Convert,
    And,
    Or,
    Xor,
    Not,
    Shl,
    Shr,
    Rol,
    Ror,
}

/// The operator on two operands. A third operand is the second.
pub fn apply(operation: Operation, t: Elem, a: Interval, b: Interval) -> Out
    ensures { result.raw ≡ raw_of operation t a b }
{
    match operation {
        Operation::Add => add(t, a, b),
        Operation::Sub => sub(t, a, b),
        Operation::Mul => mul(t, a, b),
        Operation::Div => div(t, a, b),
        Operation::Mod => modulo(t, a, b),
        Operation::Neg => neg(t, a),
        Operation::Abs => abs(t, a),
        Operation::Min => min(t, a, b),
        Operation::Max => max(t, a, b),
        Operation::Limit => limit(t, b, a, b),
        Operation::Sel => sel(t, a, b, b),
        Operation::Convert => convert(Elem::Lint, t, a),
        Operation::And => and(t, a, b),
        Operation::Or => or(t, a, b),
        Operation::Xor => xor(t, a, b),
        Operation::Not => not(t, a),
        Operation::Shl => shl(t, a, b),
        Operation::Shr => shr(t, a, b),
        Operation::Rol => rol(t, a, b),
        Operation::Ror => ror(t, a, b),
    }
}
