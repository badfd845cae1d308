// Times the operators on intervals: with the word `time` it prints nanoseconds an operator, else
// nothing. Its tests are tables of results of the operators, and comparisons with each concrete
// result over types of 8 bits.
#![tactic(auto)]

#[cfg(test)]
mod grid_tests;
mod operation;
#[cfg(test)]
mod tables;
#[cfg(test)]
mod tests;

use iec_tables::elem::Elem;
use interval_domain::interval::Interval;
use operation::{Operation, apply};
use std::time::Instant;
use std::{env, io};

/// How often each pair of operands is used.
const ROUNDS: u32 = 20000;

const OPERATIONS: [Operation; 20] = [
    Operation::Add,
    Operation::Sub,
    Operation::Mul,
    Operation::Div,
    Operation::Mod,
    Operation::Neg,
    Operation::Abs,
    Operation::Min,
    Operation::Max,
    Operation::Limit,
    Operation::Sel,
    Operation::Convert,
    Operation::And,
    Operation::Or,
    Operation::Xor,
    Operation::Not,
    Operation::Shl,
    Operation::Shr,
    Operation::Rol,
    Operation::Ror,
];

/// Bounds of operands: single numbers, spans and the whole of a type.
const OPERANDS: [(i128, i128); 6] = [
    (0, 1),
    (1, 1),
    (3, 9),
    (-32768, 32767),
    (-1, 40000),
    (0, 4294967295),
];

fn main(rt: HostRuntime) -> io::Result<()> {
    if env::args(&rt)?.skip(1).any(|word| word.as_str() == "time") {
        for operation in &OPERATIONS {
            time(&rt, *operation)?;
        }
    }
    Ok(())
}

fn time(rt: &HostRuntime, operation: Operation) -> io::Result<()> {
    let start = Instant::now(rt)?;
    let mut empty: u64 = 0;
    for _ in 0..ROUNDS {
        empty = empty.wrapping_add(empty_results(operation));
    }
    let tenths = start.elapsed(rt)?.as_nanos() / 72000;
    println!(rt;
        "{:?}: {}.{} ns, {} empty",
        operation,
        tenths / 10,
        tenths % 10,
        empty
    )?;
    Ok(())
}

/// How many results over all pairs of operands are empty.
fn empty_results(operation: Operation) -> u64 {
    let mut empty: u64 = 0;
    for a in &OPERANDS {
        for b in &OPERANDS {
            let out = apply(
                operation,
                Elem::Dword,
                Interval::of(a.0, a.1),
                Interval::of(b.0, b.1),
            );
            if out.result.is_empty() {
                empty = empty.wrapping_add(1);
            }
        }
    }
    empty
}
