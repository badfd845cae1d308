// Which numbers a grid has and how it rounds, worked out by hand: neighbours of a literal, the cap
// of 1,024 numbers and its ties.
use interval_domain::grid::Grid;
use interval_domain::interval::Interval;
use std::alloc::{AllocError, Global};
use std::process::Abort;
use std::test::Fail;

type Bounds = (i128, i128);

/// Intervals and their roundings by the grid of the literal 5, which has -1, 4, 5, 6 and the bounds of types.
const FIVE: [(Bounds, Bounds); 10] = [
    ((1, 0), (1, 0)),
    ((-1, -1), (-1, -1)),
    ((4, 6), (4, 6)),
    ((2, 2), (1, 4)),
    ((7, 7), (6, 127)),
    ((-2, -2), (-128, -1)),
    ((3, 70000), (1, 2147483647)),
    ((-129, 128), (-32768, 255)),
    (
        (-2147483649, 4294967296),
        (-9223372036854775808, 9223372036854775807),
    ),
    (
        (-9223372036854775807, 18446744073709551614),
        (-9223372036854775808, 18446744073709551615),
    ),
];

/// The same for the literals 1,000 to 400,000 and -1,000 to -400,000 by thousands. With -1 and the
/// neighbours of the first 170 the grid has 1,021 numbers; the next three are -170,999, 170,999 and
/// -171,000, so that 171,000 and all beyond are left out.
const CAPPED: [(Bounds, Bounds); 8] = [
    ((-1, -1), (-1, -1)),
    ((-170001, 170001), (-170001, 170001)),
    ((-170999, -170999), (-170999, -170999)),
    ((170999, 170999), (170999, 170999)),
    ((-171000, -171000), (-171000, -171000)),
    ((171000, 171000), (170999, 2147483647)),
    ((-171001, -171001), (-2147483648, -171000)),
    ((400000, 400000), (170999, 2147483647)),
];

#[test]
fn neighbours(rt: HostRuntime) -> Result<(), Fail> {
    let grid = Grid::of(rt.alloc(), &[5]).map_err(|_| AllocError)?;
    check_rows(&rt, &grid, &FIVE);
    Ok(())
}

#[test]
fn cap_and_ties(rt: HostRuntime) -> Result<(), Fail> {
    let literals = thousands(rt.alloc())?;
    let grid = Grid::of(rt.alloc(), &literals).map_err(|_| AllocError)?;
    check_rows(&rt, &grid, &CAPPED);
    Ok(())
}

fn thousands(alloc: Global) -> Result<Vec<i128>, AllocError> {
    let mut literals = Vec::new(alloc);
    for thousand in 1..401u32 {
        let literal = 1000 * i128::from(thousand);
        literals.push(literal)?;
        literals.push(-literal)?;
    }
    Ok(literals)
}

fn check_rows(rt: &impl Abort, grid: &Grid, rows: &[(Bounds, Bounds)]) {
    for (own, wanted) in rows {
        assert!(rt; is_rounded(grid, *own, *wanted), "{own:?}");
    }
}

fn is_rounded(grid: &Grid, own: Bounds, wanted: Bounds) -> bool {
    grid.round(Interval::of(own.0, own.1)) == Interval::of(wanted.0, wanted.1)
}
