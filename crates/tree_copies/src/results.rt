// Several values, each of which there may be no memory for.

ghost use Rattle.std.specs.Prelude.{◌≡◌, IfOk};

use station_ports::outside::NoMemory;
use std::alloc::Global;
use tree_items::Boxed;

/// Both values, where both are there.
pub(crate) fn both<A: Drop, B: Drop>(
    first: Result<A, NoMemory>,
    second: Result<B, NoMemory>,
) -> Result<(A, B), NoMemory>
    ensures { IfOk result (λ t. (first ≡ Ok t.0) × (second ≡ Ok t.1)) }
{
    Ok((first?, second?))
}

/// The three values, where all are there.
pub(crate) fn three<A: Drop, B: Drop, C: Drop>(
    first: Result<A, NoMemory>,
    second: Result<B, NoMemory>,
    third: Result<C, NoMemory>,
) -> Result<(A, B, C), NoMemory>
    ensures { IfOk result (λ t. (first ≡ Ok t.0) × (second ≡ Ok t.1) × (third ≡ Ok t.2)) }
{
    let (first, (second, third)) = both(first, both(second, third))?;
    Ok((first, second, third))
}

/// The four values, where all are there.
pub(crate) fn four<A: Drop, B: Drop, C: Drop, D: Drop>(
    first: Result<A, NoMemory>,
    second: Result<B, NoMemory>,
    third: Result<C, NoMemory>,
    fourth: Result<D, NoMemory>,
) -> Result<(A, B, C, D), NoMemory>
    ensures { IfOk result (λ t.
        (first ≡ Ok t.0) × (second ≡ Ok t.1) × (third ≡ Ok t.2) × (fourth ≡ Ok t.3)) }
{
    let ((first, second), (third, fourth)) = both(both(first, second), both(third, fourth))?;
    Ok((first, second, third, fourth))
}

/// The value in a box of its own.
pub(crate) fn boxed<T: Drop>(
    alloc: Global,
    value: Result<T, NoMemory>,
) -> Result<Boxed<T>, NoMemory>
    ensures { IfOk result (λ t. value ≡ Ok t) }
{
    Ok(Boxed::new(alloc, value?)?)
}
