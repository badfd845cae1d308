// The six comparisons, and sets of truth values.
ghost use Rattle.std.specs.Prelude.{◌≡◌};
ghost use Rattle.interval_domain.specs.Comparison as comparison;

/// The six comparisons.
#[derive(Clone, Copy, Debug, PartialEq, Eq)]
pub enum Compare {
    Less,
    LessEqual,
    Greater,
    GreaterEqual,
    Equal,
    NotEqual,
}

/// The truth values that occur.
#[derive(Clone, Copy, Debug, PartialEq, Eq)]
pub struct Flags {
    pub yes: bool,
    pub no: bool,
}

/// The comparison that is true where this one is false.
pub fn opposite(op: Compare) -> Compare
    ensures { result ≡ comparison.opposite op }
{
    match op {
        Compare::Less => Compare::GreaterEqual,
        Compare::LessEqual => Compare::Greater,
        Compare::Greater => Compare::LessEqual,
        Compare::GreaterEqual => Compare::Less,
        Compare::Equal => Compare::NotEqual,
        Compare::NotEqual => Compare::Equal,
    }
}
