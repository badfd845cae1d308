// The kinds of faults that a run may end with.
ghost use Rattle.std.specs.Prelude.{◌≡◌};

/// What a run may end with: this profile's four kinds of faults.
#[derive(Clone, Copy, Debug, PartialEq, Eq)]
pub enum Kind {
    /// A division or a remainder by 0.
    ZeroDivisor,
    /// An index outside the bounds of its array.
    Index,
    /// A value outside the subrange that it is written to.
    Subrange,
    /// A result outside the type of its expression.
    Overflow,
}

impl Kind {
    ghost use Rattle.iec_tables.specs.Kinds.{code_of, name_of};

    /// The number of the kind, from 1 to 4.
    pub fn code(self) -> u8
        ensures { result ≡ code_of self }
    {
        match self {
            Kind::ZeroDivisor => 1,
            Kind::Index => 2,
            Kind::Subrange => 3,
            Kind::Overflow => 4,
        }
    }

    /// The name of the kind, as reports write it.
    pub fn name(self) -> &'static str
        ensures { result.now ≡ name_of self }
    {
        match self {
            Kind::ZeroDivisor => "ZeroDivisor",
            Kind::Index => "Index",
            Kind::Subrange => "Subrange",
            Kind::Overflow => "Overflow",
        }
    }
}
