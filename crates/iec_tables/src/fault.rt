// The faults for which a text is refused.
ghost use Rattle.std.specs.Prelude.{◌≡◌};

/// Why a text is refused.
#[derive(Clone, Copy, Debug, PartialEq, Eq)]
pub enum FaultCode {
    /// The text isn't UTF-8.
    NotUtf8,
    /// A byte that begins no token.
    BadByte,
    /// A comment or a pragma that isn't closed.
    OpenComment,
    /// A number, a typed number or a time that isn't well formed, or whose value is too great.
    BadNumber,
    /// A name with two underscores in a row, or with one at its end.
    BadName,
    /// The tokens no longer begin a file.
    Grammar,
    /// A token stands too deep.
    TooDeep,
}

impl FaultCode {
    ghost use Rattle.iec_tables.specs.Faults.{code_of, name_of};

    /// The number of the fault, as reports write it.
    pub fn code(self) -> u8
        ensures { result ≡ code_of self }
    {
        match self {
            FaultCode::NotUtf8 => 1,
            FaultCode::BadByte => 2,
            FaultCode::OpenComment => 3,
            FaultCode::BadNumber => 4,
            FaultCode::BadName => 5,
            FaultCode::Grammar => 6,
            FaultCode::TooDeep => 7,
        }
    }

    /// The name of the fault, as reports write it.
    pub fn name(self) -> &'static str
        ensures { result.now ≡ name_of self }
    {
        match self {
            FaultCode::NotUtf8 => "NotUtf8",
            FaultCode::BadByte => "BadByte",
            FaultCode::OpenComment => "OpenComment",
            FaultCode::BadNumber => "BadNumber",
            FaultCode::BadName => "BadName",
            FaultCode::Grammar => "Grammar",
            FaultCode::TooDeep => "TooDeep",
        }
    }
}
