// What a project may break.

ghost use Rattle.std.specs.Prelude.{◌≡◌};
ghost use Rattle.link_faults.specs.Codes as codes;

/// What a project breaks.
#[derive(Clone, Copy, Debug, PartialEq, Eq)]
pub enum LinkCode {
    /// 20: a name that nothing declares.
    Unknown,
    /// 21: a second declaration in one scope.
    Twice,
    /// 22: a type that doesn't fit.
    WrongType,
    /// 23: an expression that isn't constant where one must be.
    NotConstant,
    /// 24: a form that the profile leaves out.
    OutOfProfile,
    /// 25: a bound or a value outside its bounds.
    BadBound,
    /// 26: a call, task or program line that fits no declaration.
    WrongCall,
    /// 27: a write of what isn't assignable.
    NotAssignable,
}

impl LinkCode {
    /// The number of the code, 20 to 27.
    pub fn code(self) -> u8
        ensures { result ≡ codes.code_of self }
    {
        match self {
            LinkCode::Unknown => 20,
            LinkCode::Twice => 21,
            LinkCode::WrongType => 22,
            LinkCode::NotConstant => 23,
            LinkCode::OutOfProfile => 24,
            LinkCode::BadBound => 25,
            LinkCode::WrongCall => 26,
            LinkCode::NotAssignable => 27,
        }
    }

    /// The name of the code, one word.
    pub fn name(self) -> &'static str
        ensures { result.now ≡ codes.name_of self }
    {
        match self {
            LinkCode::Unknown => "Unknown",
            LinkCode::Twice => "Twice",
            LinkCode::WrongType => "WrongType",
            LinkCode::NotConstant => "NotConstant",
            LinkCode::OutOfProfile => "OutOfProfile",
            LinkCode::BadBound => "BadBound",
            LinkCode::WrongCall => "WrongCall",
            LinkCode::NotAssignable => "NotAssignable",
        }
    }
}
