// The elementary types of the profile, their ranges and the implicit conversions between them.
ghost use Rattle.std.specs.Prelude.{◌≡◌, ℤ, ◌≤ℤ◌, IsTrue};
ghost use Rattle.iec_tables.specs.Types.{low_of, high_of, IsInRange};
ghost use Rattle.iec_tables.specs.Conversions.{converts_to};

/// The elementary types: signed and unsigned integers of 8 to 64 bits, bit strings of 1 to 64 bits, and a duration in
/// milliseconds.
#[derive(Clone, Copy, Debug, PartialEq, Eq)]
pub enum Elem {
    Sint,
    Int,
    Dint,
    Lint,
    Usint,
    Uint,
    Udint,
    Ulint,
    Bool,
    Byte,
    Word,
    Dword,
    Lword,
    Time,
}

/// The types in the order of [`Elem`], each with its name, the machine's type of its numbers and its bits: what differs from
/// type to type is written once, by a macro that is handed these rows.
#[macro_export]
macro_rules! over_types {
    ($write:ident $(, $of:expr)?) => {
        $write!(
            $($of;)?
            Sint "SINT" i8 8, Int "INT" i16 16, Dint "DINT" i32 32, Lint "LINT" i64 64, Usint "USINT" u8 8,
            Uint "UINT" u16 16, Udint "UDINT" u32 32, Ulint "ULINT" u64 64, Bool "BOOL" bool 1,
            Byte "BYTE" u8 8, Word "WORD" u16 16, Dword "DWORD" u32 32, Lword "LWORD" u64 64,
            Time "TIME" i64 64
        )
    };
}

macro_rules! name_of {
    ($t:expr; $($elem:ident $name:literal $number:ident $bits:literal),*) => {
        match $t {
            $(Elem::$elem => $name,)*
        }
    };
}

macro_rules! least {
    (bool) => {
        0
    };
    ($number:ident) => {
        $number::MIN as i128
    };
}

macro_rules! low_of {
    ($t:expr; $($elem:ident $name:literal $number:ident $bits:literal),*) => {
        match $t {
            $(Elem::$elem => least!($number),)*
        }
    };
}

macro_rules! greatest {
    (bool) => {
        1
    };
    ($number:ident) => {
        $number::MAX as i128
    };
}

macro_rules! high_of {
    ($t:expr; $($elem:ident $name:literal $number:ident $bits:literal),*) => {
        match $t {
            $(Elem::$elem => greatest!($number),)*
        }
    };
}

impl Elem {
    ghost use Rattle.iec_tables.specs.Types.{name_of};

    /// The name of the type in capital letters, as IEC 61131-3 writes it.
    pub fn name(self) -> &'static str
        ensures { result.now ≡ name_of self }
    {
        over_types!(name_of, self)
    }
}

/// The least number of the type.
pub fn low(t: Elem) -> i128
    ensures { result ≡ low_of t }
{
    over_types!(low_of, t)
}

/// The greatest number of the type.
pub fn high(t: Elem) -> i128
    ensures { result ≡ high_of t }
{
    over_types!(high_of, t)
}

const Y: bool = true;

const N: bool = false;

// Whether the type of the row converts to the type of the column, rows and columns in the order of `Elem`.
static CONVERSIONS: [[bool; 14]; 14] = [
    [Y, Y, Y, Y, N, N, N, N, N, N, N, N, N, N], // SINT
    [N, Y, Y, Y, N, N, N, N, N, N, N, N, N, N], // INT
    [N, N, Y, Y, N, N, N, N, N, N, N, N, N, N], // DINT
    [N, N, N, Y, N, N, N, N, N, N, N, N, N, N], // LINT
    [N, Y, Y, Y, Y, Y, Y, Y, N, N, N, N, N, N], // USINT
    [N, N, Y, Y, N, Y, Y, Y, N, N, N, N, N, N], // UINT
    [N, N, N, Y, N, N, Y, Y, N, N, N, N, N, N], // UDINT
    [N, N, N, N, N, N, N, Y, N, N, N, N, N, N], // ULINT
    [N, N, N, N, N, N, N, N, Y, N, N, N, N, N], // BOOL
    [N, N, N, N, N, N, N, N, N, Y, Y, Y, Y, N], // BYTE
    [N, N, N, N, N, N, N, N, N, N, Y, Y, Y, N], // WORD
    [N, N, N, N, N, N, N, N, N, N, N, Y, Y, N], // DWORD
    [N, N, N, N, N, N, N, N, N, N, N, N, Y, N], // LWORD
    [N, N, N, N, N, N, N, N, N, N, N, N, N, Y], // TIME
];

/// Whether a value of the first type stands where one of the second is wanted, by an implicit conversion. A type converts to
/// itself, signed integers to wider signed ones, unsigned integers to wider ones of either kind, and BYTE, WORD and DWORD to
/// wider bit strings.
pub fn converts(a: Elem, b: Elem) -> bool
    ensures exact { result ≡ converts_to a b }
    ensures ranges { IsTrue result → (low_of b ≤ℤ low_of a) × (high_of a ≤ℤ high_of b) }
    ensures values { IsTrue result → (z : ℤ) → IsInRange a z → IsInRange b z }
{
    CONVERSIONS[a as usize][b as usize]
}
