// Tables of words in byte order, and the table of reserved words.
ghost use Rattle.std.specs.Prelude.{◌≡◌, IsTrue, MatchOption, length, map};
ghost use Rattle.std.specs.Ordering.{nat_cmp};
ghost use Rattle.std.specs.Cmp.Lexicographic.{slice_cmp};
ghost use Rattle.iec_tables.specs.Letters.{raised};
ghost use Rattle.iec_tables.specs.Words.{texts_rise, HasRow, HasNoRow, raised_all, keyword_texts, first_numbers};

use crate::letters::raise;
use std::cmp::Ordering;
use std::marker::Model;

/// A word in capital letters and its number.
#[derive(Clone, Copy, Debug, PartialEq, Eq)]
pub struct Word {
    pub text: &'static [u8],
    pub number: u16,
}

/// A table of `N` words whose texts rise strictly in byte order. To contracts it is the list of its rows.
#[derive(Drop)]
pub struct Sorted<'a, const N: usize> {
    rows: &'a [Word],
}

impl<'a, const N: usize> Model for Sorted<'a, N> {
    ghost use Rattle.std.specs.Prelude.{◌≡◌, List, IsTrue, length};
    ghost use Rattle.iec_tables.specs.declared.words.Word.{Word};
    ghost use Rattle.iec_tables.specs.Words.{texts_rise};

    ghost Value = { List Word };

    ghost view = { λ s. s.rows.now };

    ghost invariant = { λ s. (length s.rows.now ≡ N) × IsTrue (texts_rise s.rows.now) };
}

impl<'a, const N: usize> Sorted<'a, N> {
    /// The table of these `N` rows, whose texts rise strictly.
    pub fn of(rows: &'a [Word]) -> Sorted<'a, N>
        requires length { length rows.now ≡ N }
        requires rising { IsTrue (texts_rise rows.now) }
        ensures { result ≡ rows.now }
    {
        Sorted { rows }
    }

    /// The number of the row whose text is the key with small letters raised, or None where no row has it.
    pub fn find(&self, key: &[u8]) -> Option<u16>
        ensures { MatchOption result (HasNoRow self.now (raised_all key.now)) (HasRow self.now (raised_all key.now)) }
    {
        find_row(self.rows, key)
    }
}

fn find_row(rows: &[Word], key: &[u8]) -> Option<u16>
    requires { IsTrue (texts_rise rows.now) }
    ensures { MatchOption result (HasNoRow rows.now (raised_all key.now)) (HasRow rows.now (raised_all key.now)) }
{
    match rows.binary_search_by(|row| compare_raised(row.text, key)) {
        Ok(place) => Some(rows[place].number),
        Err(_) => None,
    }
}

// The text against the key with small letters raised, in byte order.
fn compare_raised(text: &[u8], key: &[u8]) -> Ordering
    ensures { result ≡ slice_cmp nat_cmp text.now (raised_all key.now) }
{
    match text {
        [] => {
            if key.is_empty() {
                Ordering::Equal
            } else {
                Ordering::Less
            }
        }
        [first, rest @ ..] => match key {
            [] => Ordering::Greater,
            [byte, key_rest @ ..] => match first.cmp(&raise(*byte)) {
                Ordering::Equal => compare_raised(rest, key_rest),
                unequal => unequal,
            },
        },
    }
}

macro_rules! words {
    ($($text:literal $number:literal),*) => {
        [$(Word { text: $text, number: $number }),*]
    };
}

static KEYWORDS: [Word; 80] = words![
    b"ACTION" 0, b"AND" 1, b"ARRAY" 2, b"AT" 3, b"BOOL" 4, b"BY" 5, b"BYTE" 6, b"CASE" 7,
    b"CONFIGURATION" 8, b"CONSTANT" 9, b"CONTINUE" 10, b"DINT" 11, b"DO" 12, b"DWORD" 13,
    b"ELSE" 14, b"ELSIF" 15, b"END_ACTION" 16, b"END_CASE" 17, b"END_CONFIGURATION" 18,
    b"END_FOR" 19, b"END_FUNCTION" 20, b"END_FUNCTION_BLOCK" 21, b"END_IF" 22, b"END_PROGRAM" 23,
    b"END_REPEAT" 24, b"END_RESOURCE" 25, b"END_STEP" 26, b"END_STRUCT" 27, b"END_TRANSITION" 28,
    b"END_TYPE" 29, b"END_VAR" 30, b"END_WHILE" 31, b"EXIT" 32, b"FALSE" 33, b"FOR" 34, b"FROM" 35,
    b"FUNCTION" 36, b"FUNCTION_BLOCK" 37, b"IF" 38, b"INITIAL_STEP" 39, b"INT" 40, b"LINT" 41,
    b"LWORD" 42, b"MOD" 43, b"NON_RETAIN" 44, b"NOT" 45, b"OF" 46, b"ON" 47, b"OR" 48,
    b"PROGRAM" 49, b"REPEAT" 50, b"RESOURCE" 51, b"RETAIN" 52, b"RETURN" 53, b"SINT" 54, b"STEP" 55,
    b"STRUCT" 56, b"TASK" 57, b"THEN" 58, b"TIME" 59, b"TO" 60, b"TRANSITION" 61, b"TRUE" 62,
    b"TYPE" 63, b"UDINT" 64, b"UINT" 65, b"ULINT" 66, b"UNTIL" 67, b"USINT" 68, b"VAR" 69,
    b"VAR_EXTERNAL" 70, b"VAR_GLOBAL" 71, b"VAR_INPUT" 72, b"VAR_IN_OUT" 73, b"VAR_OUTPUT" 74,
    b"VAR_TEMP" 75, b"WHILE" 76, b"WITH" 77, b"WORD" 78, b"XOR" 79
];

/// The reserved words of the language and the names of the elementary types, each numbered by its place in byte order,
/// 0 to 79.
pub fn keywords() -> Sorted<'static, 80>
    ensures texts { map (λ word. word.text.now) result ≡ keyword_texts }
    ensures numbers { map (λ word. word.number) result ≡ first_numbers 80 }
{
    Sorted::of(&KEYWORDS)
}
