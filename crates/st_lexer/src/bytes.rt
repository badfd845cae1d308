// Bytes, and how many of a kind stand at the front of a text.

ghost use Rattle.std.specs.Prelude.{◌≡◌, ◌≤◌, length, not, nat_eq};
ghost use Rattle.std.specs.List.{prefix_len};
ghost use Rattle.st_lexer.specs.Bytes as spec;
ghost use Rattle.st_lexer.specs.Front as fronts;

use iec_tables::letters::raise;

/// What a byte can begin.
#[derive(Clone, Copy, Debug, PartialEq, Eq)]
pub(crate) enum Lead {
    /// A letter or an underscore: a word, a typed number or a time.
    Letter,
    Digit,
    Percent,
    Brace,
    Parenthesis,
    Slash,
    Other,
}

pub(crate) fn lead_of(byte: u8) -> Lead
    ensures { result ≡ fronts.lead_of byte }
{
    match byte {
        b'a'..=b'z' | b'A'..=b'Z' | b'_' => Lead::Letter,
        b'0'..=b'9' => Lead::Digit,
        b'%' => Lead::Percent,
        b'{' => Lead::Brace,
        b'(' => Lead::Parenthesis,
        b'/' => Lead::Slash,
        _ => Lead::Other,
    }
}

pub(crate) fn is_white(byte: u8) -> bool
    ensures { result ≡ spec.is_white byte }
{
    matches!(byte, b' ' | b'\t' | b'\r' | b'\n')
}

fn is_alphabetic(byte: u8) -> bool
    ensures { result ≡ spec.is_alphabetic byte }
{
    matches!(byte, b'a'..=b'z' | b'A'..=b'Z')
}

pub(crate) fn is_digit(byte: u8) -> bool
    ensures { result ≡ spec.is_digit byte }
{
    matches!(byte, b'0'..=b'9')
}

fn is_word_byte(byte: u8) -> bool
    ensures { result ≡ spec.in_word byte }
{
    matches!(byte, b'a'..=b'z' | b'A'..=b'Z' | b'_' | b'0'..=b'9')
}

/// What a byte is worth as a digit; 36 if it is none in any base.
pub(crate) fn worth(byte: u8) -> u8
    ensures { result ≡ spec.worth byte }
{
    if is_digit(byte) {
        byte - b'0'
    } else if is_alphabetic(byte) {
        raise(byte) - 55
    } else {
        36
    }
}

/// Whether this byte stands at the front.
pub(crate) fn begins_with(first: u8, bytes: &[u8]) -> bool
    ensures { result ≡ spec.begins (nat_eq first) bytes.now }
{
    match bytes.split_first() {
        None => false,
        Some((byte, _)) => first == *byte,
    }
}

pub(crate) fn begins_digit(bytes: &[u8]) -> bool
    ensures { result ≡ spec.begins spec.is_digit bytes.now }
{
    match bytes.split_first() {
        None => false,
        Some((byte, _)) => is_digit(*byte),
    }
}

pub(crate) fn begins_word_byte(bytes: &[u8]) -> bool
    ensures { result ≡ spec.begins spec.in_word bytes.now }
{
    match bytes.split_first() {
        None => false,
        Some((byte, _)) => is_word_byte(*byte),
    }
}

/// How many bytes of a word stand at the front.
pub(crate) fn word_length(bytes: &[u8]) -> usize
    ensures value { result ≡ fronts.word_length bytes.now }
    ensures within { result ≤ length bytes.now }
{
    let mut count = 0;
    let mut rest = bytes;
    'run: while let Some((byte, others)) = rest.split_first() {
        if !is_word_byte(*byte) {
            return count;
        }
        count += 1;
        rest = others;
    }
    count
}

/// How many digits stand at the front.
pub(crate) fn digits_length(bytes: &[u8]) -> usize
    ensures value { result ≡ fronts.whole_length bytes.now }
    ensures within { result ≤ length bytes.now }
{
    let mut count = 0;
    let mut rest = bytes;
    'run: while let Some((byte, others)) = rest.split_first() {
        if !is_digit(*byte) {
            return count;
        }
        count += 1;
        rest = others;
    }
    count
}

/// How many letters stand at the front.
pub(crate) fn letters_length(bytes: &[u8]) -> usize
    ensures value { result ≡ fronts.letters_length bytes.now }
    ensures within { result ≤ length bytes.now }
{
    let mut count = 0;
    let mut rest = bytes;
    'run: while let Some((byte, others)) = rest.split_first() {
        if !is_alphabetic(*byte) {
            return count;
        }
        count += 1;
        rest = others;
    }
    count
}

/// How many bytes stand before the end of the line.
pub(crate) fn line_length(bytes: &[u8]) -> usize
    ensures value { result ≡ fronts.line_length bytes.now }
    ensures within { result ≤ length bytes.now }
{
    let mut count = 0;
    let mut rest = bytes;
    'run: while let Some((byte, others)) = rest.split_first() {
        if *byte == b'\n' {
            return count;
        }
        count += 1;
        rest = others;
    }
    count
}
