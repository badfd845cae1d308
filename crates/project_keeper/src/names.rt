// Which names and waivers are lawful, and how waivers are stored.
ghost use Rattle.std.specs.Prelude.{◌≡◌, IfOk};
ghost use Rattle.std.specs.List.{list_all};
ghost use Rattle.iec_tables.specs.Words.{raised_all};
ghost use Rattle.station_ports.specs.Lists.{key_of};
ghost use Rattle.project_keeper.specs.Names as rule;

use iec_tables::letters::raise;
use station_ports::lists::{Waiver, WaiverKey};
use station_ports::outside::NoMemory;
use station_ports::texts::Name;
use std::alloc::Global;

/// Whether it may be the name of a caller, a project or a file: 1 to 64 bytes of `A-Z a-z 0-9 _ . -` that begin with a
/// letter or a digit. Takes no memory.
pub fn is_name(bytes: &[u8]) -> bool
    ensures { result ≡ rule.is_name bytes.now }
{
    match bytes {
        [] => false,
        [first, ..] => { is_letter_or_digit(*first) && bytes.len() <= 64 && all_name_bytes(bytes) }
    }
}

fn is_letter_or_digit(byte: u8) -> bool
    ensures { result ≡ rule.is_letter_or_digit byte }
{
    byte.is_ascii_uppercase() || byte.is_ascii_lowercase() || byte.is_ascii_digit()
}

fn is_name_byte(byte: u8) -> bool
    ensures { result ≡ rule.is_name_byte byte }
{
    is_letter_or_digit(byte) || byte == b'_' || byte == b'.' || byte == b'-'
}

fn all_name_bytes(bytes: &[u8]) -> bool
    ensures { result ≡ list_all rule.is_name_byte bytes.now }
{
    bytes.iter().all(|byte| is_name_byte(*byte))
}

/// Whether it is the code of a kind of alarm, A1 to A4, or of a rule, S01 to S24.
fn is_code(bytes: &[u8]) -> bool
    ensures { result ≡ rule.is_code bytes.now }
{
    match bytes {
        [letter, digit] => *letter == b'A' && *digit >= b'1' && *digit <= b'4',
        [letter, tens, ones] => *letter == b'S' && is_rule_number(*tens, *ones),
        _ => false,
    }
}

fn is_digit(byte: u8) -> bool
    ensures { result ≡ rule.is_digit byte }
{
    byte >= b'0' && byte <= b'9'
}

fn is_rule_number(tens: u8, ones: u8) -> bool
    ensures { result ≡ rule.is_rule_number tens ones }
{
    if !is_digit(tens) || !is_digit(ones) {
        return false;
    }
    let number = 10 * (tens - b'0') + (ones - b'0');
    number >= 1 && number <= 24
}

/// Whether it may be a unit or a subject.
fn is_subject(bytes: &[u8]) -> bool
    ensures { result ≡ rule.is_subject bytes.now }
{
    is_short(bytes) && all_visible(bytes)
}

/// Whether there are 1 to 200 bytes.
fn is_short(bytes: &[u8]) -> bool
    ensures { result ≡ rule.is_short bytes.now }
{
    bytes.len() >= 1 && bytes.len() <= 200
}

fn all_visible(bytes: &[u8]) -> bool
    ensures { result ≡ list_all (rule.is_within 33 126) bytes.now }
{
    bytes.iter().all(|byte| *byte >= 33 && *byte <= 126)
}

fn all_printed(bytes: &[u8]) -> bool
    ensures { result ≡ list_all rule.is_printed bytes.now }
{
    bytes.iter().all(|byte| *byte >= 32)
}

/// Whether the bytes are UTF-8. Takes no memory.
pub fn is_utf8(bytes: &[u8]) -> bool
    ensures { result ≡ rule.is_utf8 bytes.now }
{
    match str::from_utf8(bytes) {
        Ok(_) => true,
        Err(_) => false,
    }
}

fn is_reason(bytes: &[u8]) -> bool
    ensures { result ≡ rule.is_reason bytes.now }
{
    is_short(bytes) && all_printed(bytes) && is_utf8(bytes)
}

/// Whether a waiver may have this key. Takes no memory.
pub fn is_valid_key(key: &WaiverKey) -> bool
    ensures { result ≡ rule.is_valid_key key.now }
{
    is_code(key.code.bytes()) && is_subject(key.unit.bytes()) && is_subject(key.subject.bytes())
}

/// Whether the waiver is valid. Takes no memory.
pub fn is_valid_waiver(waiver: &Waiver) -> bool
    ensures { result ≡ rule.is_valid waiver.now }
{
    is_code(waiver.code.bytes())
        && is_subject(waiver.unit.bytes())
        && is_subject(waiver.subject.bytes())
        && is_reason(waiver.reason.bytes())
}

/// Whether it has no small letters.
fn is_raised(bytes: &[u8]) -> bool
    ensures { result ≡ rule.is_raised bytes.now }
{
    bytes.iter().all(|byte| raise(*byte) == *byte)
}

/// Whether a waiver may be stored under this key. Takes no memory.
pub(crate) fn is_lawful_key(key: &WaiverKey) -> bool
    ensures { result ≡ rule.is_lawful_key key.now }
{
    is_valid_key(key) && is_raised(key.unit.bytes()) && is_raised(key.subject.bytes())
}

/// Whether the waiver may be stored. Takes no memory.
pub(crate) fn is_lawful_waiver(waiver: &Waiver) -> bool
    ensures { result ≡ rule.is_lawful_waiver waiver.now }
{
    is_valid_waiver(waiver) && is_raised(waiver.unit.bytes()) && is_raised(waiver.subject.bytes())
}

/// The name with its small letters raised.
fn raised(alloc: Global, name: &Name) -> Result<Name, NoMemory>
    ensures { IfOk result (λ raised. raised ≡ raised_all name.now) }
{
    let mut bytes = Vec::with_capacity(alloc, name.bytes().len())?;
    for byte in name.bytes() {
        bytes.push(raise(*byte))?;
    }
    Ok(Name::from_vec(bytes))
}

/// The key as it is compared and stored: the letters of its unit and subject raised.
pub fn raised_key(alloc: Global, key: &WaiverKey) -> Result<WaiverKey, NoMemory>
    ensures { IfOk result (λ raised. raised ≡ rule.raised_key key.now) }
{
    let code = key.code.copy(alloc)?;
    let unit = raised(alloc, &key.unit)?;
    let subject = raised(alloc, &key.subject)?;
    Ok(WaiverKey {
        code,
        unit,
        subject,
    })
}

/// The waiver as it is stored: the letters of its unit and subject raised.
pub fn raised_waiver(alloc: Global, waiver: &Waiver) -> Result<Waiver, NoMemory>
    ensures { IfOk result (λ raised. raised ≡ rule.raised_waiver waiver.now) }
{
    let code = waiver.code.copy(alloc)?;
    let unit = raised(alloc, &waiver.unit)?;
    let subject = raised(alloc, &waiver.subject)?;
    let reason = waiver.reason.copy(alloc)?;
    Ok(Waiver {
        code,
        unit,
        subject,
        reason,
    })
}
