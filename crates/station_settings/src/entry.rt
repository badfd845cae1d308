// What stands in a table: numbers, texts, and keys that are no fields.
ghost use Rattle.std.specs.Prelude.{◌≡◌, ◌≤◌, IfOk, option_map, option_copied, option_and_then};
ghost use Rattle.std.specs.List.{list_all};
ghost use Rattle.toml.specs.Data.{as_str, get_member};
ghost use Rattle.toml.specs.View.{view, table_view};
ghost use Rattle.station_settings.specs.Schema as schema;

use crate::field::is_field;
use station_ports::outside::NoMemory;
use station_ports::texts::Name;
use std::alloc::Global;
use toml::{Table, Value};

/// The value at a key.
pub(crate) fn value_at<'a>(table: &'a Table, key: &str) -> Option<&'a Value>
    ensures { option_map (λ value. view value.now) result ≡ get_member key.now (table_view table.now) }
{
    table.get(key)
}

/// The whole number there, from `low` to `high`; `default` where there is nothing, and None where
/// it is something else.
pub(crate) fn number(value: Option<&Value>, low: u32, high: u32, default: u32) -> Option<u32>
    ensures { result ≡ schema.number low high default (option_map (λ value. view value.now) value.entry) }
{
    match value {
        None => Some(default),
        Some(Value::Integer(number)) => within(*number, low, high),
        Some(_) => None,
    }
}

/// The number, if it is one from `low` to `high`.
fn within(number: i64, low: u32, high: u32) -> Option<u32>
    ensures { result ≡ schema.within low high number }
{
    match u32::try_from(number) {
        Ok(number) if low <= number && number <= high => Some(number),
        _ => None,
    }
}

/// The prefix of global names there; None where it is something else.
pub(crate) fn prefix(alloc: Global, value: Option<&Value>) -> Result<Option<Name>, NoMemory>
    ensures { IfOk result (λ prefix. prefix ≡
        schema.prefix (option_map (λ value. view value.now) value.entry)) }
{
    match value {
        None => Ok(Some(Name::from_vec(Vec::new(alloc)))),
        Some(Value::String(text)) => prefix_of(alloc, text.as_bytes()),
        Some(_) => Ok(None),
    }
}

fn prefix_of(alloc: Global, bytes: &[u8]) -> Result<Option<Name>, NoMemory>
    ensures { IfOk result (λ prefix. prefix ≡ schema.prefix_of bytes.now) }
{
    if bytes.len() <= 16 && all_prefix_bytes(bytes) {
        Ok(Some(Name::of(alloc, bytes)?))
    } else {
        Ok(None)
    }
}

fn all_prefix_bytes(bytes: &[u8]) -> bool
    ensures { result ≡ list_all schema.is_prefix_byte bytes.now }
{
    bytes
        .iter()
        .all(|byte| byte.is_ascii_alphanumeric() || *byte == b'_')
}

/// The least key that is no field.
pub(crate) fn least_unknown(alloc: Global, table: &Table) -> Result<Option<Name>, NoMemory>
    ensures { IfOk result (λ key. key ≡ schema.least_unknown (table_view table.now)) }
{
    for (key, _value) in table.iter() {
        if !is_field(key.as_str()) {
            return Ok(Some(Name::of(alloc, key.as_bytes())?));
        }
    }
    Ok(None)
}
