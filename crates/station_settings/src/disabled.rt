// The rules that are disabled.
ghost use Rattle.std.specs.Prelude.{◌≡◌, IfOk, option_map};
ghost use Rattle.toml.specs.View.{view, array_view};
ghost use Rattle.project_keeper.specs.Names as names;
ghost use Rattle.station_settings.specs.Schema as schema;

use station_ports::outside::NoMemory;
use std::alloc::Global;
use toml::Value;
use toml::value::Array;
use tree_items::Items;

/// The numbers of the rules whose codes stand there; None where it is something else.
pub(crate) fn rules(alloc: Global, value: Option<&Value>) -> Result<Option<Items<u8>>, NoMemory>
    ensures { IfOk result (λ rules. rules ≡
        schema.rules (option_map (λ value. view value.now) value.entry)) }
{
    match value {
        None => Ok(Some(Items::from_slice(alloc, &[7])?)),
        Some(Value::Array(codes)) => rule_numbers(alloc, codes),
        Some(_) => Ok(None),
    }
}

fn rule_numbers(alloc: Global, codes: &Array) -> Result<Option<Items<u8>>, NoMemory>
    ensures { IfOk result (λ rules. rules ≡ schema.each schema.rule (array_view codes.now)) }
{
    let mut numbers = Vec::new(alloc);
    for code in codes {
        match rule(code) {
            Some(number) => numbers.push(number)?,
            None => return Ok(None),
        }
    }
    Ok(Some(Items::from_vec(numbers)))
}

fn rule(code: &Value) -> Option<u8>
    ensures { result ≡ schema.rule (view code.now) }
{
    match code {
        Value::String(code) => rule_number(code.as_bytes()),
        _ => None,
    }
}

/// The number of the rule with that code, S01 to S24.
fn rule_number(code: &[u8]) -> Option<u8>
    ensures { result ≡ schema.rule_number code.now }
{
    match code {
        [letter, tens, ones] if *letter == b'S' => number_of(*tens, *ones),
        _ => None,
    }
}

fn number_of(tens: u8, ones: u8) -> Option<u8>
    ensures { result ≡ schema.number_of tens ones }
{
    if !tens.is_ascii_digit() || !ones.is_ascii_digit() {
        return None;
    }
    let number = 10 * (tens - b'0') + (ones - b'0');
    if number >= 1 && number <= 24 {
        Some(number)
    } else {
        None
    }
}
