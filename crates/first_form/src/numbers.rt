// Numbers of the form: decimal digits alone, of a value up to 32767.

ghost use Rattle.std.specs.Prelude.{◌≡◌, Some, None, if◌then◌else◌};
ghost use Rattle.first_form.specs.FirstForm as form;

/// The greatest number of the form.
const MAX_NUMBER: u32 = 32767;

fn is_decimal(byte: u8) -> bool
    ensures { result ≡ form.is_decimal byte }
{
    matches!(byte, b'0'..=b'9')
}

/// The value of decimal digits, if it isn't above the greatest.
pub(crate) fn short_number(digits: &[u8]) -> Option<u32>
    ensures { result ≡ (if form.is_short digits.now then Some (form.number_of digits.now) else None) }
{
    let mut value = 0u32;
    let mut rest = digits;
    'digit: while let Some((byte, others)) = rest.split_first() {
        if !is_decimal(*byte) {
            return None;
        }
        value = value * 10 + (*byte - b'0') as u32;
        if value > MAX_NUMBER {
            return None;
        }
        rest = others;
    }
    Some(value)
}
