// Appending to a text.

ghost use Rattle.std.specs.Prelude.{◌≡◌, ◌++◌, OnOk, decimal};
ghost use Rattle.std.specs.Fmt.{signed_decimal};
ghost use Rattle.report_text.specs.Text as lines;

use itoa::Buffer;
use std::alloc::AllocError;

pub(crate) fn put(out: &mut Vec<u8>, bytes: &[u8]) -> Result<(), AllocError>
    ensures { OnOk result (out.new.items ≡ out.old.items ++ bytes.now) }
{
    out.extend_from_slice(bytes)
}

pub(crate) fn put_count(out: &mut Vec<u8>, count: u64) -> Result<(), AllocError>
    ensures { OnOk result (out.new.items ≡ out.old.items ++ decimal count) }
{
    let mut buffer = Buffer::new();
    out.extend_from_slice(buffer.format(count).as_bytes())
}

fn put_number(out: &mut Vec<u8>, number: i128) -> Result<(), AllocError>
    ensures { OnOk result (out.new.items ≡ out.old.items ++ signed_decimal number) }
{
    let mut buffer = Buffer::new();
    out.extend_from_slice(buffer.format(number).as_bytes())
}

/// `low..high`
#[tactic(auto, unfolding(crate::specs::Text::bounds))]
pub(crate) fn put_bounds(out: &mut Vec<u8>, low: i128, high: i128) -> Result<(), AllocError>
    ensures { OnOk result (out.new.items ≡ out.old.items ++ lines.bounds low high) }
{
    put_number(out, low)?;
    put(out, b"..")?;
    put_number(out, high)
}

/// `file:line:column`
#[tactic(auto, unfolding(crate::specs::Text::place))]
pub(crate) fn put_place(
    out: &mut Vec<u8>,
    file: &[u8],
    line: u32,
    column: u32,
) -> Result<(), AllocError>
    ensures { OnOk result (out.new.items ≡ out.old.items ++ lines.place file.now line column) }
{
    put(out, file)?;
    put(out, b":")?;
    put_count(out, line as u64)?;
    put(out, b":")?;
    put_count(out, column as u64)
}
