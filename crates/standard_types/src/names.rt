// The names of the standard's functions and blocks, and of what this profile leaves out.

ghost use Rattle.std.specs.Prelude.{◌≡◌};
ghost use Rattle.standard_types.specs.Names as spec;

use standard_names::{StandardBlock, StandardFunction};

/// The function block of this name, or None where the standard has none, or the profile leaves it
/// out.
pub fn block_named(name: &[u8]) -> Option<StandardBlock>
    ensures { result ≡ spec.block_named name.now }
{
    standard_names::standard_block(name)
}

/// The function of this name, or None where the profile has none. A conversion's name is that of a
/// type, `_TO_` and that of another type.
pub fn function_named(name: &[u8]) -> Option<StandardFunction>
    ensures { result ≡ spec.function_named name.now }
{
    standard_names::standard_function(name)
}

/// Whether a function of the profile has this name.
pub fn is_function_name(name: &[u8]) -> bool
    ensures { result ≡ spec.is_function_name name.now }
{
    function_named(name).is_some()
}

/// Whether a function or a function block of the profile has this name, which no unit and no type
/// of a project may have.
pub fn is_standard_name(name: &[u8]) -> bool
    ensures { result ≡ spec.is_standard_name name.now }
{
    standard_names::is_standard(name)
}

/// Whether the standard has a function of this name that the profile leaves out: one of the list,
/// or a conversion between two types of the standard at least one of which is left out.
pub fn is_left_out_function(name: &[u8]) -> bool
    ensures { result ≡ spec.is_left_out_function name.now }
{
    standard_names::is_left_out_function(name)
}

/// Whether the standard has a type, a block or a function of this name that the profile leaves out.
/// All three count where a type is named.
pub fn is_left_out_type(name: &[u8]) -> bool
    ensures { result ≡ spec.is_left_out_type name.now }
{
    standard_names::is_left_out_type(name)
}
