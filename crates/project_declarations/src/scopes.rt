// The numbers of scopes. Units, types and the names of the standard share one, global variables
// another, and so on; each unit has three of its own.

ghost use Rattle.std.specs.Prelude.{◌≡◌, IfOk};
ghost use Rattle.project_declarations.specs.Scopes as scopes;

use station_ports::outside::NoMemory;

/// Units, types and the names of the standard.
pub const OUTERMOST: u32 = 0;
/// Global variables.
pub const GLOBAL: u32 = 1;
/// Values of enumerations.
pub const VALUES: u32 = 2;
/// Addresses at which variables are declared.
pub const ADDRESSES: u32 = 3;
/// Tasks.
pub const TASKS: u32 = 4;
/// Program lines.
pub const LINES: u32 = 5;

/// The scope of a unit's variables. NoMemory where scopes have no room for that many units.
pub fn locals(unit: u32) -> Result<u32, NoMemory>
    ensures { IfOk result (λ scope. scope ≡ scopes.locals unit) }
{
    scope_of(unit, 6)
}

/// The scope of the steps of a unit's body.
pub fn steps(unit: u32) -> Result<u32, NoMemory>
    ensures { IfOk result (λ scope. scope ≡ scopes.steps unit) }
{
    scope_of(unit, 7)
}

/// The scope of the actions of a unit's body.
pub fn actions(unit: u32) -> Result<u32, NoMemory>
    ensures { IfOk result (λ scope. scope ≡ scopes.actions unit) }
{
    scope_of(unit, 8)
}

fn scope_of(unit: u32, first: u32) -> Result<u32, NoMemory>
    ensures { IfOk result (λ scope. scope ≡ scopes.of_unit first unit) }
{
    match unit.checked_mul(3) {
        Some(from) => from.checked_add(first).ok_or(NoMemory),
        None => Err(NoMemory),
    }
}
