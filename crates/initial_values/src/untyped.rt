// Initial values of what has no type.

ghost use Rattle.std.specs.Prelude.{◌≡◌, map};
ghost use Rattle.link_faults.specs.First.{after};
ghost use Rattle.project_declarations.specs.Declarations.{joined};
ghost use Rattle.initial_values.specs.Initials as written_by;

use declared_types::{ConstantPlace, Outside};
use link_faults::Faults;
use st_tree::{FieldInit, Init, Item};

/// Notes what the expressions of an initial value break, whatever their place asks: where nothing is
/// known of what it stands for.
#[cycle(init)]
#[tactic(auto, unfolding(crate::specs::Initials::alone, crate::specs::Initials::alone_item, crate::specs::Initials::alone_field))]
pub fn alone<O: Outside>(outside: &O, faults: &mut Faults, init: &Init)
    ensures { faults.new ≡ after faults.old (written_by.alone (O.around outside.now) init.now) }
{
    match init {
        Init::Value(e) => {
            let _ = outside.constant(faults, ConstantPlace::Any, e.get());
        },
        Init::Array(_, items) => alone_items(outside, faults, items.as_slice()),
        Init::Structure(_, fields) => alone_fields(outside, faults, fields.as_slice()),
    }
}

#[cycle(init)]
#[tactic(auto, unfolding(crate::specs::Initials::alone, crate::specs::Initials::alone_item, crate::specs::Initials::alone_field))]
fn alone_item<O: Outside>(outside: &O, faults: &mut Faults, item: &Item)
    ensures { faults.new ≡ after faults.old (written_by.alone_item (O.around outside.now) item.now) }
{
    match item {
        Item::One(init) => alone(outside, faults, init),
        Item::Repeated(_, _, init) => alone(outside, faults, init),
    }
}

#[cycle(init)]
fn alone_items<O: Outside>(outside: &O, faults: &mut Faults, items: &[Item])
    ensures { faults.new ≡ after faults.old
        (joined (map (written_by.alone_item (O.around outside.now)) items.now)) }
{
    for item in items {
        alone_item(outside, faults, item);
    }
}

#[cycle(init)]
#[tactic(auto, unfolding(crate::specs::Initials::alone, crate::specs::Initials::alone_item, crate::specs::Initials::alone_field))]
fn alone_field<O: Outside>(outside: &O, faults: &mut Faults, field: &FieldInit)
    ensures { faults.new ≡ after faults.old (written_by.alone_field (O.around outside.now) field.now) }
{
    alone(outside, faults, &field.value)
}

#[cycle(init)]
fn alone_fields<O: Outside>(outside: &O, faults: &mut Faults, fields: &[FieldInit])
    ensures { faults.new ≡ after faults.old
        (joined (map (written_by.alone_field (O.around outside.now)) fields.now)) }
{
    for field in fields {
        alone_field(outside, faults, field);
    }
}
