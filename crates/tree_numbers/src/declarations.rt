// The nodes of declarations.

ghost use Rattle.std.specs.Prelude.{◌≡◌, map, OnOk};
ghost use Rattle.tree_numbers.specs.steps.Turns.{each};
ghost use Rattle.tree_numbers.specs.steps.Counted.{counted_spec, counted_init, counted_item, counted_field};

use crate::expressions::number_in_expr;
use crate::numbered::{Numbered, number_each, number_option, number_three, number_two};
use crate::numbers::Counting;
use st_tree::{Decl, FieldInit, Init, Item, Range, Section, Spec, TypeName};
use station_ports::outside::NoMemory;

impl Numbered for TypeName {
    ghost use Rattle.tree_numbers.specs.steps.Counted.{counted_type_name};

    ghost counted = { counted_type_name };

    fn number(&mut self, counting: &mut Counting<'_>) -> Result<(), NoMemory> {
        match self {
            TypeName::Elementary(node, _) => counting.number(node),
            TypeName::Named(name) => name.number(counting),
        }
    }
}

impl Numbered for Range {
    ghost use Rattle.tree_numbers.specs.steps.Counted.{counted_range};

    ghost counted = { counted_range };

    fn number(&mut self, counting: &mut Counting<'_>) -> Result<(), NoMemory> {
        number_three(&mut self.node, &mut self.lower, &mut self.upper, counting)
    }
}

#[cycle(spec)]
#[tactic(auto, unfolding(crate::specs::steps::Counted::counted_spec))]
pub(crate) fn number_in_spec(tree: &mut Spec, counting: &mut Counting<'_>) -> Result<(), NoMemory>
    ensures tree { OnOk result (tree.new ≡ (counted_spec tree.old counting.old).0) }
    ensures rest { OnOk result (counting.new ≡ (counted_spec tree.old counting.old).1) }
{
    match tree {
        Spec::Type(node, name, limits) => {
            number_two(node, name, counting)?;
            number_option(limits, counting)
        }
        Spec::Enumeration(node, values) => {
            counting.number(node)?;
            number_each(values, counting)
        }
        Spec::Array(node, ranges, element) => {
            counting.number(node)?;
            number_each(ranges, counting)?;
            number_in_spec(element.get_mut(), counting)
        }
    }
}

#[cycle(init)]
#[tactic(auto, unfolding(crate::specs::steps::Counted::counted_init, crate::specs::steps::Counted::counted_item, crate::specs::steps::Counted::counted_field,))]
pub(crate) fn number_in_init(tree: &mut Init, counting: &mut Counting<'_>) -> Result<(), NoMemory>
    ensures tree { OnOk result (tree.new ≡ (counted_init tree.old counting.old).0) }
    ensures rest { OnOk result (counting.new ≡ (counted_init tree.old counting.old).1) }
{
    match tree {
        Init::Value(value) => value.number(counting),
        Init::Array(node, elements) => {
            counting.number(node)?;
            number_in_items(elements.as_mut_slice(), counting)
        }
        Init::Structure(node, fields) => {
            counting.number(node)?;
            number_in_fields(fields.as_mut_slice(), counting)
        }
    }
}

#[cycle(init)]
#[tactic(auto, unfolding(crate::specs::steps::Counted::counted_init, crate::specs::steps::Counted::counted_item, crate::specs::steps::Counted::counted_field,))]
fn number_in_item(tree: &mut Item, counting: &mut Counting<'_>) -> Result<(), NoMemory>
    ensures tree { OnOk result (tree.new ≡ (counted_item tree.old counting.old).0) }
    ensures rest { OnOk result (counting.new ≡ (counted_item tree.old counting.old).1) }
{
    match tree {
        Item::One(value) => number_in_init(value, counting),
        Item::Repeated(node, _, value) => {
            counting.number(node)?;
            number_in_init(value, counting)
        }
    }
}

#[cycle(init)]
#[tactic(auto, unfolding(crate::specs::steps::Counted::counted_init, crate::specs::steps::Counted::counted_item, crate::specs::steps::Counted::counted_field,))]
fn number_in_field(tree: &mut FieldInit, counting: &mut Counting<'_>) -> Result<(), NoMemory>
    ensures tree { OnOk result (tree.new ≡ (counted_field tree.old counting.old).0) }
    ensures rest { OnOk result (counting.new ≡ (counted_field tree.old counting.old).1) }
{
    counting.number(&mut tree.node)?;
    tree.name.number(counting)?;
    number_in_init(&mut tree.value, counting)
}

#[cycle(init)]
fn number_in_items(trees: &mut [Item], counting: &mut Counting<'_>) -> Result<(), NoMemory>
    ensures tree { OnOk result (trees.new ≡ (each (map counted_item trees.old) counting.old).0) }
    ensures rest { OnOk result (counting.new ≡ (each (map counted_item trees.old) counting.old).1) }
{
    for i in 0..trees.len() {
        number_in_item(&mut trees[i], counting)?;
    }
    Ok(())
}

#[cycle(init)]
fn number_in_fields(trees: &mut [FieldInit], counting: &mut Counting<'_>) -> Result<(), NoMemory>
    ensures tree { OnOk result (trees.new ≡ (each (map counted_field trees.old) counting.old).0) }
    ensures rest { OnOk result (counting.new ≡ (each (map counted_field trees.old) counting.old).1) }
{
    for i in 0..trees.len() {
        number_in_field(&mut trees[i], counting)?;
    }
    Ok(())
}

impl Numbered for Init {
    ghost use Rattle.tree_numbers.specs.steps.Counted.{counted_init};

    ghost counted = { counted_init };

    fn number(&mut self, counting: &mut Counting<'_>) -> Result<(), NoMemory> {
        number_in_init(self, counting)
    }
}

impl Numbered for Decl {
    ghost use Rattle.tree_numbers.specs.steps.Counted.{counted_decl};

    ghost counted = { counted_decl };

    fn number(&mut self, counting: &mut Counting<'_>) -> Result<(), NoMemory> {
        counting.number(&mut self.node)?;
        number_each(&mut self.names, counting)?;
        number_option(&mut self.address, counting)?;
        number_in_spec(&mut self.spec, counting)?;
        number_option(&mut self.init, counting)
    }
}

impl Numbered for Section {
    ghost use Rattle.tree_numbers.specs.steps.Counted.{counted_section};

    ghost counted = { counted_section };

    fn number(&mut self, counting: &mut Counting<'_>) -> Result<(), NoMemory> {
        counting.number(&mut self.node)?;
        number_each(&mut self.decls, counting)
    }
}
