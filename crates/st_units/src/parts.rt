// A file put together from its parts.

ghost use Rattle.std.specs.Prelude.{◌≡◌, [], ◌∷◌, IfOk, OnOk, reverse};
ghost use Rattle.st_units.specs.Parts as spec;

use st_tree::{Comment, FilePart, SourceTree};
use station_ports::outside::NoMemory;
use std::alloc::Global;
use tree_items::Items;

/// The same parts, last first.
fn reversed(alloc: Global, parts: Items<FilePart>) -> Result<Items<FilePart>, NoMemory>
    ensures { IfOk result (λ t. t ≡ reverse parts) }
{
    let mut parts = parts;
    let mut made = Items::new(alloc);
    while let Some(part) = parts.pop() {
        made.push(part)?;
    }
    Ok(made)
}

/// Puts the part behind the file's parts of its kind.
fn put(tree: &mut SourceTree, part: FilePart) -> Result<(), NoMemory>
    ensures { OnOk result (tree.new ≡ spec.with_parts tree.old (part ∷ [])) }
{
    match part {
        FilePart::Unit(unit) => tree.units.push(unit)?,
        FilePart::Types(types) => tree.types.push(types)?,
        FilePart::Globals(globals) => tree.globals.push(globals)?,
        FilePart::Config(config) => tree.config.push(config)?,
    }
    Ok(())
}

/// Puts the parts, last first, behind the file's parts of their kinds.
#[tactic(auto, using(crate::proofs::Sorting::one_more, crate::proofs::Sorting::no_more))]
fn put_all(tree: &mut SourceTree, last_first: Items<FilePart>) -> Result<(), NoMemory>
    ensures { OnOk result (tree.new ≡ spec.with_parts tree.old (reverse last_first)) }
{
    let mut rest = last_first;
    while let Some(part) = rest.pop() {
        put(tree, part)?;
    }
    Ok(())
}

/// The file of these parts, in the order of the text, with its comments and the places of its line
/// feeds. NoMemory where there is none for it.
pub(crate) fn source_tree(
    alloc: Global,
    parts: Items<FilePart>,
    comments: Items<Comment>,
    feeds: Items<usize>,
) -> Result<SourceTree, NoMemory>
    ensures { IfOk result (λ t. t ≡ spec.file_of parts comments feeds) }
{
    let last_first = reversed(alloc, parts)?;
    let mut tree = SourceTree {
        units: Items::new(alloc),
        types: Items::new(alloc),
        globals: Items::new(alloc),
        config: Items::new(alloc),
        comments,
        feeds,
    };
    put_all(&mut tree, last_first)?;
    Ok(tree)
}
