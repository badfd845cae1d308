// Whether a file is of the first form, and its tree.

ghost use Rattle.std.specs.Prelude.{◌≡◌, IfOk, MatchOption};
ghost use Rattle.std.specs.Option.{option_copied};
ghost use Rattle.first_form.specs.declared.tree.SourceTree.{SourceTree as FormTree};
ghost use Rattle.first_form.specs.FirstForm.{IsFirstForm};
ghost use Rattle.first_form.specs.FirstForm as form;
ghost use Rattle.first_form.specs.steps.Answers.{Recognises};

use crate::former::Former;
use crate::refusal::Refusal;
use crate::tree::SourceTree;
use station_ports::outside::NoMemory;
use std::alloc::Global;
use tree_items::Items;

/// The tree of a file of the first form, its nodes numbered anew from 0; none where the file is of
/// another form. NoMemory where there is no
/// memory, or no room for the numbers of 2^32 nodes.
pub fn first_form(alloc: Global, file: &st_tree::SourceTree) -> Result<Option<SourceTree>, NoMemory>
    ensures { IfOk result
        (λ found. MatchOption found ((tree : FormTree) → IsFirstForm file.now tree → ⊥)
        (IsFirstForm file.now)) }
{
    match tree_of(alloc, file) {
        Ok(tree) => Ok(Some(tree)),
        Err(Refusal::OtherForm) => Ok(None),
        Err(Refusal::NoMemory) => Err(NoMemory),
    }
}

fn tree_of(alloc: Global, file: &st_tree::SourceTree) -> Result<SourceTree, Refusal>
    ensures { Recognises file.now result }
{
    let Some(source) = only_unit(file) else {
        return Err(Refusal::OtherForm);
    };
    let mut former = Former { alloc, next: 0 };
    let unit = former.unit(source)?;
    let mut units = Items::new(alloc);
    units.push(unit)?;
    Ok(SourceTree {
        units,
        feeds: Items::from_slice(alloc, file.feeds.as_slice())?,
    })
}

/// The one unit of a file without further parts.
#[tactic(auto, unfolding(crate::specs::FirstForm::only_unit))]
fn only_unit(file: &st_tree::SourceTree) -> Option<&st_tree::Unit>
    ensures { option_copied result ≡ form.only_unit file.now }
{
    if !file.types.is_empty() || !file.globals.is_empty() || !file.config.is_empty() {
        return None;
    }
    match file.units.as_slice() {
        [only] => Some(only),
        _ => None,
    }
}
