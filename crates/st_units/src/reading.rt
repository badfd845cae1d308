// The parts of a file, or the place where its tokens stop being one.

ghost use Rattle.std.specs.Prelude.{◌≡◌, ◌+◌, List, length};
ghost use Rattle.std.specs.List.{filter};
ghost use Rattle.token_grammar.specs.declared.token.Token.{Token as Lexed};
ghost use Rattle.token_grammar.specs.Kept.{is_kept};
ghost use Rattle.st_units.specs.steps.Found.{PartsFound};
ghost use Rattle.st_units.specs.FileLaws as laws;

use crate::fault::{ParseFault, fault_at};
use crate::units::file;
use st_tree::FilePart;
use station_ports::steps::Steps;
use std::alloc::Global;
use std::sync::ledger::Ledger;
use token_grammar::{Cursor, Token, Tokens};
use tree_items::Items;

/// The parts of a file that all the tokens spell, in the order of the text. Their nodes all have
/// the number 0.
pub(crate) fn parts_of(alloc: Global, tokens: Tokens<'_>) -> Result<Items<FilePart>, ParseFault>
    ensures { (all : List Lexed) → tokens.entry.list.items ≡ filter is_kept all →
        PartsFound tokens.entry.text.now all result }
{
    let mut cursor = Cursor {
        text: tokens.text,
        rest: tokens.list.as_slice(),
        last: 0,
        depth: 0,
    };
    match file(alloc, &mut cursor) {
        Ok(parts) => Ok(parts),
        Err(error) => Err(fault_at(error, tokens.text, &cursor)),
    }
}

/// One parse step a token.
pub(crate) fn count_steps<L: Ledger>(tokens: &[Token], steps: &mut Steps<L>)
    ensures parsed { steps.new.parsed ≡ steps.old.parsed + length tokens.now }
    ensures solved { steps.new.solved ≡ steps.old.solved }
{
    for _token in tokens {
        steps.parse_step();
    }
}

/// What holds of files: the tokens of a text spell exactly one, or have exactly one fault, which
/// stands within the text.
pub fn file_laws()
    ensures some_file { laws.SomeFile }
    ensures one_file { laws.OneFile }
    ensures one_fault { laws.OneFileFault }
    ensures not_both { laws.NoneOfBoth }
    ensures fault_in { laws.FaultIn }
{}
