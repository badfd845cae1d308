// The standard's function blocks, by their names, and what callers see of them.
ghost use Rattle.std.specs.Prelude.{◌≡◌, ◌↔◌, IsTrue, Some, MatchOption, map};
ghost use Rattle.std.specs.List.{Contains};
ghost use Rattle.iec_tables.specs.declared.elem.Elem.{Elem};
ghost use Rattle.iec_tables.specs.Words.{raised_all, first_numbers};
ghost use Rattle.standard_names.specs.declared.block.StandardBlock.{StandardBlock};
ghost use Rattle.standard_names.specs.declared.block.PartKind.{PartKind};
ghost use Rattle.standard_names.specs.Blocks.{block_name, parts_of, part_of, HasNoPart};

use crate::types::words;
use iec_tables::elem::Elem;
use iec_tables::letters::raise;
use iec_tables::words::{Sorted, Word};

/// The function blocks of the standard.
#[derive(Clone, Copy, Debug, PartialEq, Eq)]
pub enum StandardBlock {
    Sr,
    Rs,
    RTrig,
    FTrig,
    Ctu,
    Ctd,
    Ton,
    Tof,
    Tp,
}

/// Whether callers write a part of a block or read it.
#[derive(Clone, Copy, Debug, PartialEq, Eq)]
pub enum PartKind {
    Input,
    Output,
}

/// What callers see of a variable of a block.
#[derive(Clone, Copy, Debug, PartialEq, Eq)]
pub struct BlockPart {
    /// The name in capital letters.
    pub name: &'static [u8],
    pub elem: Elem,
    pub kind: PartKind,
}

// The blocks' names in byte order, each with its place in `BLOCKS`.
static BLOCK_NAMES: [Word; 9] = words![
    b"CTD" 0, b"CTU" 1, b"F_TRIG" 2, b"RS" 3, b"R_TRIG" 4, b"SR" 5, b"TOF" 6, b"TON" 7, b"TP" 8
];

static BLOCKS: [StandardBlock; 9] = [
    StandardBlock::Ctd,
    StandardBlock::Ctu,
    StandardBlock::FTrig,
    StandardBlock::Rs,
    StandardBlock::RTrig,
    StandardBlock::Sr,
    StandardBlock::Tof,
    StandardBlock::Ton,
    StandardBlock::Tp,
];

macro_rules! parts {
    ($($name:literal $elem:ident $kind:ident),*) => {
        [$(BlockPart { name: $name, elem: Elem::$elem, kind: PartKind::$kind }),*]
    };
}

static SR_PARTS: [BlockPart; 3] = parts![b"S1" Bool Input, b"R" Bool Input, b"Q1" Bool Output];

static RS_PARTS: [BlockPart; 3] = parts![b"S" Bool Input, b"R1" Bool Input, b"Q1" Bool Output];

static TRIG_PARTS: [BlockPart; 2] = parts![b"CLK" Bool Input, b"Q" Bool Output];

static CTU_PARTS: [BlockPart; 5] = parts![
    b"CU" Bool Input, b"R" Bool Input, b"PV" Int Input, b"Q" Bool Output, b"CV" Int Output
];

static CTD_PARTS: [BlockPart; 5] = parts![
    b"CD" Bool Input, b"LD" Bool Input, b"PV" Int Input, b"Q" Bool Output, b"CV" Int Output
];

static TIMER_PARTS: [BlockPart; 4] = parts![
    b"IN" Bool Input, b"PT" Time Input, b"Q" Bool Output, b"ET" Time Output
];

fn block_names() -> Sorted<'static, 9>
    ensures texts { map (λ word. word.text.now) result ≡ map block_name BLOCKS }
    ensures numbers { map (λ word. word.number) result ≡ first_numbers 9 }
{
    Sorted::of(&BLOCK_NAMES)
}

/// The block of this name, or None where the standard has none, or the profile leaves it out.
pub fn standard_block(name: &[u8]) -> Option<StandardBlock>
    ensures { (b : StandardBlock) → (result ≡ Some b) ↔ (block_name b ≡ raised_all name.now) }
{
    match block_names().find(name) {
        Some(number) => BLOCKS.get(number as usize).copied(),
        None => None,
    }
}

/// The inputs and outputs of a block, in the order in which it declares them. Its other variables aren't seen.
pub fn block_parts(block: StandardBlock) -> &'static [BlockPart]
    ensures { map part_of result.now ≡ parts_of block }
{
    match block {
        StandardBlock::Sr => &SR_PARTS,
        StandardBlock::Rs => &RS_PARTS,
        StandardBlock::RTrig | StandardBlock::FTrig => &TRIG_PARTS,
        StandardBlock::Ctu => &CTU_PARTS,
        StandardBlock::Ctd => &CTD_PARTS,
        StandardBlock::Ton | StandardBlock::Tof | StandardBlock::Tp => &TIMER_PARTS,
    }
}

/// The input or output of this name, or None where the block has none.
pub fn block_part(block: StandardBlock, name: &[u8]) -> Option<BlockPart>
    ensures { MatchOption result (HasNoPart (parts_of block) (raised_all name.now))
        (λ part. (part.name.now ≡ raised_all name.now) × Contains (parts_of block) (part_of part)) }
{
    for part in block_parts(block) {
        if is_named(part.name, name) {
            return Some(*part);
        }
    }
    None
}

// Whether the text is the name with its letters raised.
pub(crate) fn is_named(text: &[u8], name: &[u8]) -> bool
    ensures { IsTrue result ↔ (text.now ≡ raised_all name.now) }
{
    match text {
        [] => name.is_empty(),
        [first, rest @ ..] => match name {
            [] => false,
            [byte, name_rest @ ..] => *first == raise(*byte) && is_named(rest, name_rest),
        },
    }
}
