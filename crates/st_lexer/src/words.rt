// Words: reserved words, names, and the names of types before a `#`.

ghost use Rattle.std.specs.Prelude.{◌≡◌, [], ◌∷◌, codes, map, bytes_eq, slice_get};
ghost use Rattle.iec_tables.specs.Letters.{raised};
ghost use Rattle.st_lexer.specs.Bytes as spec;
ghost use Rattle.st_lexer.specs.Texts.{is_word_of, keyword_kinds, type_words};
ghost use Rattle.st_lexer.specs.Front as fronts;
ghost use Rattle.st_lexer.specs.Values.{named_types, with_names};

use iec_tables::elem::Elem;
use iec_tables::letters::raise;
use iec_tables::words::keywords;
use token_grammar::TokenKind;

/// The kinds of the reserved words, in the order of their texts.
const KEYWORD_KINDS: [TokenKind; 80] = [
    TokenKind::Action,
    TokenKind::And,
    TokenKind::Array,
    TokenKind::At,
    TokenKind::Bool,
    TokenKind::By,
    TokenKind::Byte,
    TokenKind::Case,
    TokenKind::Configuration,
    TokenKind::Constant,
    TokenKind::Continue,
    TokenKind::Dint,
    TokenKind::Do,
    TokenKind::Dword,
    TokenKind::Else,
    TokenKind::Elsif,
    TokenKind::EndAction,
    TokenKind::EndCase,
    TokenKind::EndConfiguration,
    TokenKind::EndFor,
    TokenKind::EndFunction,
    TokenKind::EndFunctionBlock,
    TokenKind::EndIf,
    TokenKind::EndProgram,
    TokenKind::EndRepeat,
    TokenKind::EndResource,
    TokenKind::EndStep,
    TokenKind::EndStruct,
    TokenKind::EndTransition,
    TokenKind::EndType,
    TokenKind::EndVar,
    TokenKind::EndWhile,
    TokenKind::Exit,
    TokenKind::False,
    TokenKind::For,
    TokenKind::From,
    TokenKind::Function,
    TokenKind::FunctionBlock,
    TokenKind::If,
    TokenKind::InitialStep,
    TokenKind::Int,
    TokenKind::Lint,
    TokenKind::Lword,
    TokenKind::Mod,
    TokenKind::NonRetain,
    TokenKind::Not,
    TokenKind::Of,
    TokenKind::On,
    TokenKind::Or,
    TokenKind::Program,
    TokenKind::Repeat,
    TokenKind::Resource,
    TokenKind::Retain,
    TokenKind::Return,
    TokenKind::Sint,
    TokenKind::Step,
    TokenKind::Struct,
    TokenKind::Task,
    TokenKind::Then,
    TokenKind::Time,
    TokenKind::To,
    TokenKind::Transition,
    TokenKind::True,
    TokenKind::Type,
    TokenKind::Udint,
    TokenKind::Uint,
    TokenKind::Ulint,
    TokenKind::Until,
    TokenKind::Usint,
    TokenKind::Var,
    TokenKind::VarExternal,
    TokenKind::VarGlobal,
    TokenKind::VarInput,
    TokenKind::VarInOut,
    TokenKind::VarOutput,
    TokenKind::VarTemp,
    TokenKind::While,
    TokenKind::With,
    TokenKind::Word,
    TokenKind::Xor,
];

/// The types that a typed number may name: all but TIME.
const TYPES: [Elem; 13] = [
    Elem::Sint,
    Elem::Int,
    Elem::Dint,
    Elem::Lint,
    Elem::Usint,
    Elem::Uint,
    Elem::Udint,
    Elem::Ulint,
    Elem::Bool,
    Elem::Byte,
    Elem::Word,
    Elem::Dword,
    Elem::Lword,
];

/// The kind of a word that begins like a name: that of a reserved word, else a name.
#[tactic(auto, unfolding(crate::specs::Front::word_kind))]
pub(crate) fn word_kind(word: &[u8]) -> TokenKind
    ensures { result ≡ fronts.word_kind word.now }
{
    match keywords().find(word) {
        Some(number) => match kind_at(number) {
            Some(kind) => kind,
            None => TokenKind::Name,
        },
        None => TokenKind::Name,
    }
}

/// The kind of the reserved word of that number.
fn kind_at(number: u16) -> Option<TokenKind>
    ensures { result ≡ slice_get keyword_kinds number }
{
    at(&KEYWORD_KINDS, number as usize)
}

fn at(kinds: &[TokenKind], place: usize) -> Option<TokenKind>
    ensures { result ≡ slice_get kinds.now place }
{
    if place < kinds.len() {
        Some(kinds[place])
    } else {
        None
    }
}

/// Whether no two underscores stand in a row in the word and none at its end.
pub(crate) fn is_spaced(word: &[u8]) -> bool
    ensures { result ≡ spec.is_spaced 95 word.now }
{
    let mut after = false;
    let mut rest = word;
    'byte: while let Some((byte, others)) = rest.split_first() {
        let underscore = *byte == b'_';
        if after && underscore {
            return false;
        }
        after = underscore;
        rest = others;
    }
    !after
}

/// Whether the word, its letters raised, is this text.
pub(crate) fn is_same(word: &[u8], text: &[u8]) -> bool
    ensures { result ≡ bytes_eq (map raised word.now) text.now }
{
    match word {
        [] => text.is_empty(),
        [byte, others @ ..] => match text {
            [] => false,
            [letter, letters @ ..] => raise(*byte) == *letter && is_same(others, letters),
        },
    }
}

/// Whether the word is the name of a type other than TIME.
pub(crate) fn is_type_word(word: &[u8]) -> bool
    ensures { result ≡ is_word_of type_words word.now }
{
    named_type(word).is_some()
}

/// The type other than TIME of that name.
pub(crate) fn named_type(word: &[u8]) -> Option<Elem>
    ensures { result ≡ fronts.found_in named_types (map raised word.now) }
{
    type_among(&TYPES, word)
}

/// The first of these types whose name the word is.
fn type_among(types: &[Elem], word: &[u8]) -> Option<Elem>
    ensures { result ≡ fronts.found_in (with_names types.now) (map raised word.now) }
{
    match types {
        [] => None,
        [elem, others @ ..] => {
            if is_same(word, elem.name().as_bytes()) {
                Some(*elem)
            } else {
                type_among(others, word)
            }
        }
    }
}

/// Whether a time follows this word and a `#`.
pub(crate) fn is_time_word(word: &[u8]) -> bool
    ensures { result ≡ is_word_of (codes "T" ∷ codes "TIME" ∷ []) word.now }
{
    is_same(word, b"T") || is_same(word, b"TIME")
}

/// Whether the word is BOOL.
pub(crate) fn is_bool_word(word: &[u8]) -> bool
    ensures { result ≡ is_word_of (codes "BOOL" ∷ []) word.now }
{
    is_same(word, b"BOOL")
}

/// Whether the word is TRUE or FALSE.
pub(crate) fn is_truth(word: &[u8]) -> bool
    ensures { result ≡ is_word_of fronts.truths word.now }
{
    is_same(word, b"TRUE") || is_same(word, b"FALSE")
}
