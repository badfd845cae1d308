// The tree of a file: its parts with their nodes numbered, its comments, and the places of its line
// feeds.

ghost use Rattle.std.specs.Prelude.{◌≡◌, IfOk, OnOk, map};
ghost use Rattle.std.specs.List.Sorted.{IsNonDecreasing, IsPermutation};
ghost use Rattle.token_grammar.specs.Kinds.{same_kind};
ghost use Rattle.token_grammar.specs.declared.token.TokenKind.TheVariants.{Comment as CommentKind};
ghost use Rattle.tree_numbers.specs.Numbers.{numbered_parts};
ghost use Rattle.st_units.specs.SourceTrees as spec;

use crate::fault::ParseFault;
use crate::parts::source_tree;
use crate::reading::{count_steps, parts_of};
use st_expr::node_at;
use st_lexer::{cut_laws, tokens};
use st_tree::{Comment, FilePart, SourceTree, feeds_of};
use station_ports::outside::NoMemory;
use station_ports::steps::Steps;
use station_ports::texts::Name;
use std::alloc::{AllocError, Global};
use std::sync::ledger::Ledger;
use token_grammar::{Cursor, Token, TokenKind, drop_comments};
use tree_items::Items;
use tree_numbers::{Counting, Starts, number_parts, numbered_node};

/// The tree of a text, its nodes and comments numbered from 0 in the order of the text. Counts one
/// parse step a token, comments and
/// pragmas among them.
pub fn parse_file<L: Ledger>(
    alloc: Global,
    text: &[u8],
    steps: &mut Steps<L>,
) -> Result<SourceTree, ParseFault>
    ensures answers { spec.Answered text.now steps.old.parsed steps.new.parsed result }
    ensures solved { steps.new.solved ≡ steps.old.solved }
{
    let mut tokens = match tokens(alloc, text) {
        Ok(tokens) => tokens,
        Err(fault) => return Err(ParseFault::Lex(fault)),
    };
    count_steps(&tokens.list, steps);
    let comments = comments_among(alloc, &tokens.list)?;
    drop_comments(&mut tokens.list);
    let parts = parts_of(alloc, tokens)?;
    Ok(tree_of(alloc, text, parts, &comments)?)
}

fn is_comment(kind: TokenKind) -> bool
    ensures { result ≡ same_kind kind CommentKind }
{
    matches!(kind, TokenKind::Comment)
}

/// The comments among the tokens.
fn comments_among(alloc: Global, tokens: &[Token]) -> Result<Vec<Token>, AllocError>
    ensures { IfOk result (λ comments. comments.items ≡ spec.comments_among tokens.now) }
{
    let mut comments = Vec::new(alloc);
    for at in 0..tokens.len() {
        if is_comment(tokens[at].kind) {
            comments.push(tokens[at])?;
        }
    }
    Ok(comments)
}

/// The first bytes of tokens.
fn starts_of(alloc: Global, tokens: &[Token]) -> Result<Vec<usize>, AllocError>
    ensures { IfOk result (λ starts. starts.items ≡ spec.starts_of tokens.now) }
{
    let mut starts = Vec::new(alloc);
    for token in tokens {
        starts.push(token.start)?;
    }
    Ok(starts)
}

/// Numbers the nodes of the parts, in a file whose comments start at these places, and gives the
/// nodes' own places in ascending order.
fn number_all(
    alloc: Global,
    parts: &mut Items<FilePart>,
    comments: Starts<'_>,
) -> Result<Items<usize>, NoMemory>
    ensures tree { OnOk result (parts.new ≡ numbered_parts comments.entry parts.old) }
    ensures rising { IfOk result (λ places. IsNonDecreasing places) }
    ensures same { IfOk result (λ places. IsPermutation (spec.places_of parts.old) places) }
{
    let mut counting = Counting::new(alloc, comments);
    number_parts(parts, &mut counting)?;
    let Counting { starts, .. } = counting;
    Ok(sorted(starts))
}

/// The places in their order.
fn sorted(places: Items<usize>) -> Items<usize>
    ensures rising { IsNonDecreasing result }
    ensures same { IsPermutation places result }
{
    let mut places = places;
    places.as_mut_slice().sort_unstable();
    places
}

/// A comment that so many comments come before, in a file whose nodes start at these places.
fn comment_at(
    alloc: Global,
    cursor: &Cursor<'_>,
    token: Token,
    index: usize,
    nodes: &Starts<'_>,
) -> Result<Comment, NoMemory>
    ensures { IfOk result (λ comment. comment ≡ spec.comment_at nodes.now index cursor.now.text.now token) }
{
    let node = numbered_node(node_at(token.start, token.end), index, nodes)?;
    Ok(Comment {
        node,
        text: Name::from_vec(cursor.bytes(token).to_vec(alloc)?),
    })
}

/// The comments with their numbers, in a file whose nodes start at these places.
fn comments_of(
    alloc: Global,
    text: &[u8],
    comments: &[Token],
    nodes: &Starts<'_>,
) -> Result<Items<Comment>, NoMemory>
    ensures { IfOk result (λ made. made ≡ spec.comments_from nodes.now 0 text.now comments.now) }
{
    let cursor = Cursor {
        text,
        rest: &[],
        last: 0,
        depth: 0,
    };
    let mut made = Items::new(alloc);
    for at in 0..comments.len() {
        made.push(comment_at(alloc, &cursor, comments[at], at, nodes)?)?;
    }
    Ok(made)
}

/// The tree of these parts of a text with these comments.
fn tree_of(
    alloc: Global,
    text: &[u8],
    parts: Items<FilePart>,
    comments: &[Token],
) -> Result<SourceTree, NoMemory>
    requires { IsNonDecreasing (spec.starts_of comments.now) }
    ensures { IfOk result (λ tree. tree ≡ spec.tree_of text.now comments.now parts) }
{
    let mut parts = parts;
    let places = starts_of(alloc, comments)?;
    let nodes = number_all(alloc, &mut parts, Starts::of(&places))?;
    let comments = comments_of(alloc, text, comments, &Starts::of(nodes.as_slice()))?;
    source_tree(alloc, parts, comments, feeds_of(alloc, text)?)
}

/// What holds of texts: each has exactly one tree, or exactly one fault.
pub fn text_laws()
    ensures some { spec.SomeTreeOrFault }
    ensures one_tree { spec.OneTree }
    ensures one_fault { spec.OneTextFault }
    ensures not_both { spec.NoTreeAndFault }
{
    cut_laws();
}
