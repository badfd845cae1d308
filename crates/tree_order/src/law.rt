// What holds of the nodes and of the texts of trees, as data.

ghost use Rattle.token_grammar.specs.declared.token.TokenKind.TheVariants as kind;
ghost use Rattle.st_lexer.specs.Values as values;
ghost use Rattle.st_lexer.specs.ValueLaws.{IsAddressWith};
ghost use Rattle.tree_order.specs.Order as order;
ghost use Rattle.tree_order.specs.Literals as literals;

use st_lexer::{cut_laws, value_laws};
use tree_numbers::numbering_laws;

/// The nodes of each tree are numbered in the order of the text: those of all parts of the tree and
/// of its comments and no others, and an outer one before those within.
pub fn order_laws()
    ensures nodes { order.NodesInOrder }
    ensures all_parts { order.NodesOfParts }
    ensures no_others { order.PartsOfNodes }
    ensures parts { order.PartsInOrder }
{
    cut_laws();
    numbering_laws();
}

/// Each text in a tree is that of a token of its kind, so that each number, typed number, time and
/// address in a tree has a value.
pub fn literal_laws()
    ensures texts { literals.TextsOfTokens }
    ensures numbers { literals.TextsHaveValues kind.Number values.IsNumberValue }
    ensures typed { literals.TextsHaveValues kind.TypedNumber values.IsTypedValue }
    ensures times { literals.TextsHaveValues kind.Duration values.IsTimeValue }
    ensures addresses { literals.TextsHaveValues kind.Address IsAddressWith }
{
    numbering_laws();
    value_laws();
}
