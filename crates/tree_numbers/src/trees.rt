// Whole trees with their nodes numbered.

ghost use Rattle.std.specs.Prelude.{◌≡◌, [], OnOk};
ghost use Rattle.tree_numbers.specs.Numbers.{numbered_expr, numbered_parts, numbered_sfc, numbered_stmts};
ghost use Rattle.tree_numbers.specs.Laws.{AreNumbered};
ghost use Rattle.tree_numbers.specs.NodeLists.{nodes_of_expr, nodes_of_parts, nodes_of_sfc, nodes_of_stmts};
ghost use Rattle.tree_numbers.specs.Bare.{bare_expr, bare_parts, bare_sfc, bare_stmts};

use crate::numbered::{Numbered, number_each};
use crate::numbers::Counting;
use st_tree::{Expr, FilePart, Sfc, Stmt};
use station_ports::outside::NoMemory;
use tree_items::Items;

/// Numbers the nodes of the expression. NoMemory where a number would be past 2^32 - 1, or there is
/// none to note a node: some nodes are then numbered and the others are not.
pub fn number_expr(tree: &mut Expr, counting: &mut Counting<'_>) -> Result<(), NoMemory>
    ensures exact { counting.old.starts ≡ []
        → OnOk result (tree.new ≡ numbered_expr counting.old.comments tree.old) }
    ensures same { OnOk result (bare_expr tree.new ≡ bare_expr tree.old) }
    ensures numbers { OnOk result (AreNumbered (nodes_of_expr tree.old) (nodes_of_expr tree.new)
        counting.old counting.new) }
{
    tree.number(counting)
}

/// Numbers the nodes of the statements, as `number_expr` does.
pub fn number_stmts(
    statements: &mut Items<Stmt>,
    counting: &mut Counting<'_>,
) -> Result<(), NoMemory>
    ensures exact { counting.old.starts ≡ []
        → OnOk result (statements.new ≡ numbered_stmts counting.old.comments statements.old) }
    ensures same { OnOk result (bare_stmts statements.new ≡ bare_stmts statements.old) }
    ensures numbers { OnOk result (AreNumbered (nodes_of_stmts statements.old) (nodes_of_stmts statements.new)
        counting.old counting.new) }
{
    number_each(statements, counting)
}

/// Numbers the nodes of the chart, as `number_expr` does.
pub fn number_sfc(chart: &mut Sfc, counting: &mut Counting<'_>) -> Result<(), NoMemory>
    ensures exact { counting.old.starts ≡ []
        → OnOk result (chart.new ≡ numbered_sfc counting.old.comments chart.old) }
    ensures same { OnOk result (bare_sfc chart.new ≡ bare_sfc chart.old) }
    ensures numbers { OnOk result (AreNumbered (nodes_of_sfc chart.old) (nodes_of_sfc chart.new)
        counting.old counting.new) }
{
    chart.number(counting)
}

/// Numbers the nodes of the parts of a file, as `number_expr` does.
pub fn number_parts(
    parts: &mut Items<FilePart>,
    counting: &mut Counting<'_>,
) -> Result<(), NoMemory>
    ensures exact { counting.old.starts ≡ []
        → OnOk result (parts.new ≡ numbered_parts counting.old.comments parts.old) }
    ensures same { OnOk result (bare_parts parts.new ≡ bare_parts parts.old) }
    ensures numbers { OnOk result (AreNumbered (nodes_of_parts parts.old) (nodes_of_parts parts.new)
        counting.old counting.new) }
{
    number_each(parts, counting)
}
