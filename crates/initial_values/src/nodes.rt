// The nodes of expressions and initial values.

ghost use Rattle.std.specs.Prelude.{◌≡◌};
ghost use Rattle.initial_values.specs.Nodes as nodes;

use st_tree::{Expr, Init, Node};

/// The node of an expression, in parentheses that of the one within.
#[tactic(auto, unfolding(crate::specs::Nodes::expr_node, crate::specs::Nodes::path_node))]
pub fn node_of(e: &Expr) -> Node
    ensures { result ≡ nodes.expr_node e.now }
{
    match e {
        Expr::Number(node, _, _) => *node,
        Expr::Typed(node, _) => *node,
        Expr::Time(node, _) => *node,
        Expr::Truth(node, _) => *node,
        Expr::Path(path) => path.node,
        Expr::Value(node, _, _) => *node,
        Expr::Parenthesized(_, inner) => node_of(inner.get()),
        Expr::Unary(node, _, _) => *node,
        Expr::Binary(node, _, _, _) => *node,
        Expr::Call(node, _, _) => *node,
    }
}

/// The node of an initial value.
#[tactic(auto, unfolding(crate::specs::Nodes::init_node))]
pub fn init_node(init: &Init) -> Node
    ensures { result ≡ nodes.init_node init.now }
{
    match init {
        Init::Value(value) => node_of(value.get()),
        Init::Array(node, _) => *node,
        Init::Structure(node, _) => *node,
    }
}
