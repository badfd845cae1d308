// Sums: operands joined by `+` and `-`, grouped to the left.

ghost use Rattle.std.specs.Prelude.{◌≡◌, suc, map, Some, IfOk};
ghost use Rattle.first_form.specs.Bare.{bare_expr, bare_path};
ghost use Rattle.first_form.specs.Nodes.{expr_nodes, path_nodes};
ghost use Rattle.first_form.specs.FirstForm as form;
ghost use Rattle.first_form.specs.steps.Answers.{Gives};
ghost use Rattle.first_form.specs.steps.Chains.{joined, link_node, IsChain};
ghost use Rattle.first_form.specs.steps.Known.{known_in};
ghost use Rattle.first_form.specs.steps.Numbering.{Counts};

use crate::former::Former;
use crate::names::Declared;
use crate::numbers::short_number;
use crate::refusal::Refusal;
use crate::tree::{Expr, Literal, Path};
use st_tree::{BinaryOperator, Node, Operator, Root};
use tree_items::{Boxed, Items};

/// An operator of a sum with its right operand.
#[derive(Clone, Copy)]
pub(crate) struct Link<'t> {
    node: Node,
    operator: Operator,
    right: &'t st_tree::Expr,
}

/// The operators of a sum, the outermost first, and its leftmost operand.
#[derive(Drop)]
pub(crate) struct Chain<'t> {
    links: Items<Link<'t>>,
    first: &'t st_tree::Expr,
}

impl Former {
    /// A sum. An outer one is numbered before the sums and operands within it.
    pub fn sum(&mut self, declared: &Declared, source: &st_tree::Expr) -> Result<Expr, Refusal>
        ensures form { Gives bare_expr (form.sum (known_in declared.now) source.now) result }
        ensures numbers { IfOk result (λ x. Counts self.old.next (expr_nodes x) self.new.next) }
    {
        let Chain { mut links, first } = self.chain(source)?;
        let mut value = self.operand(declared, first)?;
        while let Some(link) = links.pop() {
            value = self.joined(declared, link, value)?;
        }
        Ok(value)
    }

    /// The operators of a sum with their numbers.
    fn chain<'t>(&mut self, source: &'t st_tree::Expr) -> Result<Chain<'t>, Refusal>
        ensures form { (known : form.Known) → IsChain known source.now result }
        ensures numbers { IfOk result (λ chain. Counts self.old.next (map link_node chain.links) self.new.next) }
    {
        let mut links = Items::new(self.alloc);
        let mut first = source;
        while let st_tree::Expr::Binary(node, operator, left, right) = first {
            let Some(operator) = operator_of(*operator) else {
                return Err(Refusal::OtherForm);
            };
            links.push(Link {
                node: self.node(*node)?,
                operator,
                right: right.get(),
            })?;
            first = left.get();
        }
        Ok(Chain { links, first })
    }

    /// The sum of an operator whose left operand is made.
    fn joined(&mut self, declared: &Declared, link: Link<'_>, left: Expr) -> Result<Expr, Refusal>
        ensures form { Gives bare_expr
            (joined (known_in declared.now) link.entry (Some (bare_expr left))) result }
        ensures numbers { IfOk result (λ x. Counts (suc link.entry.node.number.0) (expr_nodes left)
            self.old.next → Counts link.entry.node.number.0 (expr_nodes x) self.new.next) }
    {
        let left = Boxed::new(self.alloc, left)?;
        let right = Boxed::new(self.alloc, self.operand(declared, link.right)?)?;
        Ok(binary(link.node, link.operator, left, right))
    }

    /// A number, or a declared name.
    #[tactic(auto, unfolding(crate::specs::FirstForm::operand))]
    fn operand(&mut self, declared: &Declared, source: &st_tree::Expr) -> Result<Expr, Refusal>
        ensures form { Gives bare_expr (form.operand (known_in declared.now) source.now) result }
        ensures numbers { IfOk result (λ x. Counts self.old.next (expr_nodes x) self.new.next) }
    {
        match source {
            st_tree::Expr::Number(node, negative, digits) => {
                let Some(size) = short_number(digits.bytes()) else {
                    return Err(Refusal::OtherForm);
                };
                Ok(Expr::Number(
                    self.node(*node)?,
                    Literal {
                        negative: *negative,
                        size: size as u128,
                    },
                ))
            }
            st_tree::Expr::Path(path) => Ok(Expr::Variable(self.path(declared, path)?)),
            _ => Err(Refusal::OtherForm),
        }
    }

    /// A declared name without parts.
    #[tactic(auto, unfolding(crate::specs::FirstForm::path))]
    pub fn path(&mut self, declared: &Declared, source: &st_tree::Path) -> Result<Path, Refusal>
        ensures form { Gives bare_path (form.path (known_in declared.now) source.now) result }
        ensures numbers { IfOk result (λ x. Counts self.old.next (path_nodes x) self.new.next) }
    {
        let Root::Name(root) = &source.root else {
            return Err(Refusal::OtherForm);
        };
        let node = self.node(source.node)?;
        let root = self.identifier(root)?;
        if !source.parts.is_empty() || !declared.has(root.name.bytes()) {
            return Err(Refusal::OtherForm);
        }
        Ok(Path { node, root })
    }
}

fn binary(node: Node, operator: Operator, left: Boxed<Expr>, right: Boxed<Expr>) -> Expr
    ensures { result ≡ Expr.Binary node operator left right }
{
    Expr::Binary(node, operator, left, right)
}

/// The operators that sums have.
fn operator_of(operator: BinaryOperator) -> Option<Operator>
    ensures { result ≡ form.operator operator }
{
    match operator {
        BinaryOperator::Add => Some(Operator::Add),
        BinaryOperator::Subtract => Some(Operator::Subtract),
        _ => None,
    }
}
