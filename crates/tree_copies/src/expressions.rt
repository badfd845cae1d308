// Copies of expressions.

ghost use Rattle.std.specs.Prelude.{◌≡◌, IfOk};

use crate::copied::Copied;
use crate::results::{both, boxed};
use st_tree::{Address, Argument, Expr, Identifier, Part, Path, Root};
use station_ports::outside::NoMemory;
use std::alloc::Global;
use tree_items::Items;

impl Copied for Identifier {
    fn copy(&self, alloc: Global) -> Result<Self, NoMemory> {
        let name = self.name.copy(alloc)?;
        Ok(Identifier {
            node: self.node,
            name,
        })
    }
}

impl Copied for Address {
    fn copy(&self, alloc: Global) -> Result<Self, NoMemory> {
        let name = self.name.copy(alloc)?;
        Ok(Address {
            node: self.node,
            name,
        })
    }
}

impl Copied for Root {
    fn copy(&self, alloc: Global) -> Result<Self, NoMemory> {
        match self {
            Root::Name(name) => Ok(Root::Name(name.copy(alloc)?)),
            Root::Address(address) => Ok(Root::Address(address.copy(alloc)?)),
        }
    }
}

#[cycle(expression)]
fn copy_expr(alloc: Global, tree: &Expr) -> Result<Expr, NoMemory>
    ensures { IfOk result (λ t. t ≡ tree.now) }
{
    match tree {
        Expr::Number(node, minus, text) => Ok(Expr::Number(*node, *minus, text.copy(alloc)?)),
        Expr::Typed(node, text) => Ok(Expr::Typed(*node, text.copy(alloc)?)),
        Expr::Time(node, text) => Ok(Expr::Time(*node, text.copy(alloc)?)),
        Expr::Truth(node, truth) => Ok(Expr::Truth(*node, *truth)),
        Expr::Path(path) => Ok(Expr::Path(copy_path(alloc, path)?)),
        Expr::Value(node, name, value) => {
            let (name, value) = both(name.copy(alloc), value.copy(alloc))?;
            Ok(Expr::Value(*node, name, value))
        }
        Expr::Parenthesized(node, inner) => {
            let inner = boxed(alloc, copy_expr(alloc, inner.get()))?;
            Ok(Expr::Parenthesized(*node, inner))
        }
        Expr::Unary(node, operator, operand) => {
            let operand = boxed(alloc, copy_expr(alloc, operand.get()))?;
            Ok(Expr::Unary(*node, *operator, operand))
        }
        Expr::Binary(node, operator, left, right) => {
            let (left, right) = both(
                boxed(alloc, copy_expr(alloc, left.get())),
                boxed(alloc, copy_expr(alloc, right.get())),
            )?;
            Ok(Expr::Binary(*node, *operator, left, right))
        }
        Expr::Call(node, name, arguments) => {
            let (name, arguments) = both(
                name.copy(alloc),
                copy_arguments(alloc, arguments.as_slice()),
            )?;
            Ok(Expr::Call(*node, name, arguments))
        }
    }
}

#[cycle(expression)]
fn copy_part(alloc: Global, tree: &Part) -> Result<Part, NoMemory>
    ensures { IfOk result (λ t. t ≡ tree.now) }
{
    match tree {
        Part::Field(name) => Ok(Part::Field(name.copy(alloc)?)),
        Part::Index(node, indices) => {
            let indices = copy_exprs(alloc, indices.as_slice())?;
            Ok(Part::Index(*node, indices))
        }
    }
}

#[cycle(expression)]
fn copy_argument(alloc: Global, tree: &Argument) -> Result<Argument, NoMemory>
    ensures { IfOk result (λ t. t ≡ tree.now) }
{
    let (name, value) = both(
        tree.name.copy(alloc),
        boxed(alloc, copy_expr(alloc, tree.value.get())),
    )?;
    Ok(Argument {
        node: tree.node,
        name,
        value,
    })
}

#[cycle(expression)]
fn copy_path(alloc: Global, tree: &Path) -> Result<Path, NoMemory>
    ensures { IfOk result (λ t. t ≡ tree.now) }
{
    let (root, parts) = both(
        tree.root.copy(alloc),
        copy_parts(alloc, tree.parts.as_slice()),
    )?;
    Ok(Path {
        node: tree.node,
        root,
        parts,
    })
}

#[cycle(expression)]
fn copy_exprs(alloc: Global, trees: &[Expr]) -> Result<Items<Expr>, NoMemory>
    ensures { IfOk result (λ t. t ≡ trees.now) }
{
    let mut made = Items::new(alloc);
    for tree in trees {
        made.push(copy_expr(alloc, tree)?)?;
    }
    Ok(made)
}

#[cycle(expression)]
fn copy_parts(alloc: Global, trees: &[Part]) -> Result<Items<Part>, NoMemory>
    ensures { IfOk result (λ t. t ≡ trees.now) }
{
    let mut made = Items::new(alloc);
    for tree in trees {
        made.push(copy_part(alloc, tree)?)?;
    }
    Ok(made)
}

#[cycle(expression)]
fn copy_arguments(alloc: Global, trees: &[Argument]) -> Result<Items<Argument>, NoMemory>
    ensures { IfOk result (λ t. t ≡ trees.now) }
{
    let mut made = Items::new(alloc);
    for tree in trees {
        made.push(copy_argument(alloc, tree)?)?;
    }
    Ok(made)
}

impl Copied for Expr {
    fn copy(&self, alloc: Global) -> Result<Self, NoMemory> {
        copy_expr(alloc, self)
    }
}

impl Copied for Part {
    fn copy(&self, alloc: Global) -> Result<Self, NoMemory> {
        copy_part(alloc, self)
    }
}

impl Copied for Argument {
    fn copy(&self, alloc: Global) -> Result<Self, NoMemory> {
        copy_argument(alloc, self)
    }
}

impl Copied for Path {
    fn copy(&self, alloc: Global) -> Result<Self, NoMemory> {
        copy_path(alloc, self)
    }
}
