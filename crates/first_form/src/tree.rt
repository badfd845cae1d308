// The tree of a source text, after the textual grammar of the standard. Each node holds its number
// and its place.

use iec_tables::elem::Elem;
use st_tree::{Node, Operator};
use station_ports::texts::Name;
use tree_items::{Boxed, Items};

/// A name, with its ASCII letters raised.
#[derive(Drop)]
pub struct Identifier {
    pub node: Node,
    pub name: Name,
}

/// A variable, by its name.
#[derive(Drop)]
pub struct Path {
    pub node: Node,
    pub root: Identifier,
}

/// A number, a minus directly before it taken in.
#[derive(Clone, Copy, Debug, PartialEq, Eq)]
pub struct Literal {
    pub negative: bool,
    pub size: u128,
}

/// An expression. Operators group to the left.
pub enum Expr {
    Number(Node, Literal),
    Variable(Path),
    Binary(Node, Operator, Boxed<Expr>, Boxed<Expr>),
}

impl Drop for Expr {
    fn drop(mut self) {
        loop {
            match self {
                Expr::Number(_, _) => return,
                Expr::Variable(_) => return,
                Expr::Binary(_, _, left, right) => {
                    drop(right.into_inner());
                    self = left.into_inner();
                },
            }
        }
    }
}

/// A statement.
#[derive(Drop)]
pub enum Stmt {
    /// `target := value;`, its end the byte after the semicolon.
    Assign(Node, Path, Expr),
}

/// What a declaration says of the type: an elementary type.
#[derive(Clone, Copy, Debug, PartialEq, Eq)]
pub struct Spec {
    pub node: Node,
    pub elem: Elem,
}

/// Variables declared together: `names : spec;`, its end the byte after the semicolon.
#[derive(Drop)]
pub struct Decl {
    pub node: Node,
    pub names: Items<Identifier>,
    pub spec: Spec,
}

/// A section of variables, `VAR` to `END_VAR`.
#[derive(Drop)]
pub struct Section {
    pub node: Node,
    pub decls: Items<Decl>,
}

/// A program, `PROGRAM` to `END_PROGRAM`.
#[derive(Drop)]
pub struct Unit {
    pub node: Node,
    pub name: Identifier,
    pub sections: Items<Section>,
    pub body: Items<Stmt>,
}

/// A file: its units, and the places of all its line feeds.
#[derive(Drop)]
pub struct SourceTree {
    pub units: Items<Unit>,
    pub feeds: Items<usize>,
}
