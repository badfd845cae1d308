// Statements.

use crate::expression::{Expr, Identifier, Path};
use crate::node::Node;
use station_ports::texts::Name;
use tree_items::{Boxed, Items};

/// A statement, up to the byte after its last token. Empty statements aren't kept.
#[cycle(statement)]
#[derive(Drop)]
pub enum Stmt {
    /// `target := value;`
    Assign(Node, Path, Boxed<Expr>),
    /// The call of an instance: `name(arguments);`
    Call(Node, Identifier, Items<StmtArgument>),
    Return(Node),
    Exit(Node),
    Continue(Node),
    /// The branches IF and ELSIF with their conditions, and what follows ELSE, if it is there.
    If(Node, Items<Branch>, Option<Items<Stmt>>),
    /// The selector, the branches, and what follows ELSE, if it is there.
    Case(Node, Boxed<Expr>, Items<Case>, Option<Items<Stmt>>),
    /// How the variable counts, and the body.
    For(Node, Boxed<Counter>, Items<Stmt>),
    While(Node, Boxed<Expr>, Items<Stmt>),
    /// The body, and the condition behind UNTIL.
    Repeat(Node, Items<Stmt>, Boxed<Expr>),
}

/// IF or ELSIF: the condition and its statements.
#[cycle(statement)]
#[derive(Drop)]
pub struct Branch {
    pub condition: Boxed<Expr>,
    pub body: Items<Stmt>,
}

/// How a FOR counts: `variable ":=" first TO last [ BY step ]`
#[derive(Drop)]
pub struct Counter {
    pub variable: Identifier,
    pub first: Boxed<Expr>,
    pub last: Boxed<Expr>,
    pub step: Option<Boxed<Expr>>,
}

/// A branch of a CASE: `labels : statements`.
#[cycle(statement)]
#[derive(Drop)]
pub struct Case {
    pub labels: Items<Label>,
    pub body: Items<Stmt>,
}

/// A label, or a range of labels: `first [ ".." last ]`.
#[derive(Drop)]
pub struct Label {
    pub node: Node,
    pub first: Point,
    pub last: Option<Point>,
}

/// What a label names.
#[derive(Drop)]
pub enum Point {
    /// A number as it is written, and whether a minus stands before it.
    Number(Node, bool, Name),
    /// A typed number as it is written.
    Typed(Node, Name),
    /// A constant or the value of an enumeration.
    Name(Identifier),
    /// `type#value`
    Value(Node, Identifier, Identifier),
}

/// An argument of an instance's call.
#[derive(Drop)]
pub enum StmtArgument {
    /// `name := value`
    Input(Node, Identifier, Boxed<Expr>),
    /// `name => target`
    Output(Node, Identifier, Path),
}
