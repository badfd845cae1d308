// Sequential function charts.

use crate::expression::{Expr, Identifier};
use crate::node::Node;
use crate::statement::Stmt;
use tree_items::{Boxed, Items};

/// A sequential function chart: `initial { step | transition | action }`
#[derive(Drop)]
pub struct Sfc {
    pub node: Node,
    /// `INITIAL_STEP name ":" { association } END_STEP`
    pub initial: Step,
    pub parts: Items<SfcPart>,
}

/// What stands in a chart behind its initial step.
#[derive(Drop)]
pub enum SfcPart {
    /// `STEP name ":" { association } END_STEP`
    Step(Step),
    Transition(Transition),
    Action(Action),
}

/// A step, the initial one or another, up to END_STEP.
#[derive(Drop)]
pub struct Step {
    pub node: Node,
    pub name: Identifier,
    pub associations: Items<Association>,
}

/// An action that a step has, with its qualifier if it is written: `name "(" [ name ] ")" ";"`
#[derive(Drop)]
pub struct Association {
    pub node: Node,
    pub action: Identifier,
    pub qualifier: Option<Identifier>,
}

/// `TRANSITION [ name ] FROM from TO to ":=" condition ";" END_TRANSITION`
#[derive(Drop)]
pub struct Transition {
    pub node: Node,
    pub name: Option<Identifier>,
    pub from: StepNames,
    pub to: StepNames,
    pub condition: Boxed<Expr>,
}

/// The steps that a transition leads from or to.
#[derive(Drop)]
pub enum StepNames {
    One(Identifier),
    /// `"(" names ")"`
    Several(Node, Items<Identifier>),
}

/// `ACTION name ":" statements END_ACTION`
#[derive(Drop)]
pub struct Action {
    pub node: Node,
    pub name: Identifier,
    pub body: Items<Stmt>,
}
