// A program and its statements.

ghost use Rattle.std.specs.Prelude.{◌≡◌, map, flat_map, IfOk};
ghost use Rattle.first_form.specs.Bare.{bare_stmt, bare_unit};
ghost use Rattle.first_form.specs.Nodes.{stmt_nodes, unit_nodes};
ghost use Rattle.first_form.specs.FirstForm as form;
ghost use Rattle.first_form.specs.steps.Answers.{Gives};
ghost use Rattle.first_form.specs.steps.Known.{known_in};
ghost use Rattle.first_form.specs.steps.Numbering.{Counts};

use crate::former::Former;
use crate::names::Declared;
use crate::refusal::Refusal;
use crate::tree::{Stmt, Unit};
use st_tree::{Body, UnitKind};
use tree_items::Items;

impl Former {
    /// A program whose statements use the names that it declares.
    #[tactic(auto, unfolding(crate::specs::FirstForm::unit_of))]
    pub fn unit(&mut self, source: &st_tree::Unit) -> Result<Unit, Refusal>
        ensures form { Gives bare_unit (form.unit_of source.now) result }
        ensures numbers { IfOk result (λ u. Counts self.old.next (unit_nodes u) self.new.next) }
    {
        if !is_program(&source.kind) {
            return Err(Refusal::OtherForm);
        }
        let node = self.node(source.node)?;
        let name = self.identifier(&source.name)?;
        let sections = self.sections(source.sections.as_slice())?;
        let declared = Declared::of(self.alloc, sections.as_slice())?;
        let body = self.body(&declared, &source.body)?;
        Ok(Unit {
            node,
            name,
            sections,
            body,
        })
    }

    fn body(&mut self, declared: &Declared, source: &Body) -> Result<Items<Stmt>, Refusal>
        ensures form { Gives (map bare_stmt) (form.body (known_in declared.now) source.now) result }
        ensures numbers { IfOk result (λ body. Counts self.old.next (flat_map stmt_nodes body) self.new.next) }
    {
        match source {
            Body::Statements(sources) => self.statements(declared, sources.as_slice()),
            Body::Chart(_) => Err(Refusal::OtherForm),
        }
    }

    fn statements(
        &mut self,
        declared: &Declared,
        sources: &[st_tree::Stmt],
    ) -> Result<Items<Stmt>, Refusal>
        ensures form { Gives (map bare_stmt)
            (form.each (form.stmt (known_in declared.now)) sources.now) result }
        ensures numbers { IfOk result (λ body. Counts self.old.next (flat_map stmt_nodes body) self.new.next) }
    {
        let mut body = Items::new(self.alloc);
        for source in sources {
            body.push(self.statement(declared, source)?)?;
        }
        Ok(body)
    }

    /// `path := sum;`
    #[tactic(auto, unfolding(crate::specs::FirstForm::stmt))]
    fn statement(&mut self, declared: &Declared, source: &st_tree::Stmt) -> Result<Stmt, Refusal>
        ensures form { Gives bare_stmt (form.stmt (known_in declared.now) source.now) result }
        ensures numbers { IfOk result (λ s. Counts self.old.next (stmt_nodes s) self.new.next) }
    {
        let st_tree::Stmt::Assign(node, target, value) = source else {
            return Err(Refusal::OtherForm);
        };
        let node = self.node(*node)?;
        let target = self.path(declared, target)?;
        let value = self.sum(declared, value.get())?;
        Ok(Stmt::Assign(node, target, value))
    }
}

fn is_program(kind: &UnitKind) -> bool
    ensures { result ≡ form.is_program kind.now }
{
    matches!(kind, UnitKind::Program)
}
