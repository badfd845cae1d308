// The names in expressions.

ghost use Rattle.std.specs.Prelude.{◌≡◌, ◌++◌, map, OnOk};
ghost use Rattle.project_declarations.specs.Declarations.{joined};
ghost use Rattle.declaration_references.specs.References as refers;

use crate::references::{ReferenceKind, References};
use st_tree::{Argument, Expr, Part, Path, Root};
use std::alloc::AllocError;

impl<'t> References<'t> {
    fn root(&mut self, root: &'t Root) -> Result<(), AllocError>
        ensures { OnOk result (self.new ≡ self.old ++ refers.root_names root.now) }
    {
        match root {
            Root::Name(name) => {
                self.add(ReferenceKind::Variable, name)?;
                Ok(())
            },
            Root::Address(_) => Ok(()),
        }
    }

    #[cycle(expression)]
    #[tactic(auto, unfolding(crate::specs::References::in_expr, crate::specs::References::in_part, crate::specs::References::in_argument, crate::specs::References::in_path))]
    pub(crate) fn expr(&mut self, expr: &'t Expr) -> Result<(), AllocError>
        ensures { OnOk result (self.new ≡ self.old ++ refers.in_expr expr.now) }
    {
        match expr {
            Expr::Path(path) => {
                self.path(path)?;
                Ok(())
            },
            Expr::Value(_, name, _) => {
                self.add(ReferenceKind::ValueType, name)?;
                Ok(())
            },
            Expr::Parenthesized(_, inner) => {
                self.expr(inner.get())?;
                Ok(())
            },
            Expr::Unary(_, _, operand) => {
                self.expr(operand.get())?;
                Ok(())
            },
            Expr::Binary(_, _, left, right) => {
                self.expr(left.get())?;
                self.expr(right.get())?;
                Ok(())
            },
            Expr::Call(_, _, arguments) => {
                self.arguments(arguments.as_slice())?;
                Ok(())
            },
            Expr::Number(_, _, _) => Ok(()),
            Expr::Typed(_, _) => Ok(()),
            Expr::Time(_, _) => Ok(()),
            Expr::Truth(_, _) => Ok(()),
        }
    }

    #[cycle(expression)]
    fn exprs(&mut self, list: &'t [Expr]) -> Result<(), AllocError>
        ensures { OnOk result (self.new ≡ self.old ++ joined (map refers.in_expr list.now)) }
    {
        for expr in list {
            self.expr(expr)?;
        }
        Ok(())
    }

    #[cycle(expression)]
    #[tactic(auto, unfolding(crate::specs::References::in_expr, crate::specs::References::in_part, crate::specs::References::in_argument, crate::specs::References::in_path))]
    fn argument(&mut self, argument: &'t Argument) -> Result<(), AllocError>
        ensures { OnOk result (self.new ≡ self.old ++ refers.in_argument argument.now) }
    {
        self.expr(argument.value.get())?;
        Ok(())
    }

    #[cycle(expression)]
    fn arguments(&mut self, list: &'t [Argument]) -> Result<(), AllocError>
        ensures { OnOk result (self.new ≡ self.old ++ joined (map refers.in_argument list.now)) }
    {
        for argument in list {
            self.argument(argument)?;
        }
        Ok(())
    }

    #[cycle(expression)]
    #[tactic(auto, unfolding(crate::specs::References::in_expr, crate::specs::References::in_part, crate::specs::References::in_argument, crate::specs::References::in_path))]
    fn part(&mut self, part: &'t Part) -> Result<(), AllocError>
        ensures { OnOk result (self.new ≡ self.old ++ refers.in_part part.now) }
    {
        match part {
            Part::Field(_) => Ok(()),
            Part::Index(_, indices) => {
                self.exprs(indices.as_slice())?;
                Ok(())
            },
        }
    }

    #[cycle(expression)]
    fn parts(&mut self, list: &'t [Part]) -> Result<(), AllocError>
        ensures { OnOk result (self.new ≡ self.old ++ joined (map refers.in_part list.now)) }
    {
        for part in list {
            self.part(part)?;
        }
        Ok(())
    }

    #[cycle(expression)]
    #[tactic(auto, unfolding(crate::specs::References::in_expr, crate::specs::References::in_part, crate::specs::References::in_argument, crate::specs::References::in_path))]
    fn path(&mut self, path: &'t Path) -> Result<(), AllocError>
        ensures { OnOk result (self.new ≡ self.old ++ refers.in_path path.now) }
    {
        self.root(&path.root)?;
        self.parts(path.parts.as_slice())?;
        Ok(())
    }
}
