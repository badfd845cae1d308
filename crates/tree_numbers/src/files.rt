// The nodes of the parts of files.

use crate::declarations::number_in_spec;
use crate::expressions::number_in_expr;
use crate::numbered::{Numbered, number_each, number_option, number_three, number_two};
use crate::numbers::Counting;
use crate::statements::number_in_stmts;
use st_tree::{
    Body, Config, Fields, FilePart, Globals, Parameter, ProgramLine, Resource, Shape, Task, Tasks,
    TypeDecl, Types, Unit, UnitKind,
};
use station_ports::outside::NoMemory;

impl Numbered for Body {
    ghost use Rattle.tree_numbers.specs.steps.Counted.{counted_body};

    ghost counted = { counted_body };

    fn number(&mut self, counting: &mut Counting<'_>) -> Result<(), NoMemory> {
        match self {
            Body::Statements(statements) => number_in_stmts(statements, counting),
            Body::Chart(chart) => chart.number(counting),
        }
    }
}

impl Numbered for UnitKind {
    ghost use Rattle.tree_numbers.specs.steps.Counted.{counted_unit_kind};

    ghost counted = { counted_unit_kind };

    fn number(&mut self, counting: &mut Counting<'_>) -> Result<(), NoMemory> {
        match self {
            UnitKind::Function(name) => name.number(counting),
            UnitKind::Block => Ok(()),
            UnitKind::Program => Ok(()),
        }
    }
}

impl Numbered for Unit {
    ghost use Rattle.tree_numbers.specs.steps.Counted.{counted_unit};

    ghost counted = { counted_unit };

    fn number(&mut self, counting: &mut Counting<'_>) -> Result<(), NoMemory> {
        number_three(&mut self.node, &mut self.name, &mut self.kind, counting)?;
        number_each(&mut self.sections, counting)?;
        self.body.number(counting)
    }
}

impl Numbered for Fields {
    ghost use Rattle.tree_numbers.specs.steps.Counted.{counted_fields};

    ghost counted = { counted_fields };

    fn number(&mut self, counting: &mut Counting<'_>) -> Result<(), NoMemory> {
        counting.number(&mut self.node)?;
        number_each(&mut self.names, counting)?;
        number_in_spec(&mut self.spec, counting)?;
        number_option(&mut self.init, counting)
    }
}

impl Numbered for Shape {
    ghost use Rattle.tree_numbers.specs.steps.Counted.{counted_shape};

    ghost counted = { counted_shape };

    fn number(&mut self, counting: &mut Counting<'_>) -> Result<(), NoMemory> {
        match self {
            Shape::Spec(kind) => number_in_spec(kind, counting),
            Shape::Structure(node, members) => {
                counting.number(node)?;
                number_each(members, counting)
            }
        }
    }
}

impl Numbered for TypeDecl {
    ghost use Rattle.tree_numbers.specs.steps.Counted.{counted_type_decl};

    ghost counted = { counted_type_decl };

    fn number(&mut self, counting: &mut Counting<'_>) -> Result<(), NoMemory> {
        number_three(&mut self.node, &mut self.name, &mut self.shape, counting)?;
        number_option(&mut self.init, counting)
    }
}

impl Numbered for Types {
    ghost use Rattle.tree_numbers.specs.steps.Counted.{counted_types};

    ghost counted = { counted_types };

    fn number(&mut self, counting: &mut Counting<'_>) -> Result<(), NoMemory> {
        counting.number(&mut self.node)?;
        number_each(&mut self.decls, counting)
    }
}

impl Numbered for Globals {
    ghost use Rattle.tree_numbers.specs.steps.Counted.{counted_globals};

    ghost counted = { counted_globals };

    fn number(&mut self, counting: &mut Counting<'_>) -> Result<(), NoMemory> {
        counting.number(&mut self.node)?;
        number_each(&mut self.decls, counting)
    }
}

impl Numbered for Parameter {
    ghost use Rattle.tree_numbers.specs.steps.Counted.{counted_parameter};

    ghost counted = { counted_parameter };

    fn number(&mut self, counting: &mut Counting<'_>) -> Result<(), NoMemory> {
        number_three(&mut self.node, &mut self.name, &mut self.value, counting)
    }
}

impl Numbered for Task {
    ghost use Rattle.tree_numbers.specs.steps.Counted.{counted_task};

    ghost counted = { counted_task };

    fn number(&mut self, counting: &mut Counting<'_>) -> Result<(), NoMemory> {
        number_two(&mut self.node, &mut self.name, counting)?;
        number_each(&mut self.parameters, counting)
    }
}

impl Numbered for ProgramLine {
    ghost use Rattle.tree_numbers.specs.steps.Counted.{counted_program_line};

    ghost counted = { counted_program_line };

    fn number(&mut self, counting: &mut Counting<'_>) -> Result<(), NoMemory> {
        number_two(&mut self.node, &mut self.name, counting)?;
        number_option(&mut self.task, counting)?;
        self.program.number(counting)
    }
}

impl Numbered for Tasks {
    ghost use Rattle.tree_numbers.specs.steps.Counted.{counted_tasks};

    ghost counted = { counted_tasks };

    fn number(&mut self, counting: &mut Counting<'_>) -> Result<(), NoMemory> {
        number_each(&mut self.tasks, counting)?;
        number_each(&mut self.lines, counting)
    }
}

impl Numbered for Resource {
    ghost use Rattle.tree_numbers.specs.steps.Counted.{counted_resource};

    ghost counted = { counted_resource };

    fn number(&mut self, counting: &mut Counting<'_>) -> Result<(), NoMemory> {
        number_three(&mut self.node, &mut self.name, &mut self.kind, counting)?;
        number_each(&mut self.globals, counting)?;
        self.tasks.number(counting)
    }
}

impl Numbered for Config {
    ghost use Rattle.tree_numbers.specs.steps.Counted.{counted_config};

    ghost counted = { counted_config };

    fn number(&mut self, counting: &mut Counting<'_>) -> Result<(), NoMemory> {
        number_two(&mut self.node, &mut self.name, counting)?;
        number_each(&mut self.globals, counting)?;
        number_each(&mut self.resources, counting)?;
        self.tasks.number(counting)
    }
}

impl Numbered for FilePart {
    ghost use Rattle.tree_numbers.specs.steps.Counted.{counted_file_part};

    ghost counted = { counted_file_part };

    fn number(&mut self, counting: &mut Counting<'_>) -> Result<(), NoMemory> {
        match self {
            FilePart::Unit(unit) => unit.number(counting),
            FilePart::Types(types) => types.number(counting),
            FilePart::Globals(globals) => globals.number(counting),
            FilePart::Config(config) => config.number(counting),
        }
    }
}
