// Copies of files and their parts.

use crate::copied::Copied;
use crate::results::{both, four, three};
use st_tree::{
    Body, Comment, Config, Fields, FilePart, Globals, Parameter, ProgramLine, Resource, Shape,
    SourceTree, Task, Tasks, TypeDecl, Types, Unit, UnitKind,
};
use station_ports::outside::NoMemory;
use std::alloc::Global;

impl Copied for Body {
    fn copy(&self, alloc: Global) -> Result<Self, NoMemory> {
        match self {
            Body::Statements(statements) => Ok(Body::Statements(statements.copy(alloc)?)),
            Body::Chart(chart) => Ok(Body::Chart(chart.copy(alloc)?)),
        }
    }
}

impl Copied for UnitKind {
    fn copy(&self, alloc: Global) -> Result<Self, NoMemory> {
        match self {
            UnitKind::Function(name) => Ok(UnitKind::Function(name.copy(alloc)?)),
            UnitKind::Block => Ok(UnitKind::Block),
            UnitKind::Program => Ok(UnitKind::Program),
        }
    }
}

impl Copied for Unit {
    fn copy(&self, alloc: Global) -> Result<Self, NoMemory> {
        let (name, kind, sections, body) = four(
            self.name.copy(alloc),
            self.kind.copy(alloc),
            self.sections.copy(alloc),
            self.body.copy(alloc),
        )?;
        Ok(Unit {
            node: self.node,
            name,
            kind,
            sections,
            body,
        })
    }
}

impl Copied for Fields {
    fn copy(&self, alloc: Global) -> Result<Self, NoMemory> {
        let (names, spec, init) = three(
            self.names.copy(alloc),
            self.spec.copy(alloc),
            self.init.copy(alloc),
        )?;
        Ok(Fields {
            node: self.node,
            names,
            spec,
            init,
        })
    }
}

impl Copied for Shape {
    fn copy(&self, alloc: Global) -> Result<Self, NoMemory> {
        match self {
            Shape::Spec(kind) => Ok(Shape::Spec(kind.copy(alloc)?)),
            Shape::Structure(node, members) => Ok(Shape::Structure(*node, members.copy(alloc)?)),
        }
    }
}

impl Copied for TypeDecl {
    fn copy(&self, alloc: Global) -> Result<Self, NoMemory> {
        let (name, shape, init) = three(
            self.name.copy(alloc),
            self.shape.copy(alloc),
            self.init.copy(alloc),
        )?;
        Ok(TypeDecl {
            node: self.node,
            name,
            shape,
            init,
        })
    }
}

impl Copied for Types {
    fn copy(&self, alloc: Global) -> Result<Self, NoMemory> {
        let decls = self.decls.copy(alloc)?;
        Ok(Types {
            node: self.node,
            decls,
        })
    }
}

impl Copied for Globals {
    fn copy(&self, alloc: Global) -> Result<Self, NoMemory> {
        let decls = self.decls.copy(alloc)?;
        Ok(Globals {
            node: self.node,
            keep: self.keep,
            decls,
        })
    }
}

impl Copied for Parameter {
    fn copy(&self, alloc: Global) -> Result<Self, NoMemory> {
        let (name, value) = both(self.name.copy(alloc), self.value.copy(alloc))?;
        Ok(Parameter {
            node: self.node,
            name,
            value,
        })
    }
}

impl Copied for Task {
    fn copy(&self, alloc: Global) -> Result<Self, NoMemory> {
        let (name, parameters) = both(self.name.copy(alloc), self.parameters.copy(alloc))?;
        Ok(Task {
            node: self.node,
            name,
            parameters,
        })
    }
}

impl Copied for ProgramLine {
    fn copy(&self, alloc: Global) -> Result<Self, NoMemory> {
        let (name, task, program) = three(
            self.name.copy(alloc),
            self.task.copy(alloc),
            self.program.copy(alloc),
        )?;
        Ok(ProgramLine {
            node: self.node,
            name,
            task,
            program,
        })
    }
}

impl Copied for Tasks {
    fn copy(&self, alloc: Global) -> Result<Self, NoMemory> {
        let (tasks, lines) = both(self.tasks.copy(alloc), self.lines.copy(alloc))?;
        Ok(Tasks { tasks, lines })
    }
}

impl Copied for Resource {
    fn copy(&self, alloc: Global) -> Result<Self, NoMemory> {
        let (name, kind, globals, tasks) = four(
            self.name.copy(alloc),
            self.kind.copy(alloc),
            self.globals.copy(alloc),
            self.tasks.copy(alloc),
        )?;
        Ok(Resource {
            node: self.node,
            name,
            kind,
            globals,
            tasks,
        })
    }
}

impl Copied for Config {
    fn copy(&self, alloc: Global) -> Result<Self, NoMemory> {
        let (name, globals, resources, tasks) = four(
            self.name.copy(alloc),
            self.globals.copy(alloc),
            self.resources.copy(alloc),
            self.tasks.copy(alloc),
        )?;
        Ok(Config {
            node: self.node,
            name,
            globals,
            resources,
            tasks,
        })
    }
}

impl Copied for FilePart {
    fn copy(&self, alloc: Global) -> Result<Self, NoMemory> {
        match self {
            FilePart::Unit(unit) => Ok(FilePart::Unit(unit.copy(alloc)?)),
            FilePart::Types(types) => Ok(FilePart::Types(types.copy(alloc)?)),
            FilePart::Globals(globals) => Ok(FilePart::Globals(globals.copy(alloc)?)),
            FilePart::Config(config) => Ok(FilePart::Config(config.copy(alloc)?)),
        }
    }
}

impl Copied for Comment {
    fn copy(&self, alloc: Global) -> Result<Self, NoMemory> {
        Ok(Comment {
            node: self.node,
            text: self.text.copy(alloc)?,
        })
    }
}

impl Copied for SourceTree {
    fn copy(&self, alloc: Global) -> Result<Self, NoMemory> {
        let ((units, types, globals), (config, comments, feeds)) = both(
            three(
                self.units.copy(alloc),
                self.types.copy(alloc),
                self.globals.copy(alloc),
            ),
            three(
                self.config.copy(alloc),
                self.comments.copy(alloc),
                self.feeds.copy(alloc),
            ),
        )?;
        Ok(SourceTree {
            units,
            types,
            globals,
            config,
            comments,
            feeds,
        })
    }
}
