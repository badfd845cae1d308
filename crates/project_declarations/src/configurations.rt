// Configurations: their global variables, tasks and program lines.

ghost use Rattle.std.specs.Prelude.{◌≡◌, [], map, flat_map, OnOk};
ghost use Rattle.project_declarations.specs.Named as names;
ghost use Rattle.project_declarations.specs.Declarations as declared;
ghost use Rattle.project_declarations.specs.Rows.{Adds};

use crate::collected::{Collected, site_of};
use crate::rows::What;
use crate::scopes::{LINES, TASKS};
use st_tree::{Config, Globals, ProgramLine, Resource, Task, Tasks};
use std::alloc::AllocError;

impl<'t> Collected<'t> {
    pub(crate) fn all_globals(&mut self, file: u16, list: &'t [Globals]) -> Result<(), AllocError>
        ensures { OnOk result (Adds self.old self.new [] (flat_map (declared.globals_decls file) list.now)
            (flat_map (names.globals_names file) list.now)) }
    {
        for globals in list {
            self.globals(file, globals)?;
        }
        Ok(())
    }

    fn all_tasks(&mut self, file: u16, list: &'t [Task]) -> Result<(), AllocError>
        ensures { OnOk result (Adds self.old self.new [] [] (map (names.task_name file) list.now)) }
    {
        for task in list {
            self.name(
                file,
                TASKS,
                &task.name,
                What::Task(site_of(file, task.node)),
            )?;
        }
        Ok(())
    }

    fn all_lines(&mut self, file: u16, list: &'t [ProgramLine]) -> Result<(), AllocError>
        ensures { OnOk result (Adds self.old self.new [] [] (map (names.line_name file) list.now)) }
    {
        for line in list {
            self.name(
                file,
                LINES,
                &line.name,
                What::Line(site_of(file, line.node)),
            )?;
        }
        Ok(())
    }

    fn tasks(&mut self, file: u16, tasks: &'t Tasks) -> Result<(), AllocError>
        ensures { OnOk result (Adds self.old self.new [] [] (names.tasks_names file tasks.now)) }
    {
        self.all_tasks(file, tasks.tasks.as_slice())?;
        self.all_lines(file, tasks.lines.as_slice())?;
        Ok(())
    }

    fn resource(&mut self, file: u16, resource: &'t Resource) -> Result<(), AllocError>
        ensures { OnOk result (Adds self.old self.new [] (declared.resource_decls file resource.now)
            (names.resource_names file resource.now)) }
    {
        self.all_globals(file, resource.globals.as_slice())?;
        self.tasks(file, &resource.tasks)?;
        Ok(())
    }

    fn resources(&mut self, file: u16, list: &'t [Resource]) -> Result<(), AllocError>
        ensures { OnOk result (Adds self.old self.new []
            (flat_map (declared.resource_decls file) list.now)
            (flat_map (names.resource_names file) list.now)) }
    {
        for resource in list {
            self.resource(file, resource)?;
        }
        Ok(())
    }

    /// A configuration.
    pub(crate) fn config(&mut self, file: u16, config: &'t Config) -> Result<(), AllocError>
        ensures { OnOk result (Adds self.old self.new [] (declared.config_decls file config.now)
            (names.config_names file config.now)) }
    {
        self.all_globals(file, config.globals.as_slice())?;
        self.resources(file, config.resources.as_slice())?;
        self.tasks(file, &config.tasks)?;
        Ok(())
    }
}
