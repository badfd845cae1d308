// Configurations, resources and tasks.

ghost use Rattle.std.specs.Prelude.{◌≡◌};
ghost use Rattle.token_grammar.specs.steps.Parsers.{Reads, view};
ghost use Rattle.st_declarations.specs.steps.Parse as spec;

use crate::declarations::GlobalsReader;
use crate::lists::{Reader, commas, each};
use st_expr::{any_expression, identifier, node_at, or_drop};
use st_tree::{Config, Identifier, Parameter, ProgramLine, Resource, Task, Tasks};
use std::alloc::Global;
use token_grammar::{Cursor, ParseError, TokenKind};
use tree_items::Items;

/// Reads a parameter of a task: `name ":=" expr`.
struct ParameterReader;

impl Reader<Parameter> for ParameterReader {
    ghost use Rattle.st_declarations.specs.steps.Parse.{parameter};

    ghost parser = { λ _. parameter };

    ghost ready = { λ _. Unit {0} };

    #[tactic(auto, unfolding(crate::specs::steps::Parse::parameter))]
    fn read(&self, alloc: Global, cursor: &mut Cursor<'_>) -> Result<Parameter, ParseError> {
        let start = cursor.start();
        let name = identifier(alloc, cursor)?;
        or_drop!(cursor.take(TokenKind::Becomes); name);
        let value = or_drop!(any_expression(alloc, cursor); name);
        Ok(Parameter {
            node: node_at(start, cursor.last),
            name,
            value,
        })
    }
}

/// `"(" name ":=" expr { "," name ":=" expr } ")"`
#[tactic(auto, unfolding(crate::specs::steps::Parse::parameters))]
fn parameters(alloc: Global, cursor: &mut Cursor<'_>) -> Result<Items<Parameter>, ParseError>
    ensures { Reads (spec.parameters (view cursor.old)) result (view cursor.new) }
{
    let depth = cursor.depth;
    cursor.enter(TokenKind::OpenParenthesis)?;
    let found = commas(alloc, cursor, &ParameterReader)?;
    or_drop!(cursor.take(TokenKind::CloseParenthesis); found);
    cursor.depth = depth;
    Ok(found)
}

/// Reads a task: `TASK name "(" parameters ")" ";"`.
struct TaskReader;

impl Reader<Task> for TaskReader {
    ghost use Rattle.st_declarations.specs.steps.Parse.{task};

    ghost parser = { λ _. task };

    ghost ready = { λ _. Unit {0} };

    #[tactic(auto, unfolding(crate::specs::steps::Parse::task))]
    fn read(&self, alloc: Global, cursor: &mut Cursor<'_>) -> Result<Task, ParseError> {
        let start = cursor.start();
        cursor.take(TokenKind::Task)?;
        let name = identifier(alloc, cursor)?;
        let parameters = or_drop!(parameters(alloc, cursor); name);
        or_drop!(cursor.take(TokenKind::Semicolon); name, parameters);
        Ok(Task {
            node: node_at(start, cursor.last),
            name,
            parameters,
        })
    }
}

/// `WITH name`
#[tactic(auto, unfolding(crate::specs::steps::Parse::with_task))]
fn with_task(alloc: Global, cursor: &mut Cursor<'_>) -> Result<Option<Identifier>, ParseError>
    ensures { Reads (spec.with_task (view cursor.old)) result (view cursor.new) }
{
    cursor.take(TokenKind::With)?;
    Ok(Some(identifier(alloc, cursor)?))
}

/// `[ WITH name ]`
#[tactic(auto, unfolding(crate::specs::steps::Parse::optional_task))]
fn optional_task(alloc: Global, cursor: &mut Cursor<'_>) -> Result<Option<Identifier>, ParseError>
    ensures { Reads (spec.optional_task (view cursor.old)) result (view cursor.new) }
{
    if cursor.sees(TokenKind::With) {
        with_task(alloc, cursor)
    } else {
        Ok(None)
    }
}

/// Reads a program line: `PROGRAM name [ WITH name ] ":" name ";"`.
struct ProgramLineReader;

impl Reader<ProgramLine> for ProgramLineReader {
    ghost use Rattle.st_declarations.specs.steps.Parse.{program_line};

    ghost parser = { λ _. program_line };

    ghost ready = { λ _. Unit {0} };

    #[tactic(auto, unfolding(crate::specs::steps::Parse::program_line))]
    fn read(&self, alloc: Global, cursor: &mut Cursor<'_>) -> Result<ProgramLine, ParseError> {
        let start = cursor.start();
        cursor.take(TokenKind::Program)?;
        let name = identifier(alloc, cursor)?;
        let task = or_drop!(optional_task(alloc, cursor); name);
        or_drop!(cursor.take(TokenKind::Colon); name, task);
        let program = or_drop!(identifier(alloc, cursor); name, task);
        or_drop!(cursor.take(TokenKind::Semicolon); name, task, program);
        Ok(ProgramLine {
            node: node_at(start, cursor.last),
            name,
            task,
            program,
        })
    }
}

/// `{ task } { program_line }`
#[tactic(auto, unfolding(crate::specs::steps::Parse::tasks))]
fn tasks(alloc: Global, cursor: &mut Cursor<'_>) -> Result<Tasks, ParseError>
    ensures { Reads (spec.tasks (view cursor.old)) result (view cursor.new) }
{
    let tasks = each(alloc, cursor, TokenKind::Task, &TaskReader)?;
    let lines = or_drop!(each(alloc, cursor, TokenKind::Program, &ProgramLineReader); tasks);
    Ok(Tasks { tasks, lines })
}

/// Reads a resource: `RESOURCE name ON name { globals } tasks END_RESOURCE`.
struct ResourceReader;

impl Reader<Resource> for ResourceReader {
    ghost use Rattle.st_declarations.specs.steps.Parse.{resource};

    ghost parser = { λ _. resource };

    ghost ready = { λ _. Unit {0} };

    #[tactic(auto, unfolding(crate::specs::steps::Parse::resource))]
    fn read(&self, alloc: Global, cursor: &mut Cursor<'_>) -> Result<Resource, ParseError> {
        let start = cursor.start();
        cursor.take(TokenKind::Resource)?;
        let name = identifier(alloc, cursor)?;
        or_drop!(cursor.take(TokenKind::On); name);
        let kind = or_drop!(identifier(alloc, cursor); name);
        let globals =
            or_drop!(each(alloc, cursor, TokenKind::VarGlobal, &GlobalsReader); name, kind);
        let tasks = or_drop!(tasks(alloc, cursor); name, kind, globals);
        or_drop!(cursor.take(TokenKind::EndResource); name, kind, globals, tasks);
        Ok(Resource {
            node: node_at(start, cursor.last),
            name,
            kind,
            globals,
            tasks,
        })
    }
}

/// `CONFIGURATION name { globals } { resource } tasks END_CONFIGURATION`
#[tactic(auto, unfolding(crate::specs::steps::Parse::config))]
pub fn config(alloc: Global, cursor: &mut Cursor<'_>) -> Result<Config, ParseError>
    ensures { Reads (spec.config (view cursor.old)) result (view cursor.new) }
{
    let start = cursor.start();
    cursor.take(TokenKind::Configuration)?;
    let name = identifier(alloc, cursor)?;
    let globals = or_drop!(each(alloc, cursor, TokenKind::VarGlobal, &GlobalsReader); name);
    let resources =
        or_drop!(each(alloc, cursor, TokenKind::Resource, &ResourceReader); name, globals);
    let tasks = or_drop!(tasks(alloc, cursor); name, globals, resources);
    or_drop!(cursor.take(TokenKind::EndConfiguration); name, globals, resources, tasks);
    Ok(Config {
        node: node_at(start, cursor.last),
        name,
        globals,
        resources,
        tasks,
    })
}
