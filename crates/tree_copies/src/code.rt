// Copies of the code of tasks.

ghost use Rattle.std.specs.Prelude.{◌≡◌, map, IfOk};
ghost use Rattle.st_tree.specs.Code.{Done, reading};
ghost use Rattle.tree_copies.specs.CodeCopies.{IsComponentCopy, task_reading};
ghost use Rattle.tree_copies.specs.steps.Reversed.{reversed_onto};

use crate::copied::Copied;
use crate::results::both;
use st_tree::{CellInfo, Code, Component, TaskCode};
use station_ports::outside::NoMemory;
use std::alloc::Global;
use tree_items::Items;

impl Copied for CellInfo {
    fn copy(&self, alloc: Global) -> Result<Self, NoMemory> {
        Ok(CellInfo {
            path: self.path.copy(alloc)?,
            elem: self.elem,
            start: self.start,
        })
    }
}

/// The same instructions, the last one first. Code may be long, so it is gone through by a loop.
fn reversed(alloc: Global, code: &Code) -> Result<Code, NoMemory>
    ensures { IfOk result (λ t. reading t ≡ reversed_onto (reading code.now) Done) }
{
    let mut made = Code::Done;
    let mut rest = code;
    loop {
        match rest {
            Code::Done => return Ok(made),
            Code::Literal(number, behind) => {
                made = Code::Literal(*number, Box::new(alloc, made)?);
                rest = behind;
            }
            Code::Read(cell, behind) => {
                made = Code::Read(*cell, Box::new(alloc, made)?);
                rest = behind;
            }
            Code::Operate(operation, behind) => {
                made = Code::Operate(*operation, Box::new(alloc, made)?);
                rest = behind;
            }
            Code::Write(cell, behind) => {
                made = Code::Write(*cell, Box::new(alloc, made)?);
                rest = behind;
            }
        }
    }
}

/// Code of the same instructions. NoMemory where there is none for the copy.
#[tactic(auto, using(crate::proofs::ReversedTwice::reversed_twice))]
pub fn copy_code(alloc: Global, code: &Code) -> Result<Code, NoMemory>
    ensures { IfOk result (λ t. reading t ≡ reading code.now) }
{
    let last_first = reversed(alloc, code)?;
    reversed(alloc, &last_first)
}

/// A task of the same instructions and cells. NoMemory where there is none for the copy.
pub fn copy_task_code(alloc: Global, task: &TaskCode) -> Result<TaskCode, NoMemory>
    ensures { IfOk result (λ t. task_reading t ≡ task_reading task.now) }
{
    let (code, cells) = both(copy_code(alloc, &task.code), task.cells.copy(alloc))?;
    Ok(TaskCode { code, cells })
}

fn copy_tasks(alloc: Global, tasks: &[TaskCode]) -> Result<Items<TaskCode>, NoMemory>
    ensures { IfOk result (λ t. map task_reading t ≡ map task_reading tasks.now) }
{
    let mut made = Items::new(alloc);
    for task in tasks {
        made.push(copy_task_code(alloc, task)?)?;
    }
    Ok(made)
}

/// A component of the same instructions, cells and literals. NoMemory where there is none for the
/// copy.
pub fn copy_component(alloc: Global, component: &Component) -> Result<Component, NoMemory>
    ensures { IfOk result (λ t. IsComponentCopy component.now t) }
{
    let literals = Items::from_slice(alloc, component.literals.as_slice())?;
    let (tasks, shared) = both(
        copy_tasks(alloc, component.tasks.as_slice()),
        component.shared.copy(alloc),
    )?;
    Ok(Component {
        tasks,
        shared,
        literals,
    })
}
