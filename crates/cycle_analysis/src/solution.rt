// The least closed table of a component of one task, by plain rounds. No table is closed where reached code writes a number to a cell
// that isn't there; the parts of the contract that need it say so.

ghost use Rattle.std.specs.Prelude.{◌≡◌, [], ◌∷◌, IfOk, OnOk, IsPermutation, List, length, slice_get};
ghost use Rattle.st_tree.specs.Code.{reading};
ghost use Rattle.st_tree.specs.Writes.{WritesCells};
ghost use Rattle.st_tree.specs.declared.code.CellInfo.{CellInfo};
ghost use Rattle.st_tree.specs.declared.code.TaskCode.{TaskCode};
ghost use Rattle.cycle_analysis.specs.Fill.{all_noted, end_of, kept_of};
ghost use Rattle.cycle_analysis.specs.Table.{IsBelow, IsClosed, IsSolution, IsTableWithin, Part, pass_of, points};
ghost use Rattle.cycle_analysis.specs.Solved.{AreInOrder, HasRanges, IsLeastHead, IsRaisedFrom, IsRound, IsSolved, alarms_of, blank_of, head_of, pass_from, table_of};

use crate::row::Row;
use crate::task_pass::{Point, Told, pass};
use interval_domain::grid::Grid;
use interval_domain::interval::Interval;
use st_tree::{CellInfo, Component, Hit, TaskCode};
use station_ports::outside::NoMemory;
use station_ports::steps::Steps;
use std::alloc::{AllocError, Global};
use std::sync::ledger::Ledger;

/// What the analysis tells of a component: what holds at the start of each cycle, the rounded writes, the ranges of the cells, and the
/// alarms by node and kind.
#[derive(Drop)]
pub struct Solution {
    pub head: Row,
    pub writes: Row,
    pub ranges: Row,
    pub alarms: Vec<Hit>,
}

/// The solution of a component of one task. The grid is that of the component's literals. Counts a solve step a pass.
pub fn solve<L: Ledger>(
    alloc: Global,
    component: &Component,
    grid: &Grid,
    steps: &mut Steps<L>,
) -> Result<Solution, NoMemory>
    requires { length component.now.tasks ≡ 1 }
    ensures parsed { steps.new.parsed ≡ steps.old.parsed }
    ensures solution { IfOk result (λ s. WritesCells component.now → IsSolution grid.now component.now (table_of s ∷ [])) }
    ensures least { IfOk result (λ s. (other : List Part) → IsClosed grid.now component.now other → IsTableWithin (table_of s ∷ []) other) }
    ensures alarms { IfOk result (λ s. (task : TaskCode) → slice_get component.now.tasks 0 ≡ Some task → IsPermutation (alarms_of (pass_of task (table_of s ∷ []) 0).log) s.alarms.items) }
    ensures ordered { IfOk result (λ s. AreInOrder s.alarms.items) }
    ensures ranges { IfOk result (λ s. (task : TaskCode) → slice_get component.now.tasks 0 ≡ Some task → HasRanges component.now task s) }
{
    let task = &component.tasks.as_slice()[0];
    Ok(solve_task(alloc, task, component.shared.as_slice(), grid, steps)?)
}

fn solve_task<L: Ledger>(
    alloc: Global,
    task: &TaskCode,
    shared: &[CellInfo],
    grid: &Grid,
    steps: &mut Steps<L>,
) -> Result<Solution, AllocError>
    ensures parsed { steps.new.parsed ≡ steps.old.parsed }
    ensures solved { IfOk result (λ s. IsSolved grid.now task.now shared.now s) }
    ensures ordered { IfOk result (λ s. AreInOrder s.alarms.items) }
{
    let own = task.cells.as_slice();
    let starts = Row {
        own: start_intervals(alloc, own)?,
        shared: start_intervals(alloc, shared)?,
    };
    let mut head = Row::new(alloc, own.len(), shared.len())?;
    head.raise(grid, &starts);
    let mut told = Told {
        writes: Row::new(alloc, own.len(), shared.len())?,
        alarms: Vec::new(alloc),
    };
    close_head(alloc, task, &mut head, &mut told, grid, steps)?;
    let mut writes = Row::new(alloc, own.len(), shared.len())?;
    writes.raise(grid, &told.writes);
    let mut ranges = starts;
    ranges.join_all(&writes);
    let mut alarms = told.alarms;
    alarms.sort_unstable_by_key(|hit| (hit.site.file, hit.site.node.0, hit.kind.code()));
    Ok(Solution {
        head,
        writes,
        ranges,
        alarms,
    })
}

/// Rounds over the task until the head of its cycle holds each state at the end of a cycle. Each round but the last one moves a bound
/// of the head outward.
fn close_head<L: Ledger>(
    alloc: Global,
    task: &TaskCode,
    head: &mut Row,
    told: &mut Told,
    grid: &Grid,
    steps: &mut Steps<L>,
) -> Result<(), AllocError>
    ensures parsed { steps.new.parsed ≡ steps.old.parsed }
    ensures told { OnOk result (kept_of told.new ≡ all_noted (blank_of told.old) (pass_from (reading task.now.code) (head_of head.new)).log) }
    ensures turns { OnOk result (IsBelow grid.now (pass_from (reading task.now.code) (head_of head.new)).state (head_of head.new)) }
    ensures raised { OnOk result (IsRaisedFrom (head_of head.old) (head_of head.new)) }
    ensures least { (cells : List CellInfo) (shared : List CellInfo) → OnOk result (IsLeastHead grid.now (reading task.now.code) cells shared (head_of head.old) → IsLeastHead grid.now (reading task.now.code) cells shared (head_of head.new)) }
{
    let mut point = Point {
        state: Row::new(alloc, head.own.len(), head.shared.len())?,
        stack: Vec::new(alloc),
    };
    'rounds: while round(task, head, told, &mut point, grid, steps)? {}
    Ok(())
}

/// A pass from the head on, to whose end the head is raised. Tells whether it has grown.
fn round<L: Ledger>(
    task: &TaskCode,
    head: &mut Row,
    told: &mut Told,
    point: &mut Point,
    grid: &Grid,
    steps: &mut Steps<L>,
) -> Result<bool, AllocError>
    requires own { length point.old.state.own.items ≡ length head.old.own.items }
    requires shared { length point.old.state.shared.items ≡ length head.old.shared.items }
    ensures parsed { steps.new.parsed ≡ steps.old.parsed }
    ensures told { OnOk result (kept_of told.new ≡ all_noted (blank_of told.old) (pass_from (reading task.now.code) (head_of head.old)).log) }
    ensures round { IfOk result (λ grown. IsRound grid.now (pass_from (reading task.now.code) (head_of head.old)).state head.old head.new point.new.state grown) }
{
    steps.solve_step();
    let reached = pass_head(task, head, told, point)?;
    Ok(reached && head.raise(grid, &point.state))
}

/// A pass from the head on, that tells from nothing.
fn pass_head(
    task: &TaskCode,
    head: &Row,
    told: &mut Told,
    point: &mut Point,
) -> Result<bool, AllocError>
    requires own { length point.old.state.own.items ≡ length head.now.own.items }
    requires shared { length point.old.state.shared.items ≡ length head.now.shared.items }
    ensures told { OnOk result (kept_of told.new ≡ all_noted (blank_of told.old) (pass_from (reading task.now.code) (head_of head.now)).log) }
    ensures state { IfOk result (λ reached. end_of reached point.new.state ≡ (pass_from (reading task.now.code) (head_of head.now)).state) }
{
    told.writes.clear();
    told.alarms.clear();
    point.stack.clear();
    point.state.take_from(head);
    pass(&task.code, &[], point, told)
}

fn start_intervals(alloc: Global, cells: &[CellInfo]) -> Result<Vec<Interval>, AllocError>
    ensures { IfOk result (λ intervals. intervals.items ≡ points cells.now) }
{
    let mut intervals = Vec::with_capacity(alloc, cells.len())?;
    for cell in cells {
        intervals.push(Interval::single(cell.start))?;
    }
    Ok(intervals)
}
