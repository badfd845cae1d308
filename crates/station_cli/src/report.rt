// The report on a file: its text is cut into tokens, parsed, planned and analysed.

ghost use Rattle.std.specs.Prelude.{◌≡◌, ℕ, List, ◌++◌, ◌≤◌, IfOk, OnOk, length, flat_map};
ghost use Rattle.std.specs.List.{AllByRecursion, Contains};
ghost use Rattle.first_form.specs.Nodes.{IsNumbered};
ghost use Rattle.first_form.specs.declared.tree.Unit.{Unit as SourceUnit};
ghost use Rattle.station_cli.specs.Reports.{IsCounted, IsOfAnalysis};
ghost use Rattle.station_cli.specs.Report.{IsReport, IsRefusal, IsReportOf, IsUnder, subject};
ghost use Rattle.st_tree.specs.declared.plan.PlanRefusal.TheVariants as Reason;
ghost use Rattle.st_units.specs.SourceTrees.{IsTreeOf, IsFaultOf};
ghost use Rattle.station_cli.specs.steps.Parsing.{IsAnalysable, IsParsed};
ghost use Rattle.station_cli.specs.steps.Lines.{AreEntriesOf, IsAlarmOf, IsEntryOf, IsInBody, lines_of, range_line};

use cycle_analysis::{Solution, solve};
use finding_spans::{
    Alarm, AlarmCount, Entry, RangeLine, Refusal, Report, Verdict, line_of, place, statement_of,
};
use first_form::{SourceTree, Stmt, first_form, form_laws};
use iec_tables::fault::FaultCode;
use interval_domain::grid::Grid;
use interval_domain::interval::Interval;
use st_lexer::{LexFault, cut_laws};
use st_tree::{CellInfo, Component, Hit, NodeNo, PlanRefusal, SourceTree as SourceFile};
use st_units::{ParseFault, file_laws, parse_file};
use station_ports::outside::NoMemory;
use station_ports::steps::Steps;
use station_ports::texts::{FileText, Name};
use std::alloc::{AllocError, Global};
use std::sync::ledger::Ledger;
use task_config::plan;
use tree_items::Items;
use tree_order::order_laws;

/// The report on a file of that name.
pub(crate) fn report_on<L: Ledger>(
    alloc: Global,
    name: &str,
    text: &FileText,
    steps: &mut Steps<L>,
) -> Result<Report, NoMemory>
    ensures { IfOk result (λ report. IsReport name.now text.now report) }
{
    match tree_of(alloc, text, steps)? {
        Parsed::Tree(tree) => analysed(alloc, name, &tree, steps),
        Parsed::Fault(fault) => Ok(refused(alloc, name, text, fault)?),
        Parsed::Other => Ok(not_built(alloc)),
    }
}

/// What a text is parsed to.
#[derive(Drop)]
enum Parsed {
    /// The tree of the form whose analysis is built.
    Tree(SourceTree),
    Fault(Fault),
    /// A file of another form.
    Other,
}

/// A fault and its place in bytes.
#[derive(Clone, Copy)]
struct Fault {
    code: FaultCode,
    at: usize,
}

/// The tree of a text, or the fault for which it is refused.
fn tree_of<L: Ledger>(
    alloc: Global,
    text: &FileText,
    steps: &mut Steps<L>,
) -> Result<Parsed, NoMemory>
    ensures { IfOk result (IsParsed text.now) }
{
    cut_laws();
    file_laws();
    match parse_file(alloc, text.bytes(), steps) {
        Ok(file) => first_tree(alloc, &file),
        Err(ParseFault::At { code, at }) => Ok(Parsed::Fault(Fault { code, at })),
        Err(ParseFault::Lex(LexFault::At { code, at })) => Ok(Parsed::Fault(Fault { code, at })),
        Err(ParseFault::Lex(LexFault::NoMemory) | ParseFault::NoMemory) => Err(NoMemory),
    }
}

/// The tree of the form whose analysis is built, of the tree of a text.
fn first_tree(alloc: Global, file: &SourceFile) -> Result<Parsed, NoMemory>
    ensures { IfOk result (λ parsed. (text : List ℕ) → IsTreeOf text file.now
        → length text ≤ 1048576 →
        IsParsed text parsed) }
{
    form_laws();
    order_laws();
    match first_form(alloc, file)? {
        Some(tree) => Ok(Parsed::Tree(tree)),
        None => Ok(Parsed::Other),
    }
}

/// The report on a file whose analysis isn't built.
fn not_built(alloc: Global) -> Report
    ensures verdict { result.verdict ≡ Verdict.NotAnalysed Reason.NotBuilt }
    ensures counted { IsCounted result }
    ensures waived { result.waived_count ≡ 0 }
{
    Report {
        verdict: Verdict::NotAnalysed(PlanRefusal::NotBuilt),
        alarms: Items::new(alloc),
        ranges: Items::new(alloc),
        open_count: 0,
        waived_count: 0,
    }
}

/// The report on a file that is refused for a fault at a byte.
fn refused(alloc: Global, name: &str, text: &FileText, fault: Fault) -> Result<Report, AllocError>
    ensures { IsFaultOf text.now fault.code fault.at → fault.at ≤ length text.now
        → IfOk result (λ report. IsRefusal name.now text.now report) }
{
    let bytes = text.bytes();
    let position = line_of(bytes, fault.at.min(bytes.len()));
    Ok(Report {
        verdict: Verdict::Refused(Refusal {
            file: name_of(alloc, name.as_bytes())?,
            line: position.line,
            column: position.column,
            code: fault.code,
        }),
        alarms: Items::new(alloc),
        ranges: Items::new(alloc),
        open_count: 0,
        waived_count: 0,
    })
}

/// The report on a file that is analysed.
fn analysed<L: Ledger>(
    alloc: Global,
    name: &str,
    tree: &SourceTree,
    steps: &mut Steps<L>,
) -> Result<Report, NoMemory>
    requires { length tree.now.units ≡ 1 }
    ensures { IfOk result (λ report. (text : List ℕ) → IsAnalysable text tree.now
        → IsReportOf name.now text tree.now report) }
{
    let component = plan(alloc, tree)?;
    let grid = Grid::of(alloc, component.literals.as_slice())?;
    let solution = solve(alloc, &component, &grid, steps)?;
    let alarms = alarm_entries(alloc, name, tree, &solution.alarms)?;
    let ranges = range_lines(alloc, &component, &solution)?;
    Ok(report_of(alarms, ranges))
}

/// The report of these alarms, all open, and these ranges.
fn report_of(alarms: Items<Entry<Alarm>>, ranges: Items<RangeLine>) -> Report
    ensures alarms { result.alarms ≡ alarms }
    ensures ranges { result.ranges ≡ ranges }
    ensures counted { IsCounted result }
    ensures analysed { IsOfAnalysis result.verdict }
    ensures waived { result.waived_count ≡ 0 }
{
    let count = alarms.len() as u64;
    let verdict = if count == 0 {
        Verdict::Free
    } else {
        Verdict::Alarms(AlarmCount { count })
    };
    Report {
        verdict,
        alarms,
        ranges,
        open_count: count,
        waived_count: 0,
    }
}

/// The alarms with their units, subjects and places.
fn alarm_entries(
    alloc: Global,
    name: &str,
    tree: &SourceTree,
    hits: &[Hit],
) -> Result<Items<Entry<Alarm>>, AllocError>
    ensures { IfOk result (λ entries. (text : List ℕ) (is : IsAnalysable text tree.now) →
        AllByRecursion (λ hit. IsInBody is.unit hit.site.node) hits.now → AreEntriesOf name.now text
        tree.now is.unit hits.now entries) }
{
    let mut entries = Items::new(alloc);
    for hit in hits {
        entries.push(entry_of(alloc, name, tree, *hit)?)?;
    }
    Ok(entries)
}

/// An alarm with its unit, subject and place.
fn entry_of(
    alloc: Global,
    name: &str,
    tree: &SourceTree,
    hit: Hit,
) -> Result<Entry<Alarm>, AllocError>
    ensures { IfOk result (λ entry. (text : List ℕ) (is : IsAnalysable text tree.now)
        → IsInBody is.unit hit.site.node →
        IsEntryOf name.now text tree.now is.unit hit entry) }
{
    let span = place(tree, hit.site.node);
    Ok(Entry {
        item: alarm_of(alloc, tree, hit)?,
        file: name_of(alloc, name.as_bytes())?,
        line: span.line,
        column: span.column,
    })
}

/// An alarm under its unit and the first name of the path that its statement assigns.
fn alarm_of(alloc: Global, tree: &SourceTree, hit: Hit) -> Result<Alarm, AllocError>
    ensures alarm { IfOk result (λ alarm. IsAlarmOf hit alarm) }
    ensures under { IfOk result (λ alarm. IsNumbered tree.now → (unit : SourceUnit) → Contains tree.now.units
        unit → IsInBody unit hit.site.node →
        IsUnder unit alarm) }
{
    let (unit, subject) = unit_and_subject(tree, hit.site.node);
    Ok(Alarm {
        kind: hit.kind,
        unit: name_of(alloc, unit)?,
        subject: name_of(alloc, subject)?,
        site: hit.site,
        low: hit.low,
        high: hit.high,
    })
}

/// The name of the unit and the first name of the assigned path of the statement that holds a node.
fn unit_and_subject(tree: &SourceTree, node: NodeNo) -> (&[u8], &[u8])
    ensures { IsNumbered tree.now → (unit : SourceUnit) → Contains tree.now.units unit
        → (in_body : IsInBody unit node) →
        (result.0.now ≡ unit.name.name) × (result.1.now ≡ subject in_body.stmt) }
{
    match statement_of(tree, node) {
        Some((unit, statement)) => (unit.name.name.bytes(), subject_of(statement)),
        None => (b"".as_slice(), b"".as_slice()),
    }
}

/// The first name of the path that a statement assigns.
fn subject_of(statement: &Stmt) -> &[u8]
    ensures { result.now ≡ subject statement.now }
{
    match statement {
        Stmt::Assign(_, target, _) => target.root.name.bytes(),
    }
}

/// The ranges of the cells: those that are shared first, then those of the tasks.
fn range_lines(
    alloc: Global,
    component: &Component,
    solution: &Solution,
) -> Result<Items<RangeLine>, AllocError>
    ensures { IfOk result
        (λ lines. lines ≡ lines_of component.now.shared solution.now.ranges.shared.items
        ++ flat_map (λ task. lines_of task.cells solution.now.ranges.own.items) component.now.tasks) }
{
    let mut lines = Items::new(alloc);
    add_lines(
        alloc,
        component.shared.as_slice(),
        &solution.ranges.shared,
        &mut lines,
    )?;
    for task in component.tasks.as_slice() {
        add_lines(
            alloc,
            task.cells.as_slice(),
            &solution.ranges.own,
            &mut lines,
        )?;
    }
    Ok(lines)
}

/// A line for each of these cells.
fn add_lines(
    alloc: Global,
    cells: &[CellInfo],
    ranges: &[Interval],
    lines: &mut Items<RangeLine>,
) -> Result<(), AllocError>
    ensures { OnOk result (lines.new ≡ lines.old ++ lines_of cells.now ranges.now) }
{
    for (cell, range) in cells.iter().zip(ranges) {
        lines.push(range_line(alloc, cell, *range)?)?;
    }
    Ok(())
}

/// The line of a cell. A cell has its start value, so that its range is never empty.
fn range_line(alloc: Global, cell: &CellInfo, range: Interval) -> Result<RangeLine, AllocError>
    ensures { IfOk result (λ line. line ≡ range_line cell.now range) }
{
    let (low, high) = range.bounds().unwrap_or((cell.start, cell.start));
    Ok(RangeLine {
        name: name_of(alloc, cell.path.bytes())?,
        low,
        high,
    })
}

fn name_of(alloc: Global, bytes: &[u8]) -> Result<Name, AllocError>
    ensures { IfOk result (λ name. name ≡ bytes.now) }
{
    Ok(Name::from_vec(bytes.to_vec(alloc)?))
}
