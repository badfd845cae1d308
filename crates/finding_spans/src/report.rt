// The report as data.

use iec_tables::fault::FaultCode;
use iec_tables::kind::Kind;
use st_tree::{PlanRefusal, Site};
use station_ports::texts::Name;
use tree_items::Items;

/// The number of alarms of a report.
#[derive(Clone, Copy, Debug, PartialEq, Eq)]
pub struct AlarmCount {
    pub count: u64,
}

/// Why a file is refused: the fault, and its place, counted from 1.
#[derive(Drop)]
pub struct Refusal {
    pub file: Name,
    pub line: u32,
    pub column: u32,
    pub code: FaultCode,
}

/// What a report says of a project.
#[derive(Drop)]
pub enum Verdict {
    Free,
    Alarms(AlarmCount),
    Refused(Refusal),
    NotAnalysed(PlanRefusal),
}

/// A possible run-time fault: its kind, the unit and the subject that it is reported under (with ASCII letters raised), its node, and
/// the hull of the values that may bring it about.
#[derive(Drop)]
pub struct Alarm {
    pub kind: Kind,
    pub unit: Name,
    pub subject: Name,
    pub site: Site,
    pub low: i128,
    pub high: i128,
}

/// What is reported at a place of a file, counted from 1.
#[derive(Drop)]
pub struct Entry<T> {
    pub item: T,
    pub file: Name,
    pub line: u32,
    pub column: u32,
}

/// The range of a variable, under its path with ASCII letters raised.
#[derive(Drop)]
pub struct RangeLine {
    pub name: Name,
    pub low: i128,
    pub high: i128,
}

/// The report of a project: its alarms by file, node and kind, the ranges of its variables, and how many alarms are open and waived.
#[derive(Drop)]
pub struct Report {
    pub verdict: Verdict,
    pub alarms: Items<Entry<Alarm>>,
    pub ranges: Items<RangeLine>,
    pub open_count: u64,
    pub waived_count: u64,
}
