// Rows of callers, as a keeper in memory is made from them.

use crate::edit::Edit;
use station_ports::texts::Name;
use tree_items::Items;

/// A project: its name, and its edits in order.
#[derive(Drop)]
pub struct ProjectRow {
    pub name: Name,
    pub edits: Items<Edit>,
}

/// A caller: its name, and its projects in order of creation.
#[derive(Drop)]
pub struct CallerRows {
    pub name: Name,
    pub projects: Items<ProjectRow>,
}

/// The rows of all callers.
#[derive(Drop)]
pub struct Rows {
    pub callers: Items<CallerRows>,
}
