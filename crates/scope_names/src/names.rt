// The names that scopes declare, in one sorted table.
ghost use Rattle.std.specs.Prelude.{◌≡◌, ◌↔◌, ◌≤◌, IsTrue, MatchOption, length};
ghost use Rattle.std.specs.List.Sorted.{IsPermutation, IsSorted};
ghost use Rattle.std.specs.Option.{option_copied};
ghost use Rattle.scope_names.specs.Scopes.{Declares, IsNowhere, IsFirst, IsLast, IsRun, Repeats, first_of, name_cmp, row_cmp};
ghost use Rattle.scope_names.specs.Searches.{IsStart, IsEnd};

use crate::letters::{compare_names, is_same_name};
use st_tree::{Node, Site};
use std::cmp::Ordering;
use std::marker::Model;

/// A name that a scope declares.
#[derive(Clone, Copy, Debug)]
pub struct NameRow<'t, W: Copy> {
    /// The number of the scope.
    pub scope: u32,
    /// The bytes of the name as they are written.
    pub name: &'t [u8],
    /// Where the name is declared.
    pub site: Site,
    /// The node of the name.
    pub node: Node,
    /// What the name stands for.
    pub what: W,
}

/// The names of scopes. To contracts it is the list of the rows in order of scope, name with its letters raised, file
/// and node number.
#[derive(Drop)]
pub struct Names<'t, W: Copy> {
    rows: Vec<NameRow<'t, W>>,
}

impl<'t, W: Copy> Model for Names<'t, W> {
    ghost use Rattle.std.specs.Prelude.{List};
    ghost use Rattle.std.specs.List.Sorted.{IsSorted};
    ghost use Rattle.scope_names.specs.declared.names.NameRow.{NameRow};
    ghost use Rattle.scope_names.specs.Scopes.{row_cmp};

    ghost Value = { List (NameRow W) };

    ghost view = { λ s. s.rows.items };

    ghost invariant = { λ s. IsSorted row_cmp s.rows.items };
}

impl<'t, W: Copy> Names<'t, W> {
    /// Puts the rows in order, in place. Of rows that agree in scope, name and site, which one comes first is not said.
    pub fn of(rows: Vec<NameRow<'t, W>>) -> Names<'t, W>
        ensures permutation { IsPermutation rows.entry.items result }
        ensures sorted { IsSorted row_cmp result }
    {
        let mut rows = rows;
        rows.sort_unstable_by(|a, b| compare_rows(a, b));
        Names { rows }
    }

    /// All rows, in order.
    pub fn rows(&self) -> &[NameRow<'t, W>]
        ensures all { result.now ≡ self.now }
        ensures sorted { IsSorted row_cmp result.now }
    {
        &self.rows
    }

    /// The first declaration of a name in a scope, by file and node number, or None where the scope has none of that name.
    /// Of several at one site it is the first in the order of all rows.
    pub fn find(&self, scope: u32, name: &[u8]) -> Option<&NameRow<'t, W>>
        ensures first { MatchOption result (IsNowhere self.now scope name.now) (λ row. IsFirst self.now scope name.now row.now) }
        ensures exact { option_copied result ≡ first_of self.now scope name.now }
    {
        find_first(&self.rows, scope, name)
    }

    /// The last declaration of a name in a scope, by file and node number, or None where the scope has none of that name.
    /// Of several at one site it is one of them.
    pub fn last(&self, scope: u32, name: &[u8]) -> Option<&NameRow<'t, W>>
        ensures { MatchOption result (IsNowhere self.now scope name.now) (λ row. IsLast self.now scope name.now row.now) }
    {
        find_last(&self.rows, scope, name)
    }

    /// All declarations of a name in a scope, in order of file and node number.
    pub fn all(&self, scope: u32, name: &[u8]) -> &[NameRow<'t, W>]
        ensures { IsRun self.now scope name.now result.now }
    {
        find_all(&self.rows, scope, name)
    }

    /// Whether a row before the one at this place declares the same name in the same scope, so that the one at this place
    /// is a further declaration. False where there is no row at this place.
    pub fn repeats(&self, at: usize) -> bool
        ensures { IsTrue result ↔ Repeats self.now at }
    {
        is_repeated(&self.rows, at)
    }
}

fn find_first<'s, 't, W: Copy>(
    rows: &'s [NameRow<'t, W>],
    scope: u32,
    name: &[u8],
) -> Option<&'s NameRow<'t, W>>
    requires { IsSorted row_cmp rows.now }
    ensures first { MatchOption result (IsNowhere rows.now scope name.now) (λ row. IsFirst rows.now scope name.now row.now) }
    ensures exact { option_copied result ≡ first_of rows.now scope name.now }
{
    let start = start_of(rows, scope, name);
    if start == rows.len() {
        return None;
    }
    let row = &rows[start];
    if declares(row, scope, name) {
        Some(row)
    } else {
        None
    }
}

fn find_last<'s, 't, W: Copy>(
    rows: &'s [NameRow<'t, W>],
    scope: u32,
    name: &[u8],
) -> Option<&'s NameRow<'t, W>>
    requires { IsSorted row_cmp rows.now }
    ensures { MatchOption result (IsNowhere rows.now scope name.now) (λ row. IsLast rows.now scope name.now row.now) }
{
    let end = end_of(rows, scope, name);
    if end == 0 {
        return None;
    }
    let row = &rows[end - 1];
    if declares(row, scope, name) {
        Some(row)
    } else {
        None
    }
}

fn find_all<'s, 't, W: Copy>(
    rows: &'s [NameRow<'t, W>],
    scope: u32,
    name: &[u8],
) -> &'s [NameRow<'t, W>]
    requires { IsSorted row_cmp rows.now }
    ensures { IsRun rows.now scope name.now result.now }
{
    let rest = &rows[start_of(rows, scope, name)..];
    &rest[..end_of(rest, scope, name)]
}

fn is_repeated<W: Copy>(rows: &[NameRow<'_, W>], at: usize) -> bool
    requires { IsSorted row_cmp rows.now }
    ensures { IsTrue result ↔ Repeats rows.now at }
{
    if at == 0 || at >= rows.len() {
        return false;
    }
    let row = &rows[at];
    declares(&rows[at - 1], row.scope, row.name)
}

// The place of the first row that isn't before the name in the scope.
fn start_of<W: Copy>(rows: &[NameRow<'_, W>], scope: u32, name: &[u8]) -> usize
    requires { IsSorted row_cmp rows.now }
    ensures bound { result ≤ length rows.now }
    ensures starts { IsStart scope name.now rows.now result }
{
    rows.partition_point(|row| compare_to_name(row, scope, name).is_lt())
}

// The place behind the last row that isn't behind the name in the scope.
fn end_of<W: Copy>(rows: &[NameRow<'_, W>], scope: u32, name: &[u8]) -> usize
    requires { IsSorted row_cmp rows.now }
    ensures bound { result ≤ length rows.now }
    ensures ends { IsEnd scope name.now rows.now result }
{
    rows.partition_point(|row| compare_to_name(row, scope, name).is_le())
}

fn declares<W: Copy>(row: &NameRow<'_, W>, scope: u32, name: &[u8]) -> bool
    ensures { IsTrue result ↔ Declares scope name.now row.now }
{
    row.scope == scope && is_same_name(row.name, name)
}

// By scope, name with its letters raised, file and node number.
fn compare_rows<W: Copy>(a: &NameRow<'_, W>, b: &NameRow<'_, W>) -> Ordering
    ensures { result ≡ row_cmp a.now b.now }
{
    match compare_to_name(a, b.scope, b.name) {
        Ordering::Equal => match a.site.file.cmp(&b.site.file) {
            Ordering::Equal => a.site.node.0.cmp(&b.site.node.0),
            unequal => unequal,
        },
        unequal => unequal,
    }
}

// A row against a name in a scope.
fn compare_to_name<W: Copy>(row: &NameRow<'_, W>, scope: u32, name: &[u8]) -> Ordering
    ensures { result ≡ name_cmp row.now.scope row.now.name.now scope name.now }
{
    match row.scope.cmp(&scope) {
        Ordering::Equal => compare_names(row.name, name),
        unequal => unequal,
    }
}
