// The places of nodes and bytes in a file.

ghost use Rattle.std.specs.Prelude.{◌≡◌, ◌≤◌, ◌<◌, ℕ, ◌+◌, true, false, List, [], ◌∷◌, ◌++◌, length, map, flat_map, Contains, Some, IsSomeAnd};
ghost use Rattle.std.specs.List.{find, filter};
ghost use Rattle.std.specs.Option.{option_copied};
ghost use Rattle.first_form.specs.declared.tree.Unit.{Unit as SourceUnit};
ghost use Rattle.first_form.specs.declared.tree.Stmt.{Stmt as Statement};
ghost use Rattle.st_tree.specs.Feeds.{feeds_from};
ghost use Rattle.first_form.specs.Nodes.{IsNumbered, nodes_of, unit_nodes, stmt_nodes, section_nodes, decl_nodes};
ghost use Rattle.finding_spans.specs.Places.{IsPosition, IsBehind, IsReportedAt, has_number, holds, last_of, holder_of, decl_holders, unit_holders, stmt_node};
ghost use Rattle.finding_spans.specs.Searches.{IsAmong, last_of_first};

use first_form::{Decl, Section, SourceTree, Stmt, Unit};
use st_tree::{Node, NodeNo};

/// A line and a column, counted from 1. Lines count line feeds, columns bytes.
#[derive(Clone, Copy, Debug, PartialEq, Eq)]
pub struct Position {
    pub line: u32,
    pub column: u32,
}

/// A place: the first byte and the byte after the last, counted from 0, and the position of the first.
#[derive(Clone, Copy, Debug, PartialEq, Eq)]
pub struct Span {
    pub start: usize,
    pub end: usize,
    pub line: u32,
    pub column: u32,
}

/// The position of a byte of a text, or of the text's end.
pub fn line_of(text: &[u8], at: usize) -> Position
    requires text { length text.now ≤ 1048576 }
    requires at { at ≤ length text.now }
    ensures { IsPosition text.now at result.line result.column }
{
    let before = &text[..at];
    let mut position = Position { line: 1, column: 1 };
    for byte in before {
        position = behind(position, *byte);
    }
    position
}

/// The position behind a byte at this one.
fn behind(position: Position, byte: u8) -> Position
    requires line { position.line ≤ 1048576 }
    requires column { position.column ≤ 1048576 }
    ensures line { result.line ≤ position.line + 1 }
    ensures column { result.column ≤ position.column + 1 }
    ensures behind { (before : List ℕ) → IsBehind before position.line position.column →
        IsBehind (before ++ byte ∷ []) result.line result.column }
{
    if byte == b'\n' {
        Position {
            line: position.line + 1,
            column: 1,
        }
    } else {
        Position {
            line: position.line,
            column: position.column + 1,
        }
    }
}

/// The place of a node: that of the innermost declaration name, statement or unit that holds it. A declaration name holds its
/// declaration; where there are several names, the first holds what follows them.
pub fn place(tree: &SourceTree, node: NodeNo) -> Span
    ensures position { (text : List ℕ) → tree.now.feeds ≡ feeds_from 0 text → length text ≤ 1048576 → result.start ≤ length text →
        IsPosition text result.start result.line result.column }
    ensures reported { IsNumbered tree.now → Contains (map (λ n. n.number) (nodes_of tree.now)) node → IsReportedAt tree.now node result.start }
{
    match holder(tree, node) {
        Some(found) => span_of(tree.feeds.as_slice(), found),
        None => span_of(
            tree.feeds.as_slice(),
            Node {
                number: node,
                start: 0,
                end: 0,
            },
        ),
    }
}

/// The statement that holds a node, and its unit.
pub fn statement_of(tree: &SourceTree, node: NodeNo) -> Option<(&Unit, &Stmt)>
    ensures { IsNumbered tree.now → (unit : SourceUnit) (stmt : Statement) → Contains tree.now.units unit → Contains unit.body stmt →
        Contains (map (λ n. n.number) (stmt_nodes stmt)) node →
        IsSomeAnd result (λ found. (found.0.now ≡ unit) × (found.1.now ≡ stmt)) }
{
    let unit = unit_of(tree, node)?;
    let statement = statement_in(unit, node)?;
    Some((unit, statement))
}

/// The innermost declaration name, statement or unit that holds the node.
fn holder(tree: &SourceTree, node: NodeNo) -> Option<Node>
    ensures { IsAmong node (nodes_of tree.now) → IsSomeAnd result (λ found. holder_of tree.now node ≡ Some found) }
{
    Some(unit_holder(unit_of(tree, node)?, node))
}

/// The innermost declaration name, statement or unit that holds the node, of a unit that does.
fn unit_holder(unit: &Unit, node: NodeNo) -> Node
    ensures { IsAmong node (unit_nodes unit.now) → last_of (filter (holds node) (unit_holders unit.now)) ≡ Some result }
{
    match statement_in(unit, node) {
        Some(statement) => own_node(statement),
        None => declaration_holder(unit, node).unwrap_or(unit.node),
    }
}

/// The unit that holds the node.
fn unit_of(tree: &SourceTree, node: NodeNo) -> Option<&Unit>
    ensures { IsAmong node (nodes_of tree.now) → option_copied result ≡ find (λ unit. has_number node (unit_nodes unit)) tree.now.units }
{
    let units = tree.units.as_slice();
    let count = units.partition_point(|unit| unit.node.number.0 <= node.0);
    last_of_first(units, count)
}

/// The statement of the unit that holds the node.
fn statement_in(unit: &Unit, node: NodeNo) -> Option<&Stmt>
    ensures { IsAmong node (unit_nodes unit.now) → option_copied result ≡ find (λ stmt. has_number node (stmt_nodes stmt)) unit.now.body }
{
    let body = unit.body.as_slice();
    let count = body.partition_point(|statement| own_node(statement).number.0 <= node.0);
    last_of_first(body, count)
}

/// The node of a statement itself.
fn own_node(statement: &Stmt) -> Node
    ensures { result ≡ stmt_node statement.now }
{
    match statement {
        Stmt::Assign(node, _, _) => *node,
    }
}

/// The declaration name that holds the node, where no statement does.
fn declaration_holder(unit: &Unit, node: NodeNo) -> Option<Node>
    ensures { IsAmong node (unit_nodes unit.now) → has_number node (flat_map stmt_nodes unit.now.body) ≡ false →
        result ≡ last_of (filter (holds node) (flat_map (λ section. flat_map decl_holders section.decls) unit.now.sections)) }
{
    let section = section_in(unit, node)?;
    let decl = decl_in(section, node)?;
    name_holder(decl, node)
}

/// The section that holds the node, where no statement does.
fn section_in(unit: &Unit, node: NodeNo) -> Option<&Section>
    ensures { IsAmong node (unit_nodes unit.now) → has_number node (flat_map stmt_nodes unit.now.body) ≡ false →
        option_copied result ≡ find (λ section. has_number node (section_nodes section)) unit.now.sections }
{
    let sections = unit.sections.as_slice();
    let count = sections.partition_point(|section| section.node.number.0 <= node.0);
    last_of_first(sections, count)
}

/// The declaration of the section that holds the node.
fn decl_in(section: &Section, node: NodeNo) -> Option<&Decl>
    ensures { IsAmong node (section_nodes section.now) → option_copied result ≡ find (λ decl. has_number node (decl_nodes decl)) section.now.decls }
{
    let decls = section.decls.as_slice();
    let count = decls.partition_point(|decl| decl.node.number.0 <= node.0);
    last_of_first(decls, count)
}

/// The name of the declaration that holds the node: the name itself, else the first one.
fn name_holder(decl: &Decl, node: NodeNo) -> Option<Node>
    ensures { IsAmong node (decl_nodes decl.now) → result ≡ last_of (filter (holds node) (decl_holders decl.now)) }
{
    let names = decl.names.as_slice();
    let count = names.partition_point(|name| name.node.number.0 < node.0);
    match names.get(count) {
        Some(name) if name.node.number == node => Some(name.node),
        _ => Some(names.first()?.node),
    }
}

/// The last of the first so many.
fn last_of_first<T>(items: &[T], count: usize) -> Option<&T>
    ensures { option_copied result ≡ last_of_first items.now count }
{
    items.get(count.checked_sub(1)?)
}

/// The span of a node, by the places of its file's line feeds.
fn span_of(feeds: &[usize], node: Node) -> Span
    ensures start { result.start ≡ node.start }
    ensures position { (text : List ℕ) → feeds.now ≡ feeds_from 0 text → length text ≤ 1048576 → node.start ≤ length text →
        IsPosition text node.start result.line result.column }
{
    let before = feeds.partition_point(|feed| *feed < node.start);
    let column = match last_of_first(feeds, before) {
        None => node.start,
        Some(feed) => node.start.saturating_sub(*feed).saturating_sub(1),
    };
    Span {
        start: node.start,
        end: node.end,
        line: counted(before),
        column: counted(column),
    }
}

/// A number that counts from 0 as one that counts from 1.
fn counted(number: usize) -> u32
    ensures { number ≤ 1048576 → result ≡ number + 1 }
{
    u32::try_from(number).unwrap_or(u32::MAX).saturating_add(1)
}
