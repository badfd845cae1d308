// One pass over the code of a task.

ghost use Rattle.std.specs.Prelude.{◌≡◌, ◌++◌, [], ◌∷◌, List, not, IfOk, OnOk};
ghost use Rattle.interval_domain.specs.Interval as spec_interval;
ghost use Rattle.interval_domain.specs.Interval.{is_empty};
ghost use Rattle.interval_domain.specs.Operators.{typed};
ghost use Rattle.st_tree.specs.Code as code;
ghost use Rattle.st_tree.specs.Code.{Instructions, reading};
ghost use Rattle.cycle_analysis.specs.Pass as spec;
ghost use Rattle.cycle_analysis.specs.Fill.{Goes, from, end_of, state_of, kept_of, all_noted};
ghost use Rattle.cycle_analysis.specs.Next.{Follows, IsNext, IsSmaller};
ghost use Rattle.cycle_analysis.specs.declared.task_pass.Told.{Told};

use crate::row::{Row, interval_at};
use iec_tables::kind::Kind;
use interval_domain::interval::{Interval, join};
use interval_domain::operators::{Out, add, alarm, range_of, sub};
use st_tree::{Cell, Code, Hit, Number, Operation, Operator};
use std::alloc::AllocError;

/// The numbers that an entry of the stack may be, and how they came about: read from a cell, or otherwise.
#[derive(Clone, Copy)]
pub(crate) enum Value {
    Plain(Interval),
    Of(Cell, Interval),
}

/// What a pass tells: what it writes to each cell, and its alarms in the order in which they are met.
#[derive(Drop)]
pub(crate) struct Told {
    pub writes: Row,
    pub alarms: Vec<Hit>,
}

/// What a pass goes along with: the state of the cells and the stack.
#[derive(Drop)]
pub(crate) struct Point {
    pub state: Row,
    pub stack: Vec<Value>,
}

/// The pass over the code from this point on, with what the other tasks write. Tells whether the end of the code is reached; the
/// point is then the one there.
pub(crate) fn pass(
    whole: &Code,
    during: &[Interval],
    point: &mut Point,
    told: &mut Told,
) -> Result<bool, AllocError>
    ensures state { IfOk result (λ reached. end_of reached point.new.state ≡ (from during.now (reading whole.now) point.old).state) }
    ensures log { OnOk result (kept_of told.new ≡ all_noted (kept_of told.old) (from during.now (reading whole.now) point.old).log) }
{
    let mut code = whole;
    'instructions: loop {
        match instruct(code, during, point, told)? {
            Next::Ended => return Ok(true),
            Next::Stopped => return Ok(false),
            Next::Rest(rest) => code = rest,
        }
    }
}

/// How a pass goes on behind an instruction: the code has ended, nothing behind it is reached, or the rest follows.
enum Next<'c> {
    Ended,
    Stopped,
    Rest(&'c Code),
}

/// The first instruction of the code.
fn instruct<'c>(
    code: &'c Code,
    during: &[Interval],
    point: &mut Point,
    told: &mut Told,
) -> Result<Next<'c>, AllocError>
    ensures follows { IfOk result (λ next. Follows during.now (reading code.now) point.old point.new told.old told.new next) }
    ensures smaller { IfOk result (λ next. IsSmaller code.now next) }
{
    match code {
        Code::Done => Ok(Next::Ended),
        Code::Literal(number, rest) => Ok(next_of(literal(*number, point)?, rest)),
        Code::Read(cell, rest) => Ok(next_of(read(*cell, during, point)?, rest)),
        Code::Operate(operation, rest) => Ok(next_of(operate(*operation, point, told)?, rest)),
        Code::Write(cell, rest) => Ok(next_of(write(*cell, point, told), rest)),
    }
}

fn next_of(reached: bool, rest: &Code) -> Next<'_>
    ensures { IsNext reached rest.now result }
{
    if reached {
        Next::Rest(rest)
    } else {
        Next::Stopped
    }
}

/// The interval of a value.
fn interval_of(value: &Value) -> Interval
    ensures { result ≡ spec.interval_of value.now }
{
    match value {
        Value::Plain(interval) => *interval,
        Value::Of(_, interval) => *interval,
    }
}

/// Puts a value on the stack; no run comes here where it has no number.
fn push(point: &mut Point, value: Value) -> Result<bool, AllocError>
    ensures some { IfOk result (λ some. some ≡ not (is_empty (spec.interval_of value))) }
    ensures stack { OnOk result (point.new.stack.items ≡ point.old.stack.items ++ value ∷ []) }
    ensures state { point.new.state ≡ point.old.state }
{
    let interval = interval_of(&value);
    point.stack.push(value)?;
    Ok(!interval.is_empty())
}

fn literal(number: Number, point: &mut Point) -> Result<bool, AllocError>
    ensures { IfOk result (λ reached. (during : List spec_interval.Interval) (rest : Instructions) (t : Told) →
        Goes during (code.Literal number.value rest) rest point.old point.new t t reached) }
{
    push(point, Value::Plain(Interval::single(number.value)))
}

/// What a cell may hold: a shared one also what the other tasks write to it.
fn read(cell: Cell, during: &[Interval], point: &mut Point) -> Result<bool, AllocError>
    ensures { IfOk result (λ reached. (rest : Instructions) (t : Told) →
        Goes during.now (code.Read cell rest) rest point.old point.new t t reached) }
{
    let value = value_of(cell, during, &point.state);
    push(point, value)
}

fn value_of(cell: Cell, during: &[Interval], state: &Row) -> Value
    ensures { result ≡ spec.read_value (record { during = during.now }) cell (state_of state.now) }
{
    let interval = state.get(cell);
    match cell {
        Cell::Own(_) => Value::Of(cell, interval),
        Cell::Shared(place) => Value::Of(cell, join(interval, interval_at(during, place))),
    }
}

/// Takes the operands from the stack and puts the result on it; no run comes here where there are none.
fn operate(operation: Operation, point: &mut Point, told: &mut Told) -> Result<bool, AllocError>
    ensures { IfOk result (λ reached. (during : List spec_interval.Interval) (rest : Instructions) →
        Goes during (code.Operate operation rest) rest point.old point.new told.old told.new reached) }
{
    let Some(right) = point.stack.pop() else {
        return Ok(false);
    };
    let Some(left) = point.stack.pop() else {
        return Ok(false);
    };
    let out = result_of(operation, interval_of(&left), interval_of(&right));
    note_alarm(operation, out.raw, told)?;
    push(point, Value::Plain(out.result))
}

fn result_of(operation: Operation, left: Interval, right: Interval) -> Out
    ensures raw { result.raw ≡ spec.raw_of operation.operator left right }
    ensures result { result.result ≡ typed operation.elem (spec.raw_of operation.operator left right) }
{
    match operation.operator {
        Operator::Add => add(operation.elem, left, right),
        Operator::Subtract => sub(operation.elem, left, right),
    }
}

/// Tells an alarm where the raw result leaves the type.
fn note_alarm(operation: Operation, raw: Interval, told: &mut Told) -> Result<(), AllocError>
    ensures { OnOk result (kept_of told.new ≡ all_noted (kept_of told.old) (spec.operation_log operation raw)) }
{
    if alarm(Kind::Overflow, raw, range_of(operation.elem)) {
        if let Some((low, high)) = raw.bounds() {
            told.alarms.push(Hit {
                site: operation.site,
                kind: Kind::Overflow,
                low,
                high,
            })?;
        }
    }
    Ok(())
}

/// Takes a value from the stack and writes it; no run comes here where there is none, or where it has no number.
fn write(cell: Cell, point: &mut Point, told: &mut Told) -> bool
    ensures { (during : List spec_interval.Interval) (rest : Instructions) →
        Goes during (code.Write cell rest) rest point.old point.new told.old told.new result }
{
    let Some(value) = point.stack.pop() else {
        return false;
    };
    let interval = interval_of(&value);
    told.writes.join_at(cell, interval);
    point.state.set(cell, interval);
    !interval.is_empty()
}
