// The text report, line by line.

ghost use Rattle.std.specs.Prelude.{◌≡◌, ◌++◌, OnOk, IfOk, flat_map};
ghost use Rattle.report_text.specs.Text as lines;

use crate::put::{put, put_bounds, put_count, put_place};
use finding_spans::{Alarm, Entry, RangeLine, Refusal, Report, Verdict};
use iec_tables::fault::FaultCode;
use station_ports::outside::NoMemory;
use std::alloc::{AllocError, Global};

/// The text of the report: the verdict, the alarms, the ranges, and how many alarms are open and waived, a line each.
pub fn text(alloc: Global, report: &Report) -> Result<Vec<u8>, NoMemory>
    ensures { IfOk result (λ text. text.items ≡ lines.text_of report.now) }
{
    let mut out = Vec::new(alloc);
    put_verdict(&mut out, &report.verdict)?;
    put_alarms(&mut out, report.alarms.as_slice())?;
    put_ranges(&mut out, report.ranges.as_slice())?;
    put_end(&mut out, report.open_count, report.waived_count)?;
    Ok(out)
}

fn put_verdict(out: &mut Vec<u8>, verdict: &Verdict) -> Result<(), AllocError>
    ensures { OnOk result (out.new.items ≡ out.old.items ++ lines.verdict_line verdict.now) }
{
    match verdict {
        Verdict::Free => put(out, b"VERDICT FREE\n"),
        Verdict::Alarms(alarms) => {
            put(out, b"VERDICT ALARMS ")?;
            put_count(out, alarms.count)?;
            put(out, b"\n")
        }
        Verdict::Refused(refusal) => put_refusal(out, refusal),
        Verdict::NotAnalysed(reason) => {
            put(out, b"VERDICT NOT ANALYSED ")?;
            put(out, reason.name().as_bytes())?;
            put(out, b"\n")
        }
    }
}

fn put_refusal(out: &mut Vec<u8>, refusal: &Refusal) -> Result<(), AllocError>
    ensures { OnOk result (out.new.items ≡ out.old.items ++ lines.refusal_line refusal.now) }
{
    put(out, b"VERDICT REFUSED ")?;
    put_place(out, refusal.file.bytes(), refusal.line, refusal.column)?;
    put(out, b" ")?;
    put_fault(out, refusal.code)?;
    put(out, b"\n")
}

/// The number and the name of a fault.
#[tactic(auto, unfolding(crate::specs::Text::fault))]
fn put_fault(out: &mut Vec<u8>, code: FaultCode) -> Result<(), AllocError>
    ensures { OnOk result (out.new.items ≡ out.old.items ++ lines.fault code) }
{
    put_count(out, code.code() as u64)?;
    put(out, b" ")?;
    put(out, code.name().as_bytes())
}

fn put_alarms(out: &mut Vec<u8>, alarms: &[Entry<Alarm>]) -> Result<(), AllocError>
    ensures { OnOk result (out.new.items ≡ out.old.items ++ flat_map lines.alarm_line alarms.now) }
{
    for entry in alarms {
        put_alarm(out, entry)?;
    }
    Ok(())
}

fn put_alarm(out: &mut Vec<u8>, entry: &Entry<Alarm>) -> Result<(), AllocError>
    ensures { OnOk result (out.new.items ≡ out.old.items ++ lines.alarm_line entry.now) }
{
    put_alarm_head(out, &entry.item)?;
    put_place(out, entry.file.bytes(), entry.line, entry.column)?;
    put(out, b" range ")?;
    put_bounds(out, entry.item.low, entry.item.high)?;
    put(out, b"\n")
}

fn put_alarm_head(out: &mut Vec<u8>, alarm: &Alarm) -> Result<(), AllocError>
    ensures { OnOk result (out.new.items ≡ out.old.items ++ lines.alarm_head alarm.now) }
{
    put(out, b"ALARM A")?;
    put_count(out, alarm.kind.code() as u64)?;
    put(out, b" ")?;
    put(out, alarm.kind.name().as_bytes())?;
    put(out, b" ")?;
    put(out, alarm.unit.bytes())?;
    put(out, b" ")?;
    put(out, alarm.subject.bytes())?;
    put(out, b" ")
}

fn put_ranges(out: &mut Vec<u8>, ranges: &[RangeLine]) -> Result<(), AllocError>
    ensures { OnOk result (out.new.items ≡ out.old.items ++ flat_map lines.range_line ranges.now) }
{
    for range in ranges {
        put_range(out, range)?;
    }
    Ok(())
}

fn put_range(out: &mut Vec<u8>, range: &RangeLine) -> Result<(), AllocError>
    ensures { OnOk result (out.new.items ≡ out.old.items ++ lines.range_line range.now) }
{
    put(out, b"RANGE ")?;
    put(out, range.name.bytes())?;
    put(out, b" ")?;
    put_bounds(out, range.low, range.high)?;
    put(out, b"\n")
}

fn put_end(out: &mut Vec<u8>, open_count: u64, waived_count: u64) -> Result<(), AllocError>
    ensures { OnOk result (out.new.items ≡ out.old.items ++ lines.end_line open_count waived_count) }
{
    put(out, b"END open ")?;
    put_count(out, open_count)?;
    put(out, b" waived ")?;
    put_count(out, waived_count)?;
    put(out, b"\n")
}
