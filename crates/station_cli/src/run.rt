// The program over any files and any output.
ghost use Rattle.std.specs.Prelude.{◌≡◌, ◌++◌, Some, None, IfOk, [], ◌∷◌, map, string_bytes, codes};
ghost use Rattle.station_ports.specs.Calls.{Rose};
ghost use Rattle.report_text.specs.Text as report_text;
ghost use Rattle.station_cli.specs.Words.{check, command_of};
ghost use Rattle.station_cli.specs.Run.{IsRun, IsWork, IsWritten, AtMostOnce, verdict_status};
ghost use Rattle.station_cli.specs.Headline.{FreeIsSafe, AlarmsCover, IsReportedSafe, IsReportedCovered};
ghost use Rattle.station_cli.specs.Causes.{Completes, IsReportedAs, IsToldReported, EndsRead, IsAboveLimit, IsToldAbove, Ends};

use crate::law::one_report;
use crate::report::report_on;
use crate::status::Status;
use crate::words::{CommandLine, read_words};
use cycle_analysis::headline;
use finding_spans::Verdict;
use first_form::form_laws;
use report_text::text;
use st_units::text_laws;
use station_ports::outside::{FileRefusal, Files, NoMemory, Port, PutRefusal, Sink};
use station_ports::steps::Steps;
use station_ports::sure::{SureFiles, SureSink};
use station_ports::texts::{FileText, MAX_TEXT};
use std::alloc::Global;
use std::sync::ledger::Ledger;

/// A status and the line, or the report, that is written with it.
#[derive(Drop)]
struct Reply {
    status: Status,
    text: Vec<u8>,
}

/// The program: it does what the words ask for, and writes one line or report.
pub fn run<F: Files, S: Sink, L: Ledger>(
    alloc: Global,
    words: &[String],
    files: &mut F,
    out: &mut S,
    steps: &mut Steps<L>,
) -> Status
    // What is written and answered, for what cause, and what stays.
    ensures run { IsRun (map string_bytes words.now) (record { files = F.view files.old })
        (record { files = F.view files.new })
        (S.view out.old) (S.view out.new) result }

    // Nothing is left out where nothing failed and there was memory.
    ensures complete { Completes (map string_bytes words.now) (record { files = F.view files.old })
        (record { files = F.view files.new })
        (S.view out.old) (S.view out.new) result }

    // Wherever FREE was put, no run of the program that the file's bytes spell faults, and each
    // variable stays in its printed range; wherever ALARMS was put, each fault of a run is at an
    // alarm, with its value in the alarm's range. This holds also of a report that was cut short,
    // and whatever else failed in the call.
    ensures free { FreeIsSafe (map string_bytes words.now) (record { files = F.view files.old })
        (S.view out.old) (S.view out.new) }
    ensures alarms { AlarmsCover (map string_bytes words.now) (record { files = F.view files.old })
        (S.view out.old) (S.view out.new) }

    // Each status by its cause.
    ensures clean { result ≡ Status.Clean → IsReportedSafe (map string_bytes words.now)
        (record { files = F.view files.old }) }
    ensures open { result ≡ Status.Open → IsReportedCovered (map string_bytes words.now)
        (record { files = F.view files.old }) }
    ensures refused { result ≡ Status.Refused → IsReportedAs (map string_bytes words.now)
        (record { files = F.view files.old }) Status.Refused }
    ensures not_analysed { result ≡ Status.NotAnalysed → IsReportedAs (map string_bytes words.now)
        (record { files = F.view files.old }) Status.NotAnalysed }
    ensures reported { (status : Status) → IsToldReported (map string_bytes words.now)
        (record { files = F.view files.old }) status →
        EndsRead (record { files = F.view files.old }) (record { files = F.view files.new })
        (S.view out.old) (S.view out.new) status result }
    ensures usage { result ≡ Status.Usage → command_of (map string_bytes words.now) ≡ None }
    ensures misused { command_of (map string_bytes words.now) ≡ None
        → Ends Status.Usage (S.view out.old) (S.view out.new) result }
    ensures too_long { result ≡ Status.TooLong → IsAboveLimit (map string_bytes words.now)
        (record { files = F.view files.old }) }
    ensures above { IsToldAbove (map string_bytes words.now) (record { files = F.view files.old }) →
        EndsRead (record { files = F.view files.old }) (record { files = F.view files.new })
        (S.view out.old) (S.view out.new) Status.TooLong result }
    ensures read_fault { result ≡ Status.ReadFault → Rose (F.view files.old).faults
        (F.view files.new).faults }
    ensures write_fault { result ≡ Status.WriteFault → Rose (S.view out.old).faults
        (S.view out.new).faults }
{
    text_laws();
    form_laws();
    headline();
    one_report();
    match work(alloc, words, files, steps) {
        Ok(reply) => write_line(out, reply.status, &reply.text),
        Err(NoMemory) => write_no_memory(out),
    }
}

/// Writes the line of status 9, NoMemory; a refusal of it leaves the status.
pub fn write_no_memory<S: Sink>(out: &mut S) -> Status
    ensures { IsWritten (S.view out.old) (S.view out.new) Status.NoMemory (codes "ERROR memory\n")
        result }
{
    write_line(out, Status::NoMemory, b"ERROR memory\n")
}

/// Over files and an output that never fail no fault is answered.
pub fn run_sure<L: Ledger>(
    alloc: Global,
    words: &[String],
    files: &mut SureFiles,
    out: &mut SureSink,
    steps: &mut Steps<L>,
) -> Status
    ensures run { IsRun (map string_bytes words.now)
        (record { files = ⟦<SureFiles as Files>⟧.view files.old })
        (record { files = ⟦<SureFiles as Files>⟧.view files.new })
        (⟦<SureSink as Port>⟧.view out.old) (⟦<SureSink as Port>⟧.view out.new) result }
    ensures read { result ≡ Status.ReadFault → ⊥ }
    ensures write { result ≡ Status.WriteFault → ⊥ }
{
    run(alloc, words, files, out, steps)
}

/// What the words ask for, done but for the writing.
fn work<F: Files, L: Ledger>(
    alloc: Global,
    words: &[String],
    files: &mut F,
    steps: &mut Steps<L>,
) -> Result<Reply, NoMemory>
    ensures work { IfOk result (λ reply. IsWork (command_of (map string_bytes words.now))
        (record { files = F.view files.old }) (record { files = F.view files.new }) reply.status
        reply.text.items) }
    ensures same { (F.view files.new).contents ≡ (F.view files.old).contents }
    ensures calls { AtMostOnce (F.view files.old) (F.view files.new) }
{
    match read_words(words) {
        None => Ok(Reply {
            status: Status::Usage,
            text: line(
                alloc,
                b"USAGE check serve import-waivers export-findings generate",
                "",
            )?,
        }),
        Some(CommandLine::Check { name }) => check_file(alloc, name, files, steps),
    }
}

/// The report on one file.
fn check_file<F: Files, L: Ledger>(
    alloc: Global,
    name: &str,
    files: &mut F,
    steps: &mut Steps<L>,
) -> Result<Reply, NoMemory>
    ensures work { IfOk result (λ reply. IsWork (Some (check name.now))
        (record { files = F.view files.old }) (record { files = F.view files.new }) reply.status
        reply.text.items) }
    ensures same { (F.view files.new).contents ≡ (F.view files.old).contents }
    ensures calls { AtMostOnce (F.view files.old) (F.view files.new) }
{
    match files.read(name, MAX_TEXT) {
        Ok(bytes) => {
            let report = report_on(alloc, name, &FileText::of(bytes), steps)?;
            Ok(Reply {
                status: status_of_verdict(&report.verdict),
                text: text(alloc, &report)?,
            })
        }
        Err(FileRefusal::TooLong) => Ok(Reply {
            status: Status::TooLong,
            text: line(alloc, b"ERROR too long ", name)?,
        }),
        Err(FileRefusal::Failed) => Ok(Reply {
            status: Status::ReadFault,
            text: line(alloc, b"ERROR read ", name)?,
        }),
        Err(FileRefusal::NoMemory) => Err(NoMemory),
    }
}

fn status_of_verdict(verdict: &Verdict) -> Status
    ensures { result ≡ verdict_status verdict.now }
{
    match verdict {
        Verdict::Free => Status::Clean,
        Verdict::Alarms(_) => Status::Open,
        Verdict::Refused(_) => Status::Refused,
        Verdict::NotAnalysed(_) => Status::NotAnalysed,
    }
}

/// These two texts and the end of the line.
fn line(alloc: Global, start: &[u8], name: &str) -> Result<Vec<u8>, NoMemory>
    ensures { IfOk result (λ line. line.items ≡ start.now ++ name.now ++ 10 ∷ []) }
{
    let mut text = Vec::new(alloc);
    text.extend_from_slice(start)?;
    text.extend_from_slice(name.as_bytes())?;
    text.extend_from_slice(b"\n")?;
    Ok(text)
}

/// Puts a line, and gives its status, or that of the refusal.
fn write_line<S: Sink>(out: &mut S, status: Status, text: &[u8]) -> Status
    ensures { IsWritten (S.view out.old) (S.view out.new) status text.now result }
{
    match out.put(text) {
        Ok(()) => status,
        Err(PutRefusal::NoMemory) => Status::NoMemory,
        Err(PutRefusal::Failed) => match status {
            Status::NoMemory => Status::NoMemory,
            _ => Status::WriteFault,
        },
    }
}
