// Requests and replies as words, and a station without an analysis.
ghost use Rattle.std.specs.Prelude.{◌≡◌, true, IfOk};
ghost use Rattle.std.specs.List.{list_all};
ghost use Rattle.project_keeper.specs.Names.{is_name};

use finding_spans::{Report, Verdict};
use project_keeper::{
    FileList, MemoryKeeper, Name, Refused, Reply, Request, Rows, Waiver, WaiverKey, WaiverList,
};
use st_tree::{CallerKey, PlanRefusal, Settings};
use station_core::{Reviewer, Station};
use station_ports::outside::NoMemory;
use station_ports::steps::Steps;
use std::alloc::Global;
use std::sync::ledger::Ledger;
use tree_items::Items;

/// Reports of every project that its analysis isn't built.
#[derive(Drop)]
pub(crate) struct NotBuilt {
    pub(crate) alloc: Global,
}

pub(crate) fn name_of(alloc: Global, text: &str) -> Result<Name, NoMemory>
    ensures { IfOk result (λ name. name ≡ text.now) }
{
    Name::of(alloc, text.as_bytes())
}

fn key_of(alloc: Global, words: &[&str]) -> Result<WaiverKey, NoMemory> {
    Ok(WaiverKey {
        code: name_of(alloc, word(words, 0))?,
        unit: name_of(alloc, word(words, 1))?,
        subject: name_of(alloc, word(words, 2))?,
    })
}

fn waiver_of(alloc: Global, words: &[&str]) -> Result<Waiver, NoMemory> {
    Ok(Waiver {
        code: name_of(alloc, word(words, 0))?,
        unit: name_of(alloc, word(words, 1))?,
        subject: name_of(alloc, word(words, 2))?,
        reason: name_of(alloc, word(words, 3))?,
    })
}

fn word<'a>(words: &[&'a str], at: usize) -> &'a str {
    match words.get(at) {
        Some(word) => word,
        None => "",
    }
}

fn number(words: &[&str], at: usize) -> u32 {
    word(words, at).parse::<u32>().unwrap_or(0)
}

/// The request of these words: its kind, the project, and what else it has.
pub(crate) fn request_of(alloc: Global, words: &[&str]) -> Result<Request, NoMemory> {
    let project = name_of(alloc, word(words, 1))?;
    let kind = word(words, 0);
    if kind == "Create" {
        return Ok(Request::Create { project });
    }
    if kind == "Show" {
        return Ok(Request::Show { project });
    }
    if kind == "ReadFile" {
        let file = name_of(alloc, word(words, 2))?;
        return Ok(Request::ReadFile { project, file });
    }
    if kind == "PutFile" {
        let file = name_of(alloc, word(words, 3))?;
        let text = name_of(alloc, word(words, 4))?;
        let base = number(words, 2);
        return Ok(Request::PutFile {
            project,
            base,
            file,
            text,
        });
    }
    if kind == "DropFile" {
        let file = name_of(alloc, word(words, 3))?;
        let base = number(words, 2);
        return Ok(Request::DropFile {
            project,
            base,
            file,
        });
    }
    if kind == "Waive" {
        let waiver = waiver_of(alloc, words.get(3..).unwrap_or(&[]))?;
        let base = number(words, 2);
        return Ok(Request::Waive {
            project,
            base,
            waiver,
        });
    }
    if kind == "Unwaive" {
        let key = key_of(alloc, words.get(3..).unwrap_or(&[]))?;
        let base = number(words, 2);
        return Ok(Request::Unwaive { project, base, key });
    }
    if kind == "Report" {
        let revision = match words.get(2) {
            Some(_) => Some(number(words, 2)),
            None => None,
        };
        return Ok(Request::Report { project, revision });
    }
    Ok(Request::ListProjects)
}

impl Reviewer for NotBuilt {
    ghost use Rattle.std.specs.Prelude.{[]};
    ghost use Rattle.std.proofs.Common.{◌∙◌, sym};
    ghost use Rattle.st_tree.specs.declared.plan.PlanRefusal.TheVariants.{NotBuilt as Unbuilt};
    ghost use Rattle.finding_spans.specs.declared.report.Verdict.TheVariants.{NotAnalysed};

    ghost reports = { λ files waivers settings report. report ≡ record { verdict = NotAnalysed Unbuilt; alarms = []; ranges = []; open_count = 0; waived_count = 0 } };

    ghost one = { λ files waivers settings report other h k. h ∙ sym k };

    fn report<L: Ledger>(
        &mut self,
        _files: &FileList,
        _waivers: &WaiverList,
        _settings: &Settings,
        _steps: &mut Steps<L>,
    ) -> Result<Report, NoMemory> {
        Ok(Report {
            verdict: Verdict::NotAnalysed(PlanRefusal::NotBuilt),
            alarms: Items::new(self.alloc),
            ranges: Items::new(self.alloc),
            open_count: 0,
            waived_count: 0,
        })
    }
}

/// A caller of this name.
fn caller_of(alloc: Global, name: &str) -> Result<CallerKey, NoMemory>
    requires { is_name name.now ≡ true }
    ensures { IfOk result (λ caller. is_name caller.name ≡ true) }
{
    let key = name_of(alloc, "0123456789abcdef")?;
    let name = name_of(alloc, name)?;
    Ok(CallerKey { name, key })
}

/// The settings of a station with the callers ann and bob.
fn settings_of(alloc: Global) -> Result<Settings, NoMemory>
    ensures { IfOk result (λ settings. list_all (λ known. is_name known.name) settings.callers ≡ true) }
{
    let ann = caller_of(alloc, "ann")?;
    let bob = caller_of(alloc, "bob")?;
    let mut callers = Items::new(alloc);
    callers.push(ann)?;
    callers.push(bob)?;
    let mut settings = Settings::defaults(alloc)?;
    settings.callers = callers;
    Ok(settings)
}

fn put(out: &mut String, text: &str) -> Result<(), NoMemory> {
    out.push_str(text)?;
    Ok(())
}

fn put_name(out: &mut String, name: &Name) -> Result<(), NoMemory> {
    for byte in name.bytes() {
        out.push(*byte as char)?;
    }
    Ok(())
}

/// A reply in words: its kind, and what it has.
pub(crate) fn words_of(alloc: Global, reply: &Reply) -> Result<String, NoMemory> {
    let mut out = String::new(alloc);
    match reply {
        Reply::Projects(names) => {
            put(&mut out, "Projects")?;
            for name in names.as_slice() {
                put(&mut out, " ")?;
                put_name(&mut out, name)?;
            }
        }
        Reply::Created => put(&mut out, "Created")?,
        Reply::Shown { files, revision } => {
            put(&mut out, "Shown ")?;
            put_number(alloc, &mut out, *revision)?;
            for name in files.as_slice() {
                put(&mut out, " ")?;
                put_name(&mut out, name)?;
            }
        }
        Reply::Text(text) => {
            put(&mut out, "Text ")?;
            put_number(alloc, &mut out, text.bytes().len() as u32)?;
        }
        Reply::Accepted { revision } => {
            put(&mut out, "Accepted ")?;
            put_number(alloc, &mut out, *revision)?;
        }
        Reply::Report(_) => put(&mut out, "Report")?,
        Reply::Refused(refused) => put_refused(alloc, &mut out, *refused)?,
    }
    Ok(out)
}

fn put_refused(alloc: Global, out: &mut String, refused: Refused) -> Result<(), NoMemory> {
    put(out, "Refused ")?;
    put_number(alloc, out, refused.code.code() as u32)?;
    if let Some(current) = refused.current {
        put(out, " current ")?;
        put_number(alloc, out, current)?;
    }
    Ok(())
}

fn put_number(alloc: Global, out: &mut String, number: u32) -> Result<(), NoMemory> {
    let digits = numbered(alloc, number)?;
    put(out, digits.as_str())
}

/// A station without an analysis, and its keeper.
#[derive(Drop)]
pub(crate) struct Office {
    pub(crate) alloc: Global,
    pub(crate) station: Station<NotBuilt>,
    pub(crate) keeper: MemoryKeeper,
}

impl Office {
    /// One with two callers, ann and bob, and no projects.
    pub(crate) fn new(alloc: Global) -> Result<Self, NoMemory> {
        let settings = settings_of(alloc)?;
        let station = Station::new(alloc, settings, NotBuilt { alloc });
        let rows = Rows {
            callers: Items::new(alloc),
        };
        let keeper = MemoryKeeper::of(alloc, rows, Vec::new(alloc));
        Ok(Self {
            alloc,
            station,
            keeper,
        })
    }

    /// What the station replies to a caller's request, in words.
    pub(crate) fn replied<L: Ledger>(
        &mut self,
        caller: &str,
        request: &Request,
        steps: &mut Steps<L>,
    ) -> Result<String, NoMemory> {
        let caller = name_of(self.alloc, caller)?;
        let reply = self
            .station
            .command(&mut self.keeper, &caller, request, steps);
        words_of(self.alloc, &reply)
    }
}

/// The name that is this number in digits.
pub(crate) fn numbered(alloc: Global, number: u32) -> Result<String, NoMemory> {
    Ok(format!(in alloc; "{number}")?)
}
