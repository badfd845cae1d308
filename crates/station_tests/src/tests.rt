// What the station replies to lists of commands, row by row, and at its limits.
ghost use Rattle.std.specs.Prelude.{◌≡◌};

use crate::requests::{Office, name_of, numbered, request_of};
use project_keeper::{Name, Request};
use station_ports::outside::NoMemory;
use station_ports::steps::Steps;
use std::alloc::Global;
use std::marker::Brand;
use std::sync::ledger::{Blank, Ledger};
use std::test::Fail;

/// A caller, the words of a request, and the reply.
type Row = (&'static str, &'static [&'static str], &'static str);

const ROWS: [Row; 23] = [
    ("ann", &["Create", "mix"], "Created"),
    ("ann", &["Create", "mix"], "Refused 3"),
    (
        "ann",
        &["PutFile", "mix", "0", "a.st", "text"],
        "Accepted 1",
    ),
    (
        "ann",
        &["PutFile", "mix", "0", "a.st", "text"],
        "Refused 4 current 1",
    ),
    ("ann", &["DropFile", "mix", "1", "b.st"], "Refused 5"),
    (
        "ann",
        &["Waive", "mix", "1", "A4", "p", "n", "known"],
        "Accepted 2",
    ),
    (
        "ann",
        &["Unwaive", "mix", "2", "A3", "P", "N"],
        "Refused 13",
    ),
    ("ann", &["Report", "mix", "3"], "Refused 16 current 2"),
    ("ann", &["Report", "mix"], "Report"),
    ("ann", &["Report", "mix", "0"], "Report"),
    ("ann", &["Create", ".x"], "Refused 12"),
    ("bob", &["Show", "mix"], "Refused 2"),
    ("carl", &["ListProjects"], "Refused 1"),
    ("ann", &["ListProjects"], "Projects mix"),
    ("ann", &["Show", "mix"], "Shown 2 a.st"),
    ("ann", &["ReadFile", "mix", "a.st"], "Text 4"),
    ("ann", &["ReadFile", "mix", "b.st"], "Refused 5"),
    (
        "ann",
        &["Unwaive", "mix", "2", "A4", "P", "N"],
        "Accepted 3",
    ),
    (
        "ann",
        &["Unwaive", "mix", "3", "A4", "P", "N"],
        "Refused 13",
    ),
    ("ann", &["DropFile", "mix", "3", "a.st"], "Accepted 4"),
    ("ann", &["Show", "mix"], "Shown 4"),
    (
        "ann",
        &["Waive", "mix", "4", "S25", "p", "n", "known"],
        "Refused 13",
    ),
    ("bob", &["ListProjects"], "Projects"),
];

/// The first reply that isn't the expected one; empty where there is none.
fn first_difference<L: Ledger>(
    alloc: Global,
    rows: &[Row],
    steps: &mut Steps<L>,
) -> Result<String, NoMemory> {
    let mut office = Office::new(alloc)?;
    for (caller, words, expected) in rows {
        let reply = office.replied(caller, &request_of(alloc, words)?, steps)?;
        if reply.as_str() != *expected {
            return Ok(reply);
        }
    }
    Ok(String::new(alloc))
}

fn rows_differ<L: Ledger>(rt: &HostRuntime, blank: Blank) -> Result<String, NoMemory>
    requires name { blank.name ≡ L.name }
    requires parts { blank.parts ≡ L.parts }
    requires two { blank.parts ≡ 2 }
{
    let mut steps = Steps::<L>::new(rt, blank);
    first_difference(rt.alloc(), &ROWS, &mut steps)
}

#[test]
fn replies_row_by_row(rt: HostRuntime) -> Result<(), Fail> {
    let difference = rows_differ::<Brand>(&rt, Blank::new(2))?;
    assert_eq!(rt; difference.as_str(), "");
    Ok(())
}

/// The reply to the last of so many requests for projects.
fn last_created<L: Ledger>(
    office: &mut Office,
    times: u32,
    steps: &mut Steps<L>,
) -> Result<String, NoMemory> {
    let mut last = String::new(office.alloc);
    for number in 0..times {
        let project = name_of(office.alloc, numbered(office.alloc, number)?.as_str())?;
        last = office.replied("ann", &Request::Create { project }, steps)?;
    }
    Ok(last)
}

/// The reply to the caller's request for a file of these bytes.
fn reply_to_bytes<L: Ledger>(
    office: &mut Office,
    bytes: &[u8],
    steps: &mut Steps<L>,
) -> Result<String, NoMemory> {
    let request = Request::PutFile {
        project: name_of(office.alloc, "mix")?,
        base: 0,
        file: name_of(office.alloc, "a.st")?,
        text: Name::of(office.alloc, bytes)?,
    };
    office.replied("ann", &request, steps)
}

/// The reply to the caller's request for a file of so many spaces.
fn reply_to_spaces<L: Ledger>(
    office: &mut Office,
    spaces: usize,
    steps: &mut Steps<L>,
) -> Result<String, NoMemory> {
    let text = vec![in office.alloc; b' '; spaces]?;
    reply_to_bytes(office, text.as_slice(), steps)
}

/// The reply to the caller's request of these words.
fn reply_to<L: Ledger>(
    office: &mut Office,
    words: &[&str],
    steps: &mut Steps<L>,
) -> Result<String, NoMemory> {
    let request = request_of(office.alloc, words)?;
    office.replied("ann", &request, steps)
}

/// A station in which ann has the project mix.
fn with_project<L: Ledger>(alloc: Global, steps: &mut Steps<L>) -> Result<Office, NoMemory> {
    let mut office = Office::new(alloc)?;
    reply_to(&mut office, &["Create", "mix"], steps)?;
    Ok(office)
}

/// Whether there is room for 200 projects of a caller, and for no more.
fn takes_200_projects<L: Ledger>(alloc: Global, steps: &mut Steps<L>) -> Result<bool, NoMemory> {
    let mut office = Office::new(alloc)?;
    let last = last_created(&mut office, 200, steps)?;
    let more = reply_to(&mut office, &["Create", "more"], steps)?;
    Ok(last.as_str() == "Created" && more.as_str() == "Refused 11")
}

/// Whether a file is UTF-8 of up to 1,048,576 bytes.
fn takes_long_text<L: Ledger>(alloc: Global, steps: &mut Steps<L>) -> Result<bool, NoMemory> {
    let mut office = with_project(alloc, steps)?;
    let no_text = reply_to_bytes(&mut office, &[255], steps)?;
    let above = reply_to_spaces(&mut office, 1_048_577, steps)?;
    let longest = reply_to_spaces(&mut office, 1_048_576, steps)?;
    Ok(
        no_text.as_str() == "Refused 7"
            && above.as_str() == "Refused 6"
            && longest.as_str() == "Accepted 1",
    )
}

fn holds_limits<L: Ledger>(rt: &HostRuntime, blank: Blank) -> Result<bool, NoMemory>
    requires name { blank.name ≡ L.name }
    requires parts { blank.parts ≡ L.parts }
    requires two { blank.parts ≡ 2 }
{
    let mut steps = Steps::<L>::new(rt, blank);
    let alloc = rt.alloc();
    Ok(takes_200_projects(alloc, &mut steps)? && takes_long_text(alloc, &mut steps)?)
}

#[test]
fn limits_of_projects_and_texts(rt: HostRuntime) -> Result<(), Fail> {
    let holds = holds_limits::<Brand>(&rt, Blank::new(2))?;
    assert!(rt; holds);
    Ok(())
}
