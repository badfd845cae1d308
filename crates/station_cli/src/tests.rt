// The program over objects in memory: each status, texts with their outcomes, and each read and put failing in turn; and the calls of the lower
// crates that the program doesn't make.
ghost use Rattle.std.specs.Prelude.{◌≡◌};

use crate::run::{run, run_sure};
use crate::status::Status;
use station_ports::memory::{FileBytes, MemoryFiles, MemorySink, MemorySource};
use station_ports::outside::{Failed, Source};
use station_ports::steps::Steps;
use station_ports::sure::{SureFiles, SureSink, SureSource};
use station_ports::texts::Name;
use std::alloc::{AllocError, Global};
use std::marker::Brand;
use std::sync::ledger::{Blank, Ledger};
use std::test::Fail;

pub(crate) const CHECK: [&str; 2] = ["check", "a.st"];

/// What a call over memory gave.
#[derive(Debug, Drop)]
pub(crate) struct Outcome {
    pub(crate) status: Status,
    pub(crate) output: Vec<u8>,
    pub(crate) parsed: u64,
    solved: u64,
}

fn words_of(alloc: Global, words: &[&str]) -> Result<Vec<String>, AllocError> {
    let mut all = Vec::new(alloc);
    for word in words {
        all.push(String::from_str(alloc, word)?)?;
    }
    Ok(all)
}

fn name_of(alloc: Global, name: &str) -> Result<Name, AllocError> {
    Name::of(alloc, name.as_bytes()).map_err(|_| AllocError)
}

/// The file `a.st` of this content.
fn file_of(alloc: Global, content: &[u8]) -> Result<FileBytes, AllocError> {
    Ok(FileBytes {
        name: name_of(alloc, "a.st")?,
        bytes: content.to_vec(alloc)?,
    })
}

fn over<L: Ledger>(
    rt: &HostRuntime,
    blank: Blank,
    words: &[&str],
    content: &[u8],
    failing_reads: &[u64],
    failing_puts: &[u64],
) -> Result<Outcome, AllocError>
    requires name { blank.name ≡ L.name }
    requires parts { blank.parts ≡ L.parts }
    requires two { blank.parts ≡ 2 }
{
    let alloc = rt.alloc();
    let words = words_of(alloc, words)?;
    let mut list = Vec::new(alloc);
    list.push(file_of(alloc, content)?)?;
    let mut files = MemoryFiles::of(alloc, list, failing_reads.to_vec(alloc)?);
    let mut out = MemorySink::of(alloc, failing_puts.to_vec(alloc)?);
    let mut steps = Steps::<L>::new(rt, blank);
    let status = run(alloc, &words, &mut files, &mut out, &mut steps);
    Ok(Outcome {
        status,
        output: out.bytes().to_vec(alloc)?,
        parsed: steps.parsed(),
        solved: steps.solved(),
    })
}

pub(crate) fn result_over(
    rt: &HostRuntime,
    words: &[&str],
    content: &[u8],
    failing_reads: &[u64],
    failing_puts: &[u64],
) -> Result<Outcome, AllocError> {
    over::<Brand>(
        rt,
        Blank::new(2),
        words,
        content,
        failing_reads,
        failing_puts,
    )
}

fn sure<L: Ledger>(rt: &HostRuntime, blank: Blank) -> Result<Outcome, AllocError>
    requires name { blank.name ≡ L.name }
    requires parts { blank.parts ≡ L.parts }
    requires two { blank.parts ≡ 2 }
{
    let alloc = rt.alloc();
    let words = words_of(alloc, &CHECK)?;
    let mut files = SureFiles::of(alloc, Vec::new(alloc));
    let mut out = SureSink::of(alloc);
    let mut steps = Steps::<L>::new(rt, blank);
    let status = run_sure(alloc, &words, &mut files, &mut out, &mut steps);
    Ok(Outcome {
        status,
        output: out.bytes().to_vec(alloc)?,
        parsed: steps.parsed(),
        solved: steps.solved(),
    })
}

fn sure_result(rt: &HostRuntime) -> Result<Outcome, AllocError> {
    sure::<Brand>(rt, Blank::new(2))
}

/// A text, and the status and the output that it is checked with.
struct Row {
    text: &'static str,
    status: Status,
    output: &'static str,
}

/// Texts of the first form.
const ANALYSED: [Row; 16] = [
    Row {
        text: "(* x *) PROGRAM P // a\n{b} END_PROGRAM /* /* */ */",
        status: Status::Clean,
        output: "VERDICT FREE\nEND open 0 waived 0\n",
    },
    Row {
        text: "\u{feff}PROGRAM P VAR a : INT; END_VAR a := - (* - *) 5; END_PROGRAM",
        status: Status::Clean,
        output: "VERDICT FREE\nRANGE MAIN.A -5..0\nEND open 0 waived 0\n",
    },
    Row {
        text: "PROGRAM P\nVAR a, b : INT; END_VAR\na := 5; b := a - 7;\nEND_PROGRAM\n",
        status: Status::Clean,
        output: "VERDICT FREE\nRANGE MAIN.A 0..5\nRANGE MAIN.B -128..0\nEND open 0 waived 0\n",
    },
    Row {
        text: "PROGRAM P\nVAR n : INT; END_VAR\nn := n + 1;\nEND_PROGRAM\n",
        status: Status::Open,
        output: "VERDICT ALARMS 1\nALARM A4 Overflow P N a.st:3:1 range 1..32768\nRANGE MAIN.N 0..32767\nEND open 1 waived 0\n",
    },
    Row {
        text: "program p end_program",
        status: Status::Clean,
        output: "VERDICT FREE\nEND open 0 waived 0\n",
    },
    Row {
        text: "PROGRAM P VAR END_VAR END_PROGRAM",
        status: Status::Clean,
        output: "VERDICT FREE\nEND open 0 waived 0\n",
    },
    // Empty statements leave nothing in the tree.
    Row {
        text: "PROGRAM P VAR a : INT; END_VAR ; a := 1;; (* x *) ; END_PROGRAM",
        status: Status::Clean,
        output: "VERDICT FREE\nRANGE MAIN.A 0..1\nEND open 0 waived 0\n",
    },
    // The outer sum is numbered first, and so is its alarm.
    Row {
        text: "PROGRAM P\r\nVAR a : INT; END_VAR\r\n\ta := a + 1 + 1;\r\nEND_PROGRAM",
        status: Status::Open,
        output: "VERDICT ALARMS 2\nALARM A4 Overflow P A a.st:3:2 range 2..32768\nALARM A4 Overflow P A a.st:3:2 range 1..32768\nRANGE MAIN.A 0..32767\nEND open 2 waived 0\n",
    },
    // A minus before a number is part of the literal, also behind an operator and over blanks.
    Row {
        text: "PROGRAM P VAR _a, B2 : INT; c : INT; END_VAR\n_A := 3 - - 5; b2 := -32767; C := - 0 + 32767; END_PROGRAM",
        status: Status::Clean,
        output: "VERDICT FREE\nRANGE MAIN._A 0..127\nRANGE MAIN.B2 -32767..0\nRANGE MAIN.C 0..32767\nEND open 0 waived 0\n",
    },
    // What comes behind an assignment that always overflows is not reached.
    Row {
        text: "PROGRAM P VAR a, b : INT; END_VAR a := 32767 + 1; b := 7; END_PROGRAM",
        status: Status::Open,
        output: "VERDICT ALARMS 1\nALARM A4 Overflow P A a.st:1:35 range 32768..32768\nRANGE MAIN.A 0..0\nRANGE MAIN.B 0..0\nEND open 1 waived 0\n",
    },
    // The head of the cycle grows over several rounds: b takes what a had, c what b had.
    Row {
        text: "PROGRAM P VAR a, b, c : INT; END_VAR c := b; b := a; a := 9; END_PROGRAM",
        status: Status::Clean,
        output: "VERDICT FREE\nRANGE MAIN.A 0..9\nRANGE MAIN.B 0..9\nRANGE MAIN.C 0..9\nEND open 0 waived 0\n",
    },
    // A literal's neighbours are on the grid, other numbers are rounded outward.
    Row {
        text: "PROGRAM P VAR a, b : INT; END_VAR a := 40; a := a - 1; b := a - 1; END_PROGRAM",
        status: Status::Clean,
        output: "VERDICT FREE\nRANGE MAIN.A 0..40\nRANGE MAIN.B 0..39\nEND open 0 waived 0\n",
    },
    // The bounds of the type, the lower one by a sum.
    Row {
        text: "PROGRAM P VAR a, b : INT; END_VAR a := 32767; b := -32767 - 1; END_PROGRAM",
        status: Status::Clean,
        output: "VERDICT FREE\nRANGE MAIN.A 0..32767\nRANGE MAIN.B -32768..0\nEND open 0 waived 0\n",
    },
    // Names and reserved words are the same in any case; the program's name is none of the variables'.
    Row {
        text: "Program Abc Var aBc : Int; End_Var ABC := abc; End_Program",
        status: Status::Clean,
        output: "VERDICT FREE\nRANGE MAIN.ABC 0..0\nEND open 0 waived 0\n",
    },
    // Differences group to the left: 1 - 2 - 3 is -4, and not 2.
    Row {
        text: "PROGRAM P VAR a : INT; END_VAR a := 1 - 2 - 3; END_PROGRAM",
        status: Status::Clean,
        output: "VERDICT FREE\nRANGE MAIN.A -128..0\nEND open 0 waived 0\n",
    },
    // Zeros before a number, and a variable that counts down.
    Row {
        text: "PROGRAM P VAR a, n : INT; END_VAR a := 00000000000000000000000000000000000000000000007; n := n - 1; END_PROGRAM",
        status: Status::Open,
        output: "VERDICT ALARMS 1\nALARM A4 Overflow P N a.st:1:89 range -32769..-1\nRANGE MAIN.A 0..7\nRANGE MAIN.N -32768..0\nEND open 1 waived 0\n",
    },
];

/// Files of forms that aren't analysed yet.
const NOT_ANALYSED: [&str; 24] = [
    "",
    "(* x *) // y",
    "PROGRAM P\nVAR n : INT; END_VAR\nIF n < 100 THEN n := n + 1; END_IF;\nEND_PROGRAM\n",
    "PROGRAM P END_PROGRAM PROGRAM Q END_PROGRAM",
    // A name that is declared again, also in another case.
    "PROGRAM P VAR n, N : INT; END_VAR END_PROGRAM",
    "PROGRAM P VAR n : INT; m, n : INT; END_VAR END_PROGRAM",
    "PROGRAM P VAR n : SINT; END_VAR END_PROGRAM",
    "PROGRAM P VAR n : INT; END_VAR VAR m : INT; END_VAR END_PROGRAM",
    // A name that isn't declared.
    "PROGRAM P VAR n : INT; END_VAR\nm := 1; END_PROGRAM",
    "PROGRAM P VAR n : INT; END_VAR\nn := m; END_PROGRAM",
    // Numbers above 32767, and those that aren't plain digits.
    "PROGRAM P VAR n : INT; END_VAR\nn := 32768; END_PROGRAM",
    "PROGRAM P VAR n : INT; END_VAR\nn := -32768; END_PROGRAM",
    "PROGRAM P VAR n : INT; END_VAR\nn := 1_000; END_PROGRAM",
    "PROGRAM P VAR a : INT; END_VAR a := 16#F; END_PROGRAM",
    "PROGRAM P VAR a : INT; END_VAR a := INT#1; END_PROGRAM",
    "PROGRAM P VAR a : INT; END_VAR a := (1); END_PROGRAM",
    "PROGRAM P VAR a : INT; END_VAR a := -a; END_PROGRAM",
    "PROGRAM P VAR a : INT; END_VAR a := a * 2; END_PROGRAM",
    "PROGRAM P VAR a : INT := 1; END_VAR END_PROGRAM",
    "PROGRAM P VAR CONSTANT END_VAR END_PROGRAM",
    // Parentheses.
    "PROGRAM P VAR a : INT; END_VAR a := (1) - 2; END_PROGRAM",
    "PROGRAM P VAR a : INT; END_VAR a := 1 - (2 - 3); END_PROGRAM",
    // A chart.
    "PROGRAM P INITIAL_STEP s : END_STEP END_PROGRAM",
    "FUNCTION F : INT END_FUNCTION",
];

/// Texts that are refused, and where.
const REFUSED: [(&str, &str, &str); 32] = [
    ("(* a (* b *)", "1:1", "3 OpenComment"),
    ("PROGRAM IF END_PROGRAM", "1:9", "6 Grammar"),
    ("PROGRAM P", "1:10", "6 Grammar"),
    ("PROGRAM P END_PROGRAM PROGRAM", "1:30", "6 Grammar"),
    (
        "PROGRAM P VAR n : INT END_VAR END_PROGRAM",
        "1:23",
        "6 Grammar",
    ),
    (
        "PROGRAM P VAR n : INT; END_VAR\nn := 5a; END_PROGRAM",
        "2:6",
        "4 BadNumber",
    ),
    (
        "PROGRAM P VAR n : INT; END_VAR\nn := 5.; END_PROGRAM",
        "2:7",
        "6 Grammar",
    ),
    (
        "PROGRAM P VAR n : INT; END_VAR\nn := - - 5; END_PROGRAM",
        "2:8",
        "6 Grammar",
    ),
    (
        "PROGRAM P VAR n : INT; END_VAR\nn := n + ; END_PROGRAM",
        "2:10",
        "6 Grammar",
    ),
    (
        "PROGRAM P VAR n : INT; END_VAR\nn := 1 n; END_PROGRAM",
        "2:8",
        "6 Grammar",
    ),
    (
        "PROGRAM P VAR a__b : INT; END_VAR END_PROGRAM",
        "1:15",
        "5 BadName",
    ),
    (
        "PROGRAM P VAR a : INT; END_VAR\n\n  \u{e9} END_PROGRAM",
        "3:3",
        "2 BadByte",
    ),
    ("PROGRAM _ END_PROGRAM", "1:9", "5 BadName"),
    ("PROGRAM a_ END_PROGRAM", "1:9", "5 BadName"),
    (
        "PROGRAM P a := 1; VAR a : INT; END_VAR END_PROGRAM",
        "1:19",
        "6 Grammar",
    ),
    (
        "PROGRAM P VAR a, : INT; END_VAR END_PROGRAM",
        "1:18",
        "6 Grammar",
    ),
    (
        "PROGRAM P VAR : INT; END_VAR END_PROGRAM",
        "1:15",
        "6 Grammar",
    ),
    (
        "PROGRAM P VAR a : INT; END_VAR a = 1; END_PROGRAM",
        "1:34",
        "6 Grammar",
    ),
    (
        "PROGRAM P VAR a : INT; END_VAR a := 1;",
        "1:39",
        "6 Grammar",
    ),
    ("PROGRAM P END_PROGRAM;", "1:22", "6 Grammar"),
    ("(* x *) {y} // z\nEND_PROGRAM", "2:1", "6 Grammar"),
    (
        "PROGRAM P VAR a : INT; END_VAR a := 3#1; END_PROGRAM",
        "1:38",
        "6 Grammar",
    ),
    // A token that isn't well formed comes before what the grammar refuses, wherever it stands.
    ("END_PROGRAM x__y", "1:13", "5 BadName"),
    ("PROGRAM PROGRAM ~", "1:17", "2 BadByte"),
    ("x__y", "1:1", "5 BadName"),
    (" T#1d2d", "1:2", "4 BadNumber"),
    ("16#G", "1:1", "4 BadNumber"),
    ("~", "1:1", "2 BadByte"),
    ("{ x", "1:1", "3 OpenComment"),
    (
        "PROGRAM P\n\n  (* (* *) END_PROGRAM",
        "3:3",
        "3 OpenComment",
    ),
    ("PROGRAM P ACTION a : END_ACTION", "1:11", "6 Grammar"),
    ("PROGRAM P ; STEP s : END_STEP", "1:13", "6 Grammar"),
];

/// Whether a call ended with this status and this output.
fn ended(found: &Outcome, status: Status, output: &[u8]) -> bool {
    found.status == status && found.output.as_slice() == output
}

const NOT_BUILT: &[u8] = b"VERDICT NOT ANALYSED NotBuilt\nEND open 0 waived 0\n";

#[test]
fn analysed_texts(rt: HostRuntime) -> Result<(), Fail> {
    for row in &ANALYSED {
        let found = result_over(&rt, &CHECK, row.text.as_bytes(), &[], &[])?;
        assert!(rt;
            ended(&found, row.status, row.output.as_bytes()),
            "{}: {found:?}",
            row.text
        );
    }
    Ok(())
}

#[test]
fn not_analysed_texts(rt: HostRuntime) -> Result<(), Fail> {
    for text in &NOT_ANALYSED {
        let found = result_over(&rt, &CHECK, text.as_bytes(), &[], &[])?;
        assert!(rt;
            ended(&found, Status::NotAnalysed, NOT_BUILT),
            "{text}: {found:?}"
        );
    }
    Ok(())
}

#[test]
fn refused_texts(rt: HostRuntime) -> Result<(), Fail> {
    for (text, place, fault) in &REFUSED {
        let found = result_over(&rt, &CHECK, text.as_bytes(), &[], &[])?;
        let output = format!(in rt.alloc();
            "VERDICT REFUSED a.st:{place} {fault}\nEND open 0 waived 0\n"
        )?;
        assert!(rt;
            ended(&found, Status::Refused, output.as_bytes()),
            "{text}: {found:?}"
        );
    }
    Ok(())
}

#[test]
fn refused_bytes(rt: HostRuntime) -> Result<(), Fail> {
    let found = result_over(&rt, &CHECK, b"~\xff", &[], &[])?;
    let output = b"VERDICT REFUSED a.st:1:2 1 NotUtf8\nEND open 0 waived 0\n";
    assert!(rt; ended(&found, Status::Refused, output) && found.parsed == 0);
    Ok(())
}

#[test]
fn words(rt: HostRuntime) -> Result<(), Fail> {
    let misused: [&[&str]; 6] = [
        &[],
        &["check"],
        &["check", ""],
        &["check", "-a"],
        &["check", "a.st", "b.st"],
        &["Check", "a.st"],
    ];
    let usage = b"USAGE check serve import-waivers export-findings generate\n";
    for words in misused {
        let found = result_over(&rt, words, b"", &[], &[])?;
        assert!(rt; ended(&found, Status::Usage, usage), "{words:?}");
    }
    let missing = result_over(&rt, &["check", "b.st"], b"", &[], &[])?;
    assert!(rt; ended(&missing, Status::ReadFault, b"ERROR read b.st\n"));
    Ok(())
}

#[test]
fn limits(rt: HostRuntime) -> Result<(), Fail> {
    let above = vec![in rt.alloc(); b' '; 1_048_577]?;
    let found = result_over(&rt, &CHECK, &above, &[], &[])?;
    assert!(rt; ended(&found, Status::TooLong, b"ERROR too long a.st\n"));
    let longest = vec![in rt.alloc(); b' '; 1_048_576]?;
    let within = result_over(&rt, &CHECK, &longest, &[], &[])?;
    assert!(rt; ended(&within, Status::NotAnalysed, NOT_BUILT));
    Ok(())
}

#[test]
fn large_text(rt: HostRuntime) -> Result<(), Fail> {
    let mut text = Vec::from_slice(rt.alloc(), b"PROGRAM P VAR a, b : INT; END_VAR\n")?;
    for _ in 0..5000 {
        text.extend_from_slice(b"a := 1 + 2; b := a;\n")?;
    }
    text.extend_from_slice(b"END_PROGRAM\n")?;
    let found = result_over(&rt, &CHECK, &text, &[], &[])?;
    let output = b"VERDICT FREE\nRANGE MAIN.A 0..3\nRANGE MAIN.B 0..3\nEND open 0 waived 0\n";
    assert!(rt; ended(&found, Status::Clean, output) && found.parsed == 50_011);
    Ok(())
}

#[test]
fn failing_calls(rt: HostRuntime) -> Result<(), Fail> {
    let text = b"PROGRAM P END_PROGRAM".as_slice();
    let read = result_over(&rt, &CHECK, text, &[1], &[])?;
    assert!(rt; ended(&read, Status::ReadFault, b"ERROR read a.st\n"));
    let put = result_over(&rt, &CHECK, text, &[], &[1])?;
    assert!(rt; ended(&put, Status::WriteFault, b""));
    let both = result_over(&rt, &CHECK, text, &[1], &[1])?;
    assert!(rt; ended(&both, Status::WriteFault, b""));
    let later = result_over(&rt, &CHECK, text, &[2], &[2])?;
    assert!(rt;
        ended(
            &later,
            Status::Clean,
            b"VERDICT FREE\nEND open 0 waived 0\n"
        )
    );
    assert!(rt; later.parsed == 3 && later.solved == 1);
    Ok(())
}

#[test]
fn over_sure_forms(rt: HostRuntime) -> Result<(), Fail> {
    let found = sure_result(&rt)?;
    assert!(rt; ended(&found, Status::NotAnalysed, NOT_BUILT) && found.parsed == 0);
    Ok(())
}

/// Whether the source gives so many bytes, or fails so.
fn gives(source: &mut MemorySource, into: &mut [u8], wanted: Result<usize, Failed>) -> bool {
    source.take(into) == wanted
}

#[test]
fn sources(rt: HostRuntime) -> Result<(), Fail> {
    let alloc = rt.alloc();
    let mut source = MemorySource::of(
        Vec::from_slice(alloc, b"abc")?,
        Vec::from_slice(alloc, &[2])?,
    );
    let mut into = [0; 2];
    assert!(rt; gives(&mut source, &mut into, Ok(2)) && into == *b"ab");
    assert!(rt; gives(&mut source, &mut into, Err(Failed)));
    assert!(rt; gives(&mut source, &mut into, Ok(1)));
    assert!(rt; gives(&mut source, &mut into, Ok(0)));
    let mut sure = SureSource::of(Vec::from_slice(alloc, b"c")?);
    assert!(rt; sure.take(&mut into) == Ok(1));
    assert!(rt; sure.take(&mut into) == Ok(0));
    Ok(())
}
