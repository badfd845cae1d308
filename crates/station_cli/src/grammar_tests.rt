// Texts that the grammar takes or refuses: what `check` and `parse_file` make of them.
ghost use Rattle.std.specs.Prelude.{◌≡◌};

use crate::grammar_texts::{Table, charts, declarations, expressions, files, statements};
use crate::status::Status;
use crate::tests::{CHECK, result_over};
use st_lexer::LexFault;
use st_tree::SourceTree;
use st_units::{ParseFault, parse_file};
use station_ports::steps::Steps;
use std::alloc::{AllocError, Global};
use std::marker::Brand;
use std::sync::ledger::{Blank, Ledger};
use std::test::Fail;
use tree_copies::Copied;

/// The status of a text that is refused for this fault, or for none.
fn status_of(fault: &str) -> Status {
    if fault.is_empty() {
        Status::NotAnalysed
    } else {
        Status::Refused
    }
}

/// The report on a text that is refused for this fault, or for none.
fn report_of(alloc: Global, fault: &str) -> Result<String, AllocError> {
    let verdict = if fault.is_empty() {
        "NOT ANALYSED NotBuilt"
    } else {
        "REFUSED a.st:"
    };
    format!(in alloc; "VERDICT {verdict}{fault}\nEND open 0 waived 0\n")
}

/// What `parse_file` gave, and the parse steps that it counted.
#[derive(Drop)]
struct Answer {
    result: Result<SourceTree, ParseFault>,
    steps: u64,
}

fn parsed<L: Ledger>(rt: &HostRuntime, blank: Blank, text: &[u8]) -> Answer
    requires name { blank.name ≡ L.name }
    requires parts { blank.parts ≡ L.parts }
    requires two { blank.parts ≡ 2 }
{
    let mut steps = Steps::<L>::new(rt, blank);
    let result = parse_file(rt.alloc(), text, &mut steps);
    Answer {
        result,
        steps: steps.parsed(),
    }
}

fn parsed_text(rt: &HostRuntime, text: &str) -> Answer {
    parsed::<Brand>(rt, Blank::new(2), text.as_bytes())
}

/// Whether this is a tree that can be copied, or a refusal for this fault.
fn is_taken(alloc: Global, answer: &Result<SourceTree, ParseFault>, fault: &str) -> bool {
    match answer {
        Ok(tree) => fault.is_empty() && tree.copy(alloc).is_ok(),
        Err(ParseFault::At { code, .. } | ParseFault::Lex(LexFault::At { code, .. })) => {
            !fault.is_empty() && fault.ends_with(code.name())
        }
        Err(_) => false,
    }
}

/// Whether a text has a tree that can be copied, or is refused for this fault, with so many parse steps.
fn is_tree_of(rt: &HostRuntime, text: &str, fault: &str, steps: u64) -> bool {
    let found = parsed_text(rt, text);
    found.steps == steps && is_taken(rt.alloc(), &found.result, fault)
}

/// Whether `check` and `parse_file` take a text as this fault says, or as a file of a form that isn't analysed where there is none.
pub(crate) fn is_taken_as(rt: &HostRuntime, text: &str, fault: &str) -> Result<bool, AllocError> {
    let report = report_of(rt.alloc(), fault)?;
    let found = result_over(rt, &CHECK, text.as_bytes(), &[], &[])?;
    Ok(
        found.status == status_of(fault)
            && found.output.as_slice() == report.as_bytes()
            && is_tree_of(rt, text, fault, found.parsed),
    )
}

/// The number of the first text of a table that isn't taken as the table says.
fn wrong_text(rt: &HostRuntime, table: &Table) -> Result<Option<usize>, AllocError> {
    for (number, row) in table.texts.iter().enumerate() {
        let text = format!(in rt.alloc(); "{}{}{}", table.before, row.0, table.after)?;
        if !is_taken_as(rt, &text, row.1)? {
            return Ok(Some(number));
        }
    }
    Ok(None)
}

#[test]
fn files_taken(rt: HostRuntime) -> Result<(), Fail> {
    for table in &files::TABLES {
        let wrong = wrong_text(&rt, table)?;
        assert!(rt; wrong.is_none(), "{} {wrong:?}", table.before);
    }
    Ok(())
}

#[test]
fn declarations_taken(rt: HostRuntime) -> Result<(), Fail> {
    for table in &declarations::TABLES {
        let wrong = wrong_text(&rt, table)?;
        assert!(rt; wrong.is_none(), "{} {wrong:?}", table.before);
    }
    Ok(())
}

#[test]
fn statements_taken(rt: HostRuntime) -> Result<(), Fail> {
    for table in &statements::TABLES {
        let wrong = wrong_text(&rt, table)?;
        assert!(rt; wrong.is_none(), "{} {wrong:?}", table.before);
    }
    Ok(())
}

#[test]
fn expressions_taken(rt: HostRuntime) -> Result<(), Fail> {
    for table in &expressions::TABLES {
        let wrong = wrong_text(&rt, table)?;
        assert!(rt; wrong.is_none(), "{} {wrong:?}", table.before);
    }
    Ok(())
}

#[test]
fn charts_taken(rt: HostRuntime) -> Result<(), Fail> {
    for table in &charts::TABLES {
        let wrong = wrong_text(&rt, table)?;
        assert!(rt; wrong.is_none(), "{} {wrong:?}", table.before);
    }
    Ok(())
}
