// The guideline station: `check FILE`.
#![tactic(auto)]

ghost use Rattle.std.specs.Prelude.{◌≡◌};

#[cfg(test)]
mod cut_tests;
#[cfg(test)]
mod depth_tests;
#[cfg(test)]
mod grammar_tests;
#[cfg(test)]
mod grammar_texts;
pub mod law;
mod report;
pub mod run;
pub mod status;
#[cfg(test)]
mod tests;
pub mod words;

use station_ports::os::{OsFiles, OsOut};
use station_ports::outside::NoMemory;
use station_ports::steps::Steps;
use status::Status;
use std::env;
use std::io::ErrorKind;
use std::marker::Brand;
use std::process::ExitCode;
use std::sync::ledger::{Blank, Ledger};

fn main(rt: HostRuntime) -> ExitCode {
    ExitCode::from(start::<Brand>(&rt, Blank::new(2)).code())
}

/// Makes the real objects and runs the words after the program's name over them.
fn start<L: Ledger>(rt: &HostRuntime, blank: Blank) -> Status
    requires name { blank.name ≡ L.name }
    requires parts { blank.parts ≡ L.parts }
    requires two { blank.parts ≡ 2 }
{
    let mut files = OsFiles::new(rt);
    let mut out = OsOut::new(rt);
    let mut steps = Steps::<L>::new(rt, blank);
    match read_args(rt) {
        Ok(words) => run::run(rt.alloc(), &words, &mut files, &mut out, &mut steps),
        Err(NoMemory) => run::write_no_memory(&mut out),
    }
}

/// The words after the program's name; none where one isn't text.
fn read_args(rt: &HostRuntime) -> Result<Vec<String>, NoMemory> {
    let mut words = Vec::new(rt.alloc());
    match env::args(rt) {
        Ok(args) => {
            for word in args.skip(1) {
                if words.push(word).is_err() {
                    return Err(NoMemory);
                }
            }
        }
        Err(error) if error.kind() == ErrorKind::OutOfMemory => return Err(NoMemory),
        Err(_) => {}
    }
    Ok(words)
}
