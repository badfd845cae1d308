// Compares components and orders with a plain search over random graphs, and times both: with the words `compare` and `time`.
#![tactic(auto)]

mod checks;
mod plain;
mod random;
mod shapes;

use checks::{has_right_components, has_right_order};
use plain::Reach;
use random::Random;
use reference_graph::{Graph, components, order};
use shapes::{NAMES, shape};
use std::alloc::{AllocError, Global};
use std::io::Write;
use std::process::ExitCode;
use std::time::Instant;
use std::{env, io};

/// How many random graphs are compared.
const COMPARED: usize = 4000;

const SEED: u64 = 20260101;

fn main(rt: HostRuntime) -> ExitCode {
    match asked(&rt) {
        Ok(true) => ExitCode::SUCCESS,
        _ => ExitCode::from(1),
    }
}

/// Does what the words ask for, and tells whether no difference was found.
fn asked(rt: &HostRuntime) -> io::Result<bool> {
    let mut same = true;
    for word in env::args(rt)?.skip(1) {
        match word.as_str() {
            "compare" => same = compare(rt)?,
            "time" => time_all(rt)?,
            _ => {},
        }
    }
    Ok(same)
}

/// Compares random graphs of up to eight nodes, up to the first difference.
fn compare(rt: &HostRuntime) -> io::Result<bool> {
    let mut random = Random::new(SEED);
    for place in 0..COMPARED {
        let nodes = random.below(9);
        let most = random.below(5);
        let graph = random.graph(rt.alloc(), nodes, most)?;
        if !is_right(rt.alloc(), &graph)? {
            println!(rt; "graph {place} of seed {SEED}: {graph:?}")?;
            return Ok(false);
        }
    }
    println!(rt; "{COMPARED} graphs, no difference")?;
    Ok(true)
}

fn is_right(alloc: Global, graph: &Graph) -> Result<bool, AllocError> {
    let reach = Reach::of(alloc, graph)?;
    Ok(has_right_components(alloc, graph, &reach)? && has_right_order(alloc, graph, &reach)?)
}

fn time_all(rt: &HostRuntime) -> io::Result<()> {
    for name in &NAMES {
        time(rt, name)?;
    }
    Ok(())
}

fn time(rt: &HostRuntime, name: &str) -> io::Result<()> {
    let graph = shape(rt.alloc(), name, SEED)?;
    let start = Instant::now(rt)?;
    let numbers = components(rt.alloc(), &graph)?;
    let numbered = start.elapsed(rt)?.as_micros();
    let again = Instant::now(rt)?;
    let ordered = order(rt.alloc(), &graph)?;
    let took = again.elapsed(rt)?.as_micros();
    println!(rt;
        "{name}: {} nodes, {} components in {numbered} us; order {} in {took} us",
        graph.nodes(),
        checks::count(&graph, &numbers),
        if ordered.is_some() {
            "found"
        } else {
            "refused"
        }
    )?;
    Ok(())
}
