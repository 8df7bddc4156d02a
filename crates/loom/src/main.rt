//! `loom`: reads a document from the standard input, and writes one line of answer to the standard
//! output. The exit status says how it went.
#![tactic(auto)]

use loom_base::{NoMemory, StdSink, StdSource};
use loom_rules::{BusySplice, CrowdedSegment, DesignRule, LongWire, add_rule};
use loom_top::{Status, run};
use std::io::ErrorKind;
use std::process::ExitCode;
use std::{env, io};

/// The words after the program's name.
fn words_of(rt: &HostRuntime) -> io::Result<Vec<String>> {
    let words = env::args(rt)?.skip(1).collect(rt.alloc())?;
    Ok(words)
}

/// How a run ends of which the words can't be read.
fn status_of(error: &io::Error) -> Status {
    if error.kind() == ErrorKind::OutOfMemory {
        Status::NoMemory
    } else {
        Status::Usage
    }
}

/// Does the job of the words over the standard streams, with the design rules of the program: wires
/// longer than 10 m, segments with more than 200 wires and splices with more than 12.
fn run_words(rt: &HostRuntime, words: &[String]) -> Result<Status, NoMemory> {
    let alloc = rt.alloc();
    let mut rules: Vec<Box<dyn DesignRule>> = Vec::new(alloc);
    add_rule(&mut rules, Box::new(alloc, LongWire::new(alloc, 10_000))?)?;
    add_rule(
        &mut rules,
        Box::new(alloc, CrowdedSegment::new(alloc, 200))?,
    )?;
    add_rule(&mut rules, Box::new(alloc, BusySplice::new(alloc, 12))?)?;
    let mut source = StdSource::new(rt.stdin());
    let mut sink = StdSink::new(rt.stdout());
    Ok(run(alloc, words, &mut source, &mut sink, rules))
}

fn main(rt: HostRuntime) -> ExitCode {
    let status = match words_of(&rt) {
        Ok(words) => run_words(&rt, words.as_slice()).unwrap_or(Status::NoMemory),
        Err(error) => status_of(&error),
    };
    ExitCode::from(status.number())
}
