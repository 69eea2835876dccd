//! The program: the words of the process, standard input and standard output.
//!
//! All that is proved of it stands in `pale_top`, over a source and a sink of bytes. Nobody may look at standard
//! error: nothing is written there.
#![tactic(auto)]

mod passes;

ghost use Rattle.std.specs.Prelude.{IfOk};
ghost use Rattle.ws2s_pass.specs.Rewriting.{IsRewriting};

use crate::passes::{dropped, flattened, folded, listed, narrowed};
use pale_io::{StdSink, StdSource};
use pale_top::{Status, pale_main};
use std::alloc::{AllocError, Global};
use std::process::ExitCode;
use std::{env, io};
use ws2s_core::Formula;
use ws2s_pass::Rewriter;

/// The words of the process. Where they can't be had as text, there are none.
fn words_of(rt: &HostRuntime) -> Result<Vec<String>, AllocError> {
    match env::args(rt) {
        Ok(words) => words.collect(rt.alloc()),
        Err(error) if error.kind() == io::ErrorKind::OutOfMemory => Err(AllocError),
        Err(_) => Ok(Vec::new(rt.alloc())),
    }
}

/// The call with the four passes, in the order in which they run. They are made here and not handed out, since a contract
/// says nothing of a closure that is handed out.
fn run(rt: &HostRuntime) -> Result<Status, AllocError> {
    let alloc = rt.alloc();
    let flattening: Rewriter = Box::new(
        alloc,
        |alloc: Global, formula: &Formula| -> Result<Formula, AllocError>
            ensures { IfOk result (λ made. IsRewriting formula.now made) }
        { flattened(alloc, formula) },
    )?;
    let folding: Rewriter = Box::new(
        alloc,
        |alloc: Global, formula: &Formula| -> Result<Formula, AllocError>
            ensures { IfOk result (λ made. IsRewriting formula.now made) }
        { folded(alloc, formula) },
    )?;
    let narrowing: Rewriter = Box::new(
        alloc,
        |alloc: Global, formula: &Formula| -> Result<Formula, AllocError>
            ensures { IfOk result (λ made. IsRewriting formula.now made) }
        { narrowed(alloc, formula) },
    )?;
    let dropping: Rewriter = Box::new(
        alloc,
        |alloc: Global, formula: &Formula| -> Result<Formula, AllocError>
            ensures { IfOk result (λ made. IsRewriting formula.now made) }
        { dropped(alloc, formula) },
    )?;
    let passes = listed(alloc, flattening, folding, narrowing, dropping)?;
    let words = words_of(rt)?;
    let mut source = StdSource::new(rt.stdin());
    let mut sink = StdSink::new(rt.stdout());
    Ok(pale_main(alloc, &words, &mut source, &mut sink, &passes))
}

fn main(rt: HostRuntime) -> ExitCode {
    match run(&rt) {
        Ok(status) => ExitCode::from(status.number()),
        Err(_) => ExitCode::from(Status::Memory.number()),
    }
}
