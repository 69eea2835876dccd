//! The mode `run`: a whole run of a procedure of a program from a store.
ghost use Rattle.std.specs.Prelude.{◌≡◌, ◌≤◌, length, IfOk, OnErr, IsErrOf};
ghost use Rattle.pale_io.specs.Faults.{Rose};
ghost use Rattle.pale_status.specs.Written.{Wrote, WroteAtMost};
ghost use Rattle.pale_modes.specs.Running.{Runs, status_of, status_of_ran};
ghost use Rattle.pale_status.specs.Texts.{most_bytes};

use pale_io::{Sink, WriteStop};
use pale_run::{Answer, run};
use pale_status::{Status, refuse, say};
use std::alloc::Global;

fn status_of_ran(answer: &whole_exec::Answer) -> Status
    ensures { result ≡ status_of_ran answer.now }
{
    match answer {
        whole_exec::Answer::Running | whole_exec::Answer::Exit(_) => Status::Good,
        whole_exec::Answer::Fail(_, _) => Status::Bad,
    }
}

fn status_of(answer: &Answer) -> Status
    ensures { result ≡ status_of answer.now }
{
    match answer {
        Answer::StoreRefused(_, _) | Answer::NotWellFormed(_) | Answer::StartFalse => Status::Text,
        Answer::Ran(answer) => status_of_ran(answer),
    }
}

/// Writes what is said of a text that isn't too long: of its store in the run of a procedure of its program, or the line of its first
/// fault.
pub fn run_text<K: Sink>(alloc: Global, text: &[u8], sink: &mut K) -> Result<Status, WriteStop>
    requires { length text.now ≤ most_bytes }
    ensures ok { IfOk result (Wrote (Runs text.now) (K.written sink.old) (K.written sink.new)) }
    ensures err { OnErr result (WroteAtMost (Runs text.now) (K.written sink.old) (K.written sink.new)) }
    ensures failed { IsErrOf result WriteStop.Failed → Rose (K.faults sink.old) (K.faults sink.new) }
    ensures kept { K.faults sink.old ≤ K.faults sink.new }
{
    match run(alloc, text) {
        Ok(said) => say(sink, said.text.as_slice(), status_of(&said.answer)),
        Err(stop) => refuse(alloc, stop, sink),
    }
}
