//! The mode `replay`: a store executed through a triple of a program.
ghost use Rattle.std.specs.Prelude.{◌≡◌, ◌≤◌, length, IfOk, OnErr, IsErrOf};
ghost use Rattle.pale_io.specs.Faults.{Rose};
ghost use Rattle.pale_status.specs.Written.{Wrote, WroteAtMost};
ghost use Rattle.pale_modes.specs.Replaying.{Replays, status_of};
ghost use Rattle.pale_status.specs.Texts.{most_bytes};

use pale_io::{Sink, WriteStop};
use pale_replay::{Answer, replay};
use pale_status::{Status, refuse, say};
use std::alloc::Global;

fn status_of(answer: Answer) -> Status
    ensures { result ≡ status_of answer }
{
    match answer {
        Answer::StoreRefused(_, _) | Answer::NotWellFormed(_) | Answer::StartFalse => Status::Text,
        Answer::Fails(_, _) => Status::Bad,
        Answer::Ends(_) => Status::Good,
    }
}

/// Writes what is said of a text that isn't too long: of its store in a triple of its program, or the line of its first fault.
pub fn replay_text<K: Sink>(alloc: Global, text: &[u8], sink: &mut K) -> Result<Status, WriteStop>
    requires { length text.now ≤ most_bytes }
    ensures ok { IfOk result (Wrote (Replays text.now) (K.written sink.old) (K.written sink.new)) }
    ensures err { OnErr result (WroteAtMost (Replays text.now) (K.written sink.old) (K.written sink.new)) }
    ensures failed { IsErrOf result WriteStop.Failed → Rose (K.faults sink.old) (K.faults sink.new) }
    ensures kept { K.faults sink.old ≤ K.faults sink.new }
{
    match replay(alloc, text) {
        Ok(replay) => say(sink, replay.line.as_slice(), status_of(replay.answer)),
        Err(stop) => refuse(alloc, stop, sink),
    }
}
