//! The mode `format`: a program in its canonical spelling.
ghost use Rattle.std.specs.Prelude.{◌≤◌, length, IfOk, OnErr, IsErrOf};
ghost use Rattle.pale_io.specs.Faults.{Rose};
ghost use Rattle.pale_print.specs.Spelling.{spelling};
ghost use Rattle.pale_text.specs.declared.refusal.Refusal.{Refusal};
ghost use Rattle.pale_modes.specs.Formatting.{Formats};
ghost use Rattle.pale_status.specs.Written.{Wrote, WroteAtMost};
ghost use Rattle.pale_status.specs.Report.{refused_line};
ghost use Rattle.pale_status.specs.Texts.{most_bytes};

use pale_io::{Sink, WriteStop};
use pale_parse::parse;
use pale_print::print_program;
use pale_status::{Status, refuse, say};
use pale_syntax::Program;
use pale_text::{TextStop, lex};
use std::alloc::Global;

/// The program of a text that isn't too long, or its first fault.
fn read_program(alloc: Global, text: &[u8]) -> Result<Program, TextStop>
    requires { length text.now ≤ most_bytes }
    ensures program { IfOk result (λ tree. Formats text.now (spelling tree) Status.Good) }
    ensures refused { (refusal : Refusal) → IsErrOf result (TextStop.Refused refusal) → Formats text.now (refused_line refusal) Status.Text }
{
    let list = lex(alloc, text)?;
    parse(alloc, &list)
}

/// Writes the canonical spelling of a text that isn't too long, or the line of its first fault.
pub fn format_text<K: Sink>(alloc: Global, text: &[u8], sink: &mut K) -> Result<Status, WriteStop>
    requires { length text.now ≤ most_bytes }
    ensures ok { IfOk result (Wrote (Formats text.now) (K.written sink.old) (K.written sink.new)) }
    ensures err { OnErr result (WroteAtMost (Formats text.now) (K.written sink.old) (K.written sink.new)) }
    ensures failed { IsErrOf result WriteStop.Failed → Rose (K.faults sink.old) (K.faults sink.new) }
    ensures kept { K.faults sink.old ≤ K.faults sink.new }
{
    match read_program(alloc, text) {
        Ok(program) => {
            let printed = print_program(alloc, &program)?;
            say(sink, printed.as_slice(), Status::Good)
        }
        Err(stop) => refuse(alloc, stop, sink),
    }
}
