//! The mode `ws2s`: the answer to a WS2S text.
ghost use Rattle.std.specs.Prelude.{◌≡◌, ◌≤◌, ◌++◌, ℕ, List, length, codes, IfOk, OnErr, IsErrOf};
ghost use Rattle.pale_io.specs.Faults.{Rose};
ghost use Rattle.ws2s_core.specs.LabelTrees.{assignment_of};
ghost use Rattle.ws2s_example.specs.Examples.{HaveOnePosition, IsExampleText};
ghost use Rattle.ws2s_answer.specs.Answering.{IsAnswer};
ghost use Rattle.pale_words.specs.Words.{IsLimit};
ghost use Rattle.pale_modes.specs.Deciding.{Decides, Says, HasSmallFormulas, status_of};
ghost use Rattle.pale_status.specs.Written.{Wrote, WroteAtMost};
ghost use Rattle.pale_status.specs.Texts.{most_bytes};

use pale_io::{Sink, WriteStop};
use pale_status::{Status, refuse, say};
use std::alloc::{AllocError, Global};
use ws2s_answer::{Answer, answer_of};
use ws2s_core::LabelTree;
use ws2s_example::example_lines;
use ws2s_read::read_ws2s;
use ws2s_reduce::ReduceFault;
use ws2s_syntax::Ws2sText;

/// What is written for an answer without an example.
fn line(alloc: Global, bytes: &[u8]) -> Result<Vec<u8>, AllocError>
    ensures { IfOk result (λ text. text.items ≡ bytes.now) }
{
    Vec::from_slice(alloc, bytes)
}

/// What is written of a text that is satisfiable, with the example.
fn example_report(
    alloc: Global,
    text: &Ws2sText,
    example: &LabelTree,
) -> Result<Vec<u8>, AllocError>
    requires { HaveOnePosition text.now.free (assignment_of example.now) }
    ensures { IfOk result (λ report. (lines : List ℕ) × IsExampleText text.now.free (assignment_of example.now) lines
        × (report.items ≡ codes "satisfiable\n" ++ lines)) }
{
    let lines = example_lines(alloc, text.free(), example)?;
    let mut report = Vec::new(alloc);
    report.extend_from_slice(b"satisfiable\n")?;
    report.extend_from_slice(lines.as_slice())?;
    Ok(report)
}

/// What is written of a text with this answer.
fn report_of(
    alloc: Global,
    limit: u32,
    text: &Ws2sText,
    answer: &Answer,
) -> Result<Vec<u8>, AllocError>
    requires true_of { IsAnswer limit text.now answer.now }
    requires small { HasSmallFormulas text.now }
    ensures { IfOk result (λ report. Says limit text.now report.items (status_of answer.now)) }
{
    match answer {
        Answer::Unsatisfiable => line(alloc, b"unsatisfiable\n"),
        Answer::Valid => line(alloc, b"valid\n"),
        Answer::TooLarge => line(alloc, b"satisfiable\nexample too large\n"),
        Answer::Limit => line(alloc, b"limit\n"),
        Answer::Example(example) => example_report(alloc, text, example),
    }
}

fn status_of(answer: &Answer) -> Status
    ensures { result ≡ status_of answer.now }
{
    match answer {
        Answer::Unsatisfiable | Answer::Valid | Answer::Example(_) | Answer::TooLarge =>
            Status::Good,
        Answer::Limit => Status::Limit,
    }
}

/// Writes an answer that is true of the text.
fn write_answer<K: Sink>(
    alloc: Global,
    limit: u32,
    text: &Ws2sText,
    answer: &Answer,
    sink: &mut K,
) -> Result<Status, WriteStop>
    requires true_of { IsAnswer limit text.now answer.now }
    requires small { HasSmallFormulas text.now }
    ensures ok { IfOk result (Wrote (Says limit text.now) (K.written sink.old) (K.written sink.new)) }
    ensures err { OnErr result (WroteAtMost (Says limit text.now) (K.written sink.old) (K.written sink.new)) }
    ensures failed { IsErrOf result WriteStop.Failed → Rose (K.faults sink.old) (K.faults sink.new) }
    ensures kept { K.faults sink.old ≤ K.faults sink.new }
{
    let report = report_of(alloc, limit, text, answer)?;
    say(sink, report.as_slice(), status_of(answer))
}

/// Writes the answer to a text, by decision nodes of which there are at most `limit` at a time.
fn answer_tree<K: Sink>(
    alloc: Global,
    limit: u32,
    text: &Ws2sText,
    sink: &mut K,
) -> Result<Status, WriteStop>
    requires { IsLimit limit }
    ensures ok { IfOk result (Wrote (Says limit text.now) (K.written sink.old) (K.written sink.new)) }
    ensures err { OnErr result (WroteAtMost (Says limit text.now) (K.written sink.old) (K.written sink.new)) }
    ensures failed { IsErrOf result WriteStop.Failed → Rose (K.faults sink.old) (K.faults sink.new) }
    ensures kept { K.faults sink.old ≤ K.faults sink.new }
{
    match answer_of(alloc, text, limit) {
        Ok(answer) => write_answer(alloc, limit, text, &answer, sink),
        Err(ReduceFault::BigFormula) => say(sink, b"refused 1:1 big-formula\n", Status::Text),
        Err(ReduceFault::NoMemory) => Err(WriteStop::NoMemory),
    }
}

/// Writes the answer to a text that isn't too long, or the line of its first fault.
pub fn decide_text<K: Sink>(
    alloc: Global,
    limit: u32,
    text: &[u8],
    sink: &mut K,
) -> Result<Status, WriteStop>
    requires within { length text.now ≤ most_bytes }
    requires limit { IsLimit limit }
    ensures ok { IfOk result (Wrote (Decides limit text.now) (K.written sink.old) (K.written sink.new)) }
    ensures err { OnErr result (WroteAtMost (Decides limit text.now) (K.written sink.old) (K.written sink.new)) }
    ensures failed { IsErrOf result WriteStop.Failed → Rose (K.faults sink.old) (K.faults sink.new) }
    ensures kept { K.faults sink.old ≤ K.faults sink.new }
{
    match read_ws2s(alloc, text) {
        Ok(tree) => answer_tree(alloc, limit, &tree, sink),
        Err(stop) => refuse(alloc, stop, sink),
    }
}
