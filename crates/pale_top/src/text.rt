//! A call on a text that is at hand: its words, and what its mode writes for the text.
ghost use Rattle.std.specs.Prelude.{◌≡◌, ◌≢◌, ◌≤◌, ◌⊎◌, ℕ, List, length, IfOk, OnErr, IsErrOf, map};
ghost use Rattle.std.specs.String.{string_bytes};
ghost use Rattle.pale_io.specs.Faults.{Rose};
ghost use Rattle.pale_generator.specs.Generated.{program_text};
ghost use Rattle.whole_program.specs.ProgramTexts.{IsReadAs};
ghost use Rattle.pale_words.specs.Words.{AsksFor, Gives, IsLimit};
ghost use Rattle.pale_parts.specs.Parts.{IsCutAs};
ghost use Rattle.pale_status.specs.Report.{too_long_line};
ghost use Rattle.pale_status.specs.Texts.{most_bytes};
ghost use Rattle.pale_status.specs.Written.{Wrote, WroteAtMost};
ghost use Rattle.program_promises.specs.Safety.{IsSafe};
ghost use Rattle.program_promises.specs.Completeness.{IsWithinPeaks};
ghost use Rattle.pale_top.specs.Completing.{Completes, GensEach};
ghost use Rattle.pale_top.specs.Output.{IsAnswer, IsCutShort, CallOutput, Output, usage_line};

use pale_io::{Sink, WriteStop};
use pale_judging::{check_text, gen_text, judge_text, meet_text};
use pale_modes::{
    decide_text, format_text, formatting_is_one, replay_text, run_text,
    texts_within_their_peaks_are_decided, trace_text,
};
use pale_status::{MOST_BYTES, Status, ended, say};
use pale_words::{Mode, Settings, WordsStop, read_words};
use program_judge::meet_laws::starts_are_told_within_their_peaks;
use program_promises::{
    good_reports_have_safe_runs, reports_tell_each_within_its_peak,
    reports_within_the_peaks_are_verdicts, texts_have_one_reading,
};
use std::alloc::Global;
use ws2s_pass::PassList;

/// Writes what the settings give for a text, in the modes that read one.
fn answer_text<K: Sink>(
    alloc: Global,
    settings: Settings,
    text: &[u8],
    passes: &PassList,
    sink: &mut K,
) -> Result<Status, WriteStop>
    requires limit { IsLimit settings.limit }
    requires reads { settings.mode ≢ Mode.Gen }
    ensures ok { IfOk result (Wrote (Output settings text.now) (K.written sink.old) (K.written sink.new)) }
    ensures err { OnErr result (WroteAtMost (Output settings text.now) (K.written sink.old) (K.written sink.new)) }
    ensures failed { IsErrOf result WriteStop.Failed → Rose (K.faults sink.old) (K.faults sink.new) }
    ensures kept { K.faults sink.old ≤ K.faults sink.new }
{
    if text.len() > MOST_BYTES {
        return say(sink, b"refused too-long\n", Status::Text);
    }
    match settings.mode {
        Mode::Check => check_text(alloc, settings.limit, text, passes, sink),
        Mode::Replay => replay_text(alloc, text, sink),
        Mode::Format => format_text(alloc, text, sink),
        Mode::Ws2s => decide_text(alloc, settings.limit, text, sink),
        Mode::Judge => judge_text(alloc, settings.limit, text, passes, sink),
        Mode::Meet => meet_text(alloc, settings.limit, text, passes, sink),
        Mode::Run => run_text(alloc, text, sink),
        Mode::Trace => trace_text(alloc, text, sink),
        Mode::Gen => unreachable!(),
    }
}

/// Writes what the settings give for a text, at which `gen` doesn't look.
fn obey<K: Sink>(
    alloc: Global,
    settings: Settings,
    text: &[u8],
    passes: &PassList,
    sink: &mut K,
) -> Result<Status, WriteStop>
    requires { IsLimit settings.limit }
    ensures ok { IfOk result (Wrote (Output settings text.now) (K.written sink.old) (K.written sink.new)) }
    ensures err { OnErr result (WroteAtMost (Output settings text.now) (K.written sink.old) (K.written sink.new)) }
    ensures failed { IsErrOf result WriteStop.Failed → Rose (K.faults sink.old) (K.faults sink.new) }
    ensures kept { K.faults sink.old ≤ K.faults sink.new }
{
    match settings.mode {
        Mode::Gen => gen_text(alloc, settings.limit, settings.seed, passes, sink),
        Mode::Check
        | Mode::Replay
        | Mode::Format
        | Mode::Ws2s
        | Mode::Judge
        | Mode::Meet
        | Mode::Run
        | Mode::Trace => answer_text(alloc, settings, text, passes, sink),
    }
}

/// Writes what the words ask for, or the usage line where they are refused.
fn answer_words<K: Sink>(
    alloc: Global,
    words: &Vec<String>,
    text: &[u8],
    passes: &PassList,
    sink: &mut K,
) -> Result<Status, WriteStop>
    ensures ok { IfOk result (Wrote (CallOutput (map string_bytes words.now.items) text.now) (K.written sink.old) (K.written sink.new)) }
    ensures err { OnErr result (WroteAtMost (CallOutput (map string_bytes words.now.items) text.now) (K.written sink.old) (K.written sink.new)) }
    ensures failed { IsErrOf result WriteStop.Failed → Rose (K.faults sink.old) (K.faults sink.new) }
    ensures kept { K.faults sink.old ≤ K.faults sink.new }
{
    match read_words(alloc, words) {
        Ok(settings) => obey(alloc, settings, text, passes, sink),
        Err(WordsStop::Refused) => {
            let usage = b"usage: pale MODE [--limit N] [--seed N]\n";
            say(sink, usage, Status::Words)
        }
        Err(WordsStop::NoMemory) => Err(WriteStop::NoMemory),
    }
}

/// Does what the words ask for with a text that is at hand, writes its reports to the sink, and says how the call ended: the
/// call of whoever has a text and wants its answer, by which the program answers too. All that it promises is said of the
/// bytes of the text themselves.
///
/// Where the words are refused, the usage line is written; at the text is then not looked, nor in the mode `gen`. `Memory` is
/// want of memory and `WriteFault` a fault of the sink; `ReadFault` doesn't come, and `Limit` as in [`crate::pale_main`].
pub fn pale_bytes<K: Sink>(
    alloc: Global,
    words: &Vec<String>,
    text: &[u8],
    sink: &mut K,
    passes: &PassList,
) -> Status
    // What was written is the output for the words and the text, and the status is that output's.
    ensures answer { IsAnswer result → Wrote (CallOutput (map string_bytes words.now.items) text.now)
        (K.written sink.old) (K.written sink.new) result }
    // At want of memory and at a fault of the sink, it begins such an output.
    ensures begins { IsCutShort result → WroteAtMost (CallOutput (map string_bytes words.now.items) text.now)
        (K.written sink.old) (K.written sink.new) }

    // What has no fault gets its answer, and each field and triple whose own Peak is within the limit its verdict.
    ensures each_answered { IsAnswer result → (settings : _) → Gives (map string_bytes words.now.items) settings → length text.now ≤ most_bytes →
        Completes settings text.now (K.written sink.old) (K.written sink.new) result }
    // And what `gen` counts is such a report of the program of its seed.
    ensures each_counted { IsAnswer result → (settings : _) → Gives (map string_bytes words.now.items) settings → settings.mode ≡ Mode.Gen →
        length (program_text settings.seed) ≤ most_bytes → (program : _) (triples : _) → IsReadAs (program_text settings.seed) program triples →
        Wrote (GensEach settings.limit settings.seed program triples) (K.written sink.old) (K.written sink.new) result }

    // Where a check answers Good, no whole run fails; and below the Peaks it answers Good or Bad.
    ensures whole_runs { result ≡ Status.Good → AsksFor (map string_bytes words.now.items) Mode.Check → IsSafe text.now }
    // So where the program's part is such a text, `run` never answers that the run failed.
    ensures safe_runs { result ≡ Status.Bad → AsksFor (map string_bytes words.now.items) Mode.Run → (part after : List ℕ) →
        IsCutAs text.now part after → IsSafe part → ⊥ }
    ensures complete { IsAnswer result → (settings : _) → Gives (map string_bytes words.now.items) settings → settings.mode ≡ Mode.Check →
        length text.now ≤ most_bytes → IsWithinPeaks settings.limit text.now → (result ≡ Status.Good) ⊎ (result ≡ Status.Bad) }

    // The cause of a fault.
    ensures no_read_fault { result ≢ Status.ReadFault }
    ensures write_fault { result ≡ Status.WriteFault → Rose (K.faults sink.old) (K.faults sink.new) }
    ensures sink_kept { K.faults sink.old ≤ K.faults sink.new }
{
    // Only for what they say.
    texts_have_one_reading();
    good_reports_have_safe_runs();
    reports_within_the_peaks_are_verdicts();
    reports_tell_each_within_its_peak();
    starts_are_told_within_their_peaks();
    formatting_is_one();
    texts_within_their_peaks_are_decided();
    ended(answer_words(alloc, words, text, passes, sink))
}
