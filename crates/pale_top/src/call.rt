//! A call of the program: its words, then its text, then what its mode writes.
ghost use Rattle.std.specs.Prelude.{◌≡◌, ◌≢◌, ◌≤◌, ◌+◌, ◌⊎◌, ℕ, List, length, true, false, Ok, IfSome, map};
ghost use Rattle.std.specs.String.{string_bytes};
ghost use Rattle.pale_io.specs.Faults.{Rose};
ghost use Rattle.pale_io.specs.Told.{without_first};
ghost use Rattle.pale_io.specs.Whole.{ReadsFront};
ghost use Rattle.pale_words.specs.declared.words.Settings.{Settings};
ghost use Rattle.pale_generator.specs.Generated.{program_text};
ghost use Rattle.whole_program.specs.ProgramTexts.{IsReadAs};
ghost use Rattle.pale_words.specs.Words.{AsksFor, Gives, IsRefused};
ghost use Rattle.pale_parts.specs.Parts.{IsCutAs};
ghost use Rattle.pale_status.specs.Report.{too_long_line};
ghost use Rattle.pale_status.specs.Texts.{most_bytes};
ghost use Rattle.pale_status.specs.Written.{Wrote};
ghost use Rattle.program_promises.specs.Safety.{IsSafe};
ghost use Rattle.program_promises.specs.Completeness.{IsWithinPeaks};
ghost use Rattle.pale_top.specs.Completing.{Completes, GensEach};
ghost use Rattle.pale_top.specs.Output.{Answers, Begins, IsAnswer, IsCutShort, CallOutput};

use crate::text::pale_bytes;
use pale_io::{ReadStop, Sink, Source, read_all};
use pale_status::{MOST_BYTES, Status, ended, say};
use pale_words::{Mode, WordsStop, read_words};
use std::alloc::{AllocError, Global};
use ws2s_pass::PassList;

/// Whether the words ask for a mode that reads a text.
fn reads_text(alloc: Global, words: &Vec<String>) -> Result<bool, AllocError>
    ensures reads { result ≡ Ok true → (settings : Settings) × Gives (map string_bytes words.now.items) settings × (settings.mode ≢ Mode.Gen) }
    ensures unread { result ≡ Ok false → IsRefused (map string_bytes words.now.items) ⊎ AsksFor (map string_bytes words.now.items) Mode.Gen }
{
    match read_words(alloc, words) {
        Ok(settings) => match settings.mode {
            Mode::Gen => Ok(false),
            Mode::Check
            | Mode::Replay
            | Mode::Format
            | Mode::Ws2s
            | Mode::Judge
            | Mode::Meet
            | Mode::Run
            | Mode::Trace => Ok(true),
        },
        Err(WordsStop::Refused) => Ok(false),
        Err(WordsStop::NoMemory) => Err(AllocError),
    }
}

/// Reads the whole text, and does what the words ask for.
fn answer<S: Source, K: Sink>(
    alloc: Global,
    words: &Vec<String>,
    source: &mut S,
    sink: &mut K,
    passes: &PassList,
) -> Status
    requires { (settings : Settings) × Gives (map string_bytes words.now.items) settings × (settings.mode ≢ Mode.Gen) }
    ensures answer { IsAnswer result → Answers (CallOutput (map string_bytes words.now.items))
        (S.left source.old) (K.written sink.old) (K.written sink.new) result }
    ensures begins { IsCutShort result → Begins (CallOutput (map string_bytes words.now.items))
        (S.left source.old) (K.written sink.old) (K.written sink.new) }

    ensures each_answered { IsAnswer result → (settings : _) → Gives (map string_bytes words.now.items) settings →
        IfSome (S.left source.old) (λ text. length text ≤ most_bytes → Completes settings text (K.written sink.old) (K.written sink.new) result) }
    ensures whole_runs { result ≡ Status.Good → AsksFor (map string_bytes words.now.items) Mode.Check → IfSome (S.left source.old) IsSafe }
    ensures safe_runs { result ≡ Status.Bad → AsksFor (map string_bytes words.now.items) Mode.Run →
        IfSome (S.left source.old) (λ text. (part after : List ℕ) → IsCutAs text part after → IsSafe part → ⊥) }
    ensures complete { IsAnswer result → (settings : _) → Gives (map string_bytes words.now.items) settings → settings.mode ≡ Mode.Check →
        IfSome (S.left source.old) (λ text. length text ≤ most_bytes → IsWithinPeaks settings.limit text →
        (result ≡ Status.Good) ⊎ (result ≡ Status.Bad)) }

    ensures read_fault { result ≡ Status.ReadFault → Rose (S.faults source.old) (S.faults source.new) }
    ensures unwritten { result ≡ Status.ReadFault → sink.new ≡ sink.old }
    ensures write_fault { result ≡ Status.WriteFault → Rose (K.faults sink.old) (K.faults sink.new) }

    ensures read { IsAnswer result → S.left source.new ≡ without_first (most_bytes + 1) (S.left source.old) }
    ensures taken { ReadsFront most_bytes (S.left source.old) (S.left source.new) }
    ensures source_kept { S.faults source.old ≤ S.faults source.new }
    ensures sink_kept { K.faults sink.old ≤ K.faults sink.new }
{
    match read_all(alloc, source, MOST_BYTES) {
        Ok(text) => pale_bytes(alloc, words, &text, sink, passes),
        Err(ReadStop::TooLong) => ended(say(sink, b"refused too-long\n", Status::Text)),
        Err(ReadStop::Fault) => Status::ReadFault,
        Err(ReadStop::NoMemory) => Status::Memory,
    }
}

/// Does what the words ask for: reads the source, writes its reports to the sink, and says how the call ended.
///
/// The words are read first. Where they are refused, the usage line is written, and the source is not read; nor is it in the mode
/// `gen`. `Memory` is want of memory, `ReadFault` a fault of the source, after which nothing was written, and `WriteFault` a fault
/// of the sink. `Limit` comes in the modes `check`, `gen` and `ws2s` alone, only by a Peak above the number of `--limit`, whatever
/// the passes are. Where `check` answers `Good`, no whole run of the program fails, with its loops and calls, that starts from a
/// store which meets the entry of its procedure.
pub fn pale_main<S: Source, K: Sink>(
    alloc: Global,
    words: &Vec<String>,
    source: &mut S,
    sink: &mut K,
    passes: &PassList,
) -> Status
    // What was written is the output for the words and for all that the source had left, and the status is that output's.
    ensures answer { IsAnswer result → Answers (CallOutput (map string_bytes words.now.items))
        (S.left source.old) (K.written sink.old) (K.written sink.new) result }
    // At want of memory and at a fault of the sink, it begins such an output.
    ensures begins { IsCutShort result → Begins (CallOutput (map string_bytes words.now.items))
        (S.left source.old) (K.written sink.old) (K.written sink.new) }

    // What has no fault gets its answer, and each field and triple whose own Peak is within the limit its verdict.
    ensures each_answered { IsAnswer result → (settings : _) → Gives (map string_bytes words.now.items) settings →
        IfSome (S.left source.old) (λ text. length text ≤ most_bytes → Completes settings text (K.written sink.old) (K.written sink.new) result) }
    // And what `gen` counts is such a report of the program of its seed.
    ensures each_counted { IsAnswer result → (settings : _) → Gives (map string_bytes words.now.items) settings → settings.mode ≡ Mode.Gen →
        length (program_text settings.seed) ≤ most_bytes → (program : _) (triples : _) → IsReadAs (program_text settings.seed) program triples →
        Wrote (GensEach settings.limit settings.seed program triples) (K.written sink.old) (K.written sink.new) result }

    // Where a check answers Good, no whole run fails, and so `run` doesn't answer Bad for what begins with that program; and below the
    // Peaks a check answers Good or Bad.
    ensures whole_runs { result ≡ Status.Good → AsksFor (map string_bytes words.now.items) Mode.Check → IfSome (S.left source.old) IsSafe }
    ensures safe_runs { result ≡ Status.Bad → AsksFor (map string_bytes words.now.items) Mode.Run →
        IfSome (S.left source.old) (λ text. (part after : List ℕ) → IsCutAs text part after → IsSafe part → ⊥) }
    ensures complete { IsAnswer result → (settings : _) → Gives (map string_bytes words.now.items) settings → settings.mode ≡ Mode.Check →
        IfSome (S.left source.old) (λ text. length text ≤ most_bytes → IsWithinPeaks settings.limit text →
        (result ≡ Status.Good) ⊎ (result ≡ Status.Bad)) }

    // The causes of the two faults.
    ensures read_fault { result ≡ Status.ReadFault → Rose (S.faults source.old) (S.faults source.new) }
    ensures unwritten { result ≡ Status.ReadFault → sink.new ≡ sink.old }
    ensures write_fault { result ≡ Status.WriteFault → Rose (K.faults sink.old) (K.faults sink.new) }

    // With words that are refused, and in the mode `gen`, the source isn't read; else it is read whole, or up to what shows that
    // there is too much.
    ensures unread { IsRefused (map string_bytes words.now.items) ⊎ AsksFor (map string_bytes words.now.items) Mode.Gen →
        (source.new ≡ source.old) × (result ≢ Status.ReadFault) }
    ensures read { IsAnswer result → (settings : _) → Gives (map string_bytes words.now.items) settings → settings.mode ≢ Mode.Gen →
        S.left source.new ≡ without_first (most_bytes + 1) (S.left source.old) }
    ensures taken { ReadsFront most_bytes (S.left source.old) (S.left source.new) }

    ensures source_kept { S.faults source.old ≤ S.faults source.new }
    ensures sink_kept { K.faults sink.old ≤ K.faults sink.new }
{
    match reads_text(alloc, words) {
        Ok(true) => answer(alloc, words, source, sink, passes),
        Ok(false) => pale_bytes(alloc, words, &[], sink, passes),
        Err(_) => Status::Memory,
    }
}
