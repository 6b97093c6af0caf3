// The top call: words in, a status out.
ghost use Rattle.std.specs.Prelude.{◌≡◌, ◌≢◌, ◌⊎◌, ◌+◌, ◌<◌, ◌≤◌, true, ℕ, List, [], ◌∷◌, length, map, Some, None, Err};
ghost use Rattle.std.specs.String.{string_bytes};
ghost use Rattle.dst_spec.specs.declared.faults.FrameFault.{FrameFault};
ghost use Rattle.dst_streams.specs.Causes.{Rose};
ghost use Rattle.dst_streams.specs.Told.{and_then};
ghost use Rattle.dsdiff_spec.specs.declared.faults.FileFault.{FileFault};
ghost use Rattle.dsdiff_spec.specs.Form.{sound_bytes_of};
ghost use Rattle.dsdiff_spec.specs.Rules.{accepted};
ghost use Rattle.dsdiff_spec.specs.Lines as reports;
ghost use Rattle.words_spec.specs.Rows.{command_of};
ghost use Rattle.dsdiff_spec.specs.Words as asked;
ghost use Rattle.dsdiff_spec.specs.Outcome.{Answer, frame_refused};
ghost use Rattle.words_spec.specs.Outcome.{Outcome};
ghost use Rattle.dst_tool.specs.Runs.{DidNotRise, Ends, EndsAs, IsCaused, Reports, IsRefused, NoFrameIsRefused, ReadsNothing, WritesFile, WritesNowhere, most_given, longest_sound};

use crate::run_by::dst_run_by;
use dst_streams::{Sink, Source};
use frame_crew::OpenGate;
use std::alloc::Global;
use std::thread::{Threads, available_parallelism};

/// Runs the command of these words: reads `source`, writes `sink`, and reports lines of text to `report`. It answers the
/// status: 0 done, 1 words not understood, 2 read fault, 3 write fault, 4 memory, 5 file refused, 6 frame refused, 7
/// report fault.
///
/// As many workers work as the words ask for, and no more than there are processors: more would wait for one another.
pub fn dst_run<E: Threads + Sync, S: Source, K: Sink, R: Sink>(
    rt: &E,
    alloc: Global,
    words: &[String],
    source: &mut S,
    sink: &mut K,
    report: &mut R,
) -> u8
    // Where the source tells its bytes and no count of faults rose, the status, what is written and the report are those
    // of the one outcome, or the status is 4.
    ensures headline { (file : List ℕ) → S.bytes source.old ≡ Some file →
        DidNotRise (S.faults source.old) (S.faults source.new) → DidNotRise (K.faults sink.old) (K.faults sink.new) → DidNotRise (R.faults report.old) (R.faults report.new) →
        (result ≡ 4) ⊎ ((lines : List reports.Line) × EndsAs (map string_bytes words.now) file result lines (K.written sink.old) (K.written sink.new)
        × (R.written report.new ≡ and_then (R.written report.old) (reports.report lines))) }
    // Lawful words, a file that is accepted, none of its frames refused, and no count that rose: it is done, or memory
    // was refused.
    ensures complete { (file : List ℕ) → S.bytes source.old ≡ Some file → NoFrameIsRefused (map string_bytes words.now) file →
        DidNotRise (S.faults source.old) (S.faults source.new) → DidNotRise (K.faults sink.old) (K.faults sink.new) → DidNotRise (R.faults report.old) (R.faults report.new) →
        (result ≡ 0) ⊎ (result ≡ 4) }
    // What sink and report hold behind each status; 7 comes where the lines of another one failed, and a fault of source or
    // sink behind it has its cause too. No line is added in parts: what calls that succeeded appended is all of the
    // lines, or behind 7 the first few of them whole.
    ensures ends { (file : List ℕ) → S.bytes source.old ≡ Some file →
        (status : ℕ) × (lines : List reports.Line) × Ends (map string_bytes words.now) file status lines (K.written sink.old) (K.written sink.new)
        × IsCaused status (S.faults source.old) (S.faults source.new) (K.faults sink.old) (K.faults sink.new)
        × Reports status lines result (R.written report.old) (R.written report.new) (R.appended report.old) (R.appended report.new) }
    // Words are refused by themselves, and touch nothing.
    ensures words { command_of (map string_bytes words.now) ≡ None → (result ≡ 1) ⊎ (result ≡ 7) }
    ensures only_words { result ≡ 1 → command_of (map string_bytes words.now) ≡ None }
    ensures untouched { command_of (map string_bytes words.now) ≡ None → (source.new ≡ source.old) × (sink.new ≡ sink.old) }
    // A command that writes no file makes no call on the sink, so that the sink isn't at fault.
    ensures no_call { (c : asked.Command) → command_of (map string_bytes words.now) ≡ Some c → WritesNowhere c → sink.new ≡ sink.old }
    ensures no_write { (c : asked.Command) → command_of (map string_bytes words.now) ≡ Some c → WritesNowhere c → result ≢ 3 }
    // One that makes its sound makes no call on the source: it ends with the outcome of no bytes, whatever the source tells,
    // and neither the source nor a file is at fault.
    ensures no_read { (c : asked.Command) → command_of (map string_bytes words.now) ≡ Some c → ReadsNothing c → source.new ≡ source.old }
    ensures made { (c : asked.Command) → command_of (map string_bytes words.now) ≡ Some c → ReadsNothing c →
        (status : ℕ) × (lines : List reports.Line) × Ends (map string_bytes words.now) [] status lines (K.written sink.old) (K.written sink.new)
        × IsCaused status (S.faults source.old) (S.faults source.new) (K.faults sink.old) (K.faults sink.new)
        × Reports status lines result (R.written report.old) (R.written report.new) (R.appended report.old) (R.appended report.new) }
    ensures no_file { (c : asked.Command) → command_of (map string_bytes words.now) ≡ Some c → ReadsNothing c → (result ≢ 2) × (result ≢ 5) × (result ≢ 6) }
    // What a done command has written is where the sink keeps it for good: of a real file, on its disk.
    ensures settled { (c : asked.Command) → command_of (map string_bytes words.now) ≡ Some c → WritesFile c → result ≡ 0 → K.settled sink.new ≡ true }
    // No call changes the source's bytes, and no count of faults falls.
    ensures bytes { S.bytes source.new ≡ S.bytes source.old }
    ensures later_source { S.faults source.old ≤ S.faults source.new }
    ensures later_sink { K.faults sink.old ≤ K.faults sink.new }
    ensures later_report { R.faults report.old ≤ R.faults report.new }
    // Devices fail by their own cause.
    ensures read { result ≡ 2 → Rose (S.faults source.old) (S.faults source.new) }
    ensures write { result ≡ 3 → Rose (K.faults sink.old) (K.faults sink.new) }
    ensures reported { result ≡ 7 → Rose (R.faults report.old) (R.faults report.new) }
    // A sink that is sure to take the outcome's bytes doesn't fail; nor does a report that is sure to take its lines and
    // the line on memory, which has 7 bytes, where no other device failed.
    ensures sure_sink { (file : List ℕ) → S.bytes source.old ≡ Some file → (o : Answer) → Outcome (map string_bytes words.now) file o →
        (room : ℕ) → K.room sink.old ≡ Some room → length o.out ≤ room → result ≡ 3 → ⊥ }
    ensures sure_report { (file : List ℕ) → S.bytes source.old ≡ Some file → (o : Answer) → Outcome (map string_bytes words.now) file o →
        DidNotRise (S.faults source.old) (S.faults source.new) → DidNotRise (K.faults sink.old) (K.faults sink.new) →
        (room : ℕ) → R.room report.old ≡ Some room → 7 ≤ room → length (reports.report o.lines) ≤ room → result ≡ 7 → ⊥ }
    // Want of memory and a refused file come before the first call on the sink.
    ensures memory { result ≡ 4 → sink.new ≡ sink.old }
    ensures file { result ≡ 5 → sink.new ≡ sink.old }
    // Of a refused file the sink isn't called, whatever fails.
    ensures no_output { (file : List ℕ) (fault : FileFault) → S.bytes source.old ≡ Some file → IsRefused (map string_bytes words.now) file fault → sink.new ≡ sink.old }
    // Want of memory has its line, whatever the source tells.
    ensures memory_line { result ≡ 4 → R.written report.new ≡ and_then (R.written report.old) (reports.report (reports.memory_line ∷ [])) }
    // The index of a file without frames has no line: no call is made on the report.
    ensures silent { command_of (map string_bytes words.now) ≡ Some asked.index → (file : List ℕ) → S.bytes source.old ≡ Some file →
        (accepted file).frames ≡ 0 → result ≡ 0 → report.new ≡ report.old }
    // A file is refused by the fault that is reported, and so is a frame, behind what is written.
    ensures refused { result ≡ 5 → (file : List ℕ) → S.bytes source.old ≡ Some file →
        (fault : FileFault) × IsRefused (map string_bytes words.now) file fault
        × (R.written report.new ≡ and_then (R.written report.old) (reports.report (reports.file_line fault ∷ []))) }
    ensures frame { result ≡ 6 → (file : List ℕ) → S.bytes source.old ≡ Some file →
        (k : ℕ) × (fault : FrameFault) × (out : List ℕ) × Outcome (map string_bytes words.now) file (frame_refused k fault out)
        × (K.written sink.new ≡ and_then (K.written sink.old) out)
        × (R.written report.new ≡ and_then (R.written report.old) (reports.report (reports.frame_fault_line k fault ∷ []))) }
    // A frame that is found by the index takes few bytes of the source: a frame's sound having so many, or the most.
    ensures by_index { (k : ℕ) → command_of (map string_bytes words.now) ≡ Some (asked.frame k true) → (file : List ℕ) → S.bytes source.old ≡ Some file →
        S.given source.new ≤ S.given source.old + most_given (sound_bytes_of (accepted file)) }
    ensures any_source { (k : ℕ) → command_of (map string_bytes words.now) ≡ Some (asked.frame k true) →
        S.given source.new ≤ S.given source.old + most_given longest_sound }
    ensures status { result ≤ 7 }
{
    let most_workers = processors(rt);
    dst_run_by(
        rt,
        alloc,
        words,
        source,
        sink,
        report,
        most_workers,
        &OpenGate,
    )
}

// How many processors this program may use, or more than any words ask for where the system doesn't say.
fn processors<E: Threads>(rt: &E) -> u32
    ensures { 0 < result }
{
    match available_parallelism(rt) {
        Ok(count) => u32::try_from(count.get()).unwrap_or(u32::MAX),
        Err(_) => u32::MAX,
    }
}
