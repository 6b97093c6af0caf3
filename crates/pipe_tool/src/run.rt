// The call on a pipe.
ghost use Rattle.std.specs.Prelude.{◌≡◌, ◌⊎◌, ◌+◌, ◌<◌, ◌≤◌, true, false, ℕ, List, [], ◌∷◌, length, map, Some, None, Err};
ghost use Rattle.std.specs.String.{string_bytes};
ghost use Rattle.dst_spec.specs.declared.faults.FrameFault.{FrameFault};
ghost use Rattle.dst_streams.specs.Causes.{Rose};
ghost use Rattle.dst_streams.specs.Told.{IsCutShort, and_then};
ghost use Rattle.dsdiff_spec.specs.declared.faults.FileFault.{FileFault};
ghost use Rattle.dsdiff_spec.specs.Lines as reports;
ghost use Rattle.dsdiff_spec.specs.Outcome.{Answer, frame_refused};
ghost use Rattle.dsdiff_spec.specs.Streams.{stream};
ghost use Rattle.stream_spec.specs.Outcome.{stream_refused};
ghost use Rattle.dst_pipes.specs.declared.faults.PipeFault.{PipeFault};
ghost use Rattle.pipe_tool.specs.Words as asked;
ghost use Rattle.pipe_tool.specs.Runs.{DidNotRise, status_of, line_of, PipeOutcome, Ends, EndsAs, Reports, NoFrameIsRefused};

use crate::words::is_pipe;
use dst_lines::lines;
use dst_pipes::{PipeFault, Piped, decode_pipe};
use dst_streams::{Flow, Sink};
use std::alloc::Global;

/// Does what the words `pipe OUT` ask for: decodes a coded file that comes as a flow, appends the plain file of its sounds to `sink`, and reports a line. It answers the
/// status: 0 done, 1 other words, 2 read fault, 3 write fault, 4 memory, 5 stream refused, 6 frame refused, 7 report fault.
pub fn dst_pipe<F: Flow, K: Sink, R: Sink>(
    alloc: Global,
    words: &[String],
    flow: &mut F,
    sink: &mut K,
    report: &mut R,
) -> u8
    // Where the flow tells its bytes and no count of faults rose, the status, what is written and the report are those of the one outcome, or the
    // status is 4.
    ensures headline { (w : List ℕ) → F.left flow.old ≡ Some w →
        DidNotRise (F.faults flow.old) (F.faults flow.new) → DidNotRise (K.faults sink.old) (K.faults sink.new) → DidNotRise (R.faults report.old) (R.faults report.new) →
        (result ≡ 4) ⊎ ((lines : List reports.Line) × EndsAs (map string_bytes words.now) w result lines (K.written sink.old) (K.written sink.new)
        × (R.written report.new ≡ and_then (R.written report.old) (reports.report lines))) }
    // Lawful words, a stream that ends behind its last frame, none of its frames refused, and no count that rose: it is done, or memory was refused.
    ensures complete { (w : List ℕ) → F.left flow.old ≡ Some w → NoFrameIsRefused (map string_bytes words.now) w →
        DidNotRise (F.faults flow.old) (F.faults flow.new) → DidNotRise (K.faults sink.old) (K.faults sink.new) → DidNotRise (R.faults report.old) (R.faults report.new) →
        (result ≡ 0) ⊎ (result ≡ 4) }
    // What sink and report hold behind each status; 7 comes where the line of another one failed, and a fault of flow or sink behind it has its cause
    // too. The line isn't appended in parts.
    ensures ends { (w : List ℕ) → F.left flow.old ≡ Some w →
        (status : ℕ) × (lines : List reports.Line) × Ends (map string_bytes words.now) w status lines (K.written sink.old) (K.written sink.new)
        × (status ≡ 2 → Rose (F.faults flow.old) (F.faults flow.new)) × (status ≡ 3 → Rose (K.faults sink.old) (K.faults sink.new))
        × Reports status lines result (R.written report.old) (R.written report.new) (R.appended report.old) (R.appended report.new) }
    // Words are refused by themselves, and touch nothing.
    ensures words { asked.is_pipe (map string_bytes words.now) ≡ false → (result ≡ 1) ⊎ (result ≡ 7) }
    ensures only_words { result ≡ 1 → asked.is_pipe (map string_bytes words.now) ≡ false }
    ensures untouched { asked.is_pipe (map string_bytes words.now) ≡ false → (flow.new ≡ flow.old) × (sink.new ≡ sink.old) }
    // What is written is where the sink keeps it for good: of a real file, on its disk.
    ensures settled { result ≡ 0 → K.settled sink.new ≡ true }
    // No count of faults falls.
    ensures later_flow { F.faults flow.old ≤ F.faults flow.new }
    ensures later_sink { K.faults sink.old ≤ K.faults sink.new }
    ensures later_report { R.faults report.old ≤ R.faults report.new }
    // Devices fail by their own cause.
    ensures read { result ≡ 2 → Rose (F.faults flow.old) (F.faults flow.new) }
    ensures write { result ≡ 3 → Rose (K.faults sink.old) (K.faults sink.new) }
    ensures reported { result ≡ 7 → Rose (R.faults report.old) (R.faults report.new) }
    // A sink that is sure to take the outcome's bytes doesn't fail; nor does a report that is sure to take its lines and the line on memory, which has
    // 7 bytes, where no other device failed.
    ensures sure_sink { (w : List ℕ) → F.left flow.old ≡ Some w → (o : Answer) → PipeOutcome (map string_bytes words.now) w o →
        (room : ℕ) → K.room sink.old ≡ Some room → length o.out ≤ room → result ≡ 3 → ⊥ }
    ensures sure_report { (w : List ℕ) → F.left flow.old ≡ Some w → (o : Answer) → PipeOutcome (map string_bytes words.now) w o →
        DidNotRise (F.faults flow.old) (F.faults flow.new) → DidNotRise (K.faults sink.old) (K.faults sink.new) →
        (room : ℕ) → R.room report.old ≡ Some room → 7 ≤ room → length (reports.report o.lines) ≤ room → result ≡ 7 → ⊥ }
    // Want of memory comes before the first call on the sink, and has its line, whatever the flow tells.
    ensures memory { result ≡ 4 → sink.new ≡ sink.old }
    ensures memory_line { result ≡ 4 → R.written report.new ≡ and_then (R.written report.old) (reports.report (reports.memory_line ∷ [])) }
    // A stream that ends in front of its frames: the sink isn't called.
    ensures no_front { (w : List ℕ) → F.left flow.old ≡ Some w → (stream w).front ≡ None → sink.new ≡ sink.old }
    // A stream is refused by the fault that is reported, and so is a frame, behind what is written.
    ensures refused { result ≡ 5 → (w : List ℕ) → F.left flow.old ≡ Some w →
        (fault : FileFault) × (out : List ℕ) × PipeOutcome (map string_bytes words.now) w (stream_refused fault out)
        × (K.written sink.new ≡ and_then (K.written sink.old) out)
        × (R.written report.new ≡ and_then (R.written report.old) (reports.report (reports.file_line fault ∷ []))) }
    ensures frame { result ≡ 6 → (w : List ℕ) → F.left flow.old ≡ Some w →
        (k : ℕ) × (fault : FrameFault) × (out : List ℕ) × PipeOutcome (map string_bytes words.now) w (frame_refused k fault out)
        × (K.written sink.new ≡ and_then (K.written sink.old) out)
        × (R.written report.new ≡ and_then (R.written report.old) (reports.report (reports.frame_fault_line k fault ∷ []))) }
    ensures status { result ≤ 7 }
{
    if !is_pipe(words) {
        return report_line(report, 1, lines::words_not_understood());
    }
    let answer = decode_pipe(alloc, flow, sink);
    let (status, line) = status_and_line(answer);
    report_line(report, status, line)
}

// The status and the line of an answer.
fn status_and_line(answer: Result<Piped, PipeFault>) -> (u8, lines::Line)
    ensures status { result.0 ≡ status_of answer }
    ensures line { result.1.bytes ≡ reports.report (line_of answer ∷ []) }
{
    match answer {
        Ok(Piped { frames, bytes }) => (0, lines::decoded(frames, bytes)),
        Err(PipeFault::Read) => (2, lines::read_fault()),
        Err(PipeFault::Write) => (3, lines::write_fault()),
        Err(PipeFault::Memory(_)) => (4, lines::memory()),
        Err(PipeFault::File(fault)) => (5, lines::file_refused(fault)),
        Err(PipeFault::Frame { frame, fault }) => (6, lines::frame_refused(frame, fault)),
    }
}

// Reports a line; the status is its own, or 7 where the report failed.
fn report_line<R: Sink>(report: &mut R, status: u8, line: lines::Line) -> u8
    requires { status < 7 }
    ensures reported { (result ≡ status) ⊎ (result ≡ 7) }
    ensures whole { result ≡ status → R.written report.new ≡ and_then (R.written report.old) line.bytes }
    ensures cut_short { result ≡ 7 → IsCutShort (R.written report.old) line.bytes (R.written report.new) }
    ensures added { result ≡ status → R.appended report.new ≡ R.appended report.old + length line.bytes }
    ensures stopped { result ≡ 7 → R.appended report.new ≡ R.appended report.old }
    ensures cause { result ≡ 7 → Rose (R.faults report.old) (R.faults report.new) }
    ensures later { R.faults report.old ≤ R.faults report.new }
    ensures sure { result ≡ 7 → (room : ℕ) → R.room report.old ≡ Some room → length line.bytes ≤ room → ⊥ }
{
    match report.append(line.as_bytes()) {
        Ok(()) => status,
        Err(_) => 7,
    }
}
