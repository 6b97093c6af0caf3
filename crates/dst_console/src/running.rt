// A command, run over the devices that its words name.
ghost use Rattle.std.specs.Prelude.{◌≡◌, ◌≢◌, ◌⊎◌, ◌≤◌, ℕ, true, false, List, [], ◌∷◌, Option, Some, None, map};
ghost use Rattle.std.specs.String.{string_bytes};
ghost use Rattle.dst_streams.specs.Causes.{Rose};
ghost use Rattle.dst_streams.specs.Told.{and_then};
ghost use Rattle.dsdiff_spec.specs.declared.faults.FileFault.{FileFault};
ghost use Rattle.dsdiff_spec.specs.Streams.{stream};
ghost use Rattle.dsdiff_spec.specs.Words.{Command};
ghost use Rattle.dsdiff_spec.specs.Lines as reports;
ghost use Rattle.words_spec.specs.Rows.{command_of};
ghost use Rattle.dst_tool.specs.Runs.{DidNotRise, NoFrameIsRefused, Ends, IsCaused, IsRefused, Reports, ReadsNothing, WritesFile, WritesNowhere};
ghost use Rattle.pipe_tool.specs.Runs as pipes;
ghost use Rattle.pipe_tool.specs.Words.{is_pipe};
ghost use Rattle.dst_console.specs.Words.{word_of};
ghost use Rattle.dst_console.specs.Ends.{MeansOutcome, MeansPipeOutcome};

use crate::asking::word_at;
use dst_streams::{Flow, Sink, Source};
use dst_tool::dst_run;
use pipe_tool::dst_pipe;
use std::alloc::Global;
use std::thread::Threads;

/// What names stand for: a program's files, or others in their place.
pub trait Devices<'n> {
    type Source: Source + Drop;

    type Sink: Sink + Drop;

    type Flow: Flow + Drop;

    /// The bytes that the source of a name tells, where it tells any.
    ghost reads: { Self → List ℕ → Option (List ℕ) };

    /// The bytes that the sink of a name tells, where it tells any.
    ghost holds: { Self → List ℕ → Option (List ℕ) };

    /// The bytes that are left of the flow, where it tells any.
    ghost flows: { Self → Option (List ℕ) };

    /// This is the source of a name as it is made, in front of any call.
    ghost makes_source: { Self → List ℕ → Self.Source → Type 0 };

    /// This is the sink of a name as it is made.
    ghost makes_sink: { Self → List ℕ → Self.Sink → Type 0 };

    /// This is the flow as it is made.
    ghost makes_flow: { Self → Self.Flow → Type 0 };

    /// The source of this name.
    fn source(&self, name: &'n str) -> Self::Source
        ensures made { makes_source self.now name.now result }
        ensures bytes { Self.Source.bytes result ≡ reads self.now name.now }
        ensures faults { Self.Source.faults result ≡ 0 };

    /// The sink of this name.
    fn sink(&self, name: &'n str) -> Self::Sink
        ensures made { makes_sink self.now name.now result }
        ensures written { Self.Sink.written result ≡ holds self.now name.now }
        ensures faults { Self.Sink.faults result ≡ 0 };

    /// What a stream comes from.
    fn flow(&self) -> Self::Flow
        ensures made { makes_flow self.now result }
        ensures left { Self.Flow.left result ≡ flows self.now }
        ensures faults { Self.Flow.faults result ≡ 0 };
}

/// How a run ended, and its devices.
#[derive(Drop)]
pub struct Ran<I: Drop, O: Drop> {
    /// As the program ends with it.
    pub status: u8,
    pub input: I,
    pub output: O,
}

/// Runs a command: word 1 behind its name is the source's name, word 2 the sink's.
pub fn run_named<'n, E: Threads + Sync, D: Devices<'n>, R: Sink>(
    rt: &E,
    alloc: Global,
    words: &'n [String],
    devices: &D,
    report: &mut R,
) -> Ran<D::Source, D::Sink>
    // The status is that of the one outcome of the words and the source of word 1, as are what the sink of word 2 holds and the report, where no
    // count of faults rose; or it is 4.
    ensures headline { DidNotRise 0 (D.Source.faults result.input) → DidNotRise 0 (D.Sink.faults result.output) → DidNotRise (R.faults report.old) (R.faults report.new) →
        MeansOutcome (map string_bytes words.now) (D.reads devices.now (word_of (map string_bytes words.now) 1)) result.status
        (D.holds devices.now (word_of (map string_bytes words.now) 2)) (D.Sink.written result.output) (R.written report.old) (R.written report.new) }
    // A file that is accepted, none of its frames refused: the command is done, or memory was refused.
    ensures complete { (file : List ℕ) → D.reads devices.now (word_of (map string_bytes words.now) 1) ≡ Some file → NoFrameIsRefused (map string_bytes words.now) file →
        DidNotRise 0 (D.Source.faults result.input) → DidNotRise 0 (D.Sink.faults result.output) → DidNotRise (R.faults report.old) (R.faults report.new) →
        (result.status ≡ 0) ⊎ (result.status ≡ 4) }
    // What sink and report hold behind each status, whatever failed.
    ensures ends { (file : List ℕ) → D.reads devices.now (word_of (map string_bytes words.now) 1) ≡ Some file →
        (status : ℕ) × (lines : List reports.Line) × Ends (map string_bytes words.now) file status lines (D.holds devices.now (word_of (map string_bytes words.now) 2)) (D.Sink.written result.output)
        × IsCaused status 0 (D.Source.faults result.input) 0 (D.Sink.faults result.output)
        × Reports status lines result.status (R.written report.old) (R.written report.new) (R.appended report.old) (R.appended report.new) }
    // Words that are refused touch no device; want of memory, a refused file, whatever fails, and a command that writes nothing leave the sink as it is
    // made, and one that reads nothing the source.
    ensures untouched { command_of (map string_bytes words.now) ≡ None →
        D.makes_source devices.now (word_of (map string_bytes words.now) 1) result.input × D.makes_sink devices.now (word_of (map string_bytes words.now) 2) result.output }
    ensures memory { result.status ≡ 4 → D.makes_sink devices.now (word_of (map string_bytes words.now) 2) result.output }
    ensures file { result.status ≡ 5 → D.makes_sink devices.now (word_of (map string_bytes words.now) 2) result.output }
    ensures no_output { (file : List ℕ) (fault : FileFault) → D.reads devices.now (word_of (map string_bytes words.now) 1) ≡ Some file →
        IsRefused (map string_bytes words.now) file fault → D.makes_sink devices.now (word_of (map string_bytes words.now) 2) result.output }
    ensures no_call { (c : Command) → command_of (map string_bytes words.now) ≡ Some c → WritesNowhere c → D.makes_sink devices.now (word_of (map string_bytes words.now) 2) result.output }
    ensures no_read { (c : Command) → command_of (map string_bytes words.now) ≡ Some c → ReadsNothing c → D.makes_source devices.now (word_of (map string_bytes words.now) 1) result.input }
    ensures no_file { (c : Command) → command_of (map string_bytes words.now) ≡ Some c → ReadsNothing c → (result.status ≢ 2) × (result.status ≢ 5) × (result.status ≢ 6) }
    ensures memory_line { result.status ≡ 4 → R.written report.new ≡ and_then (R.written report.old) (reports.report (reports.memory_line ∷ [])) }
    // What a done command has written is where the sink keeps it for good.
    ensures settled { (c : Command) → command_of (map string_bytes words.now) ≡ Some c → WritesFile c → result.status ≡ 0 → D.Sink.settled result.output ≡ true }
    // Words that are no command are answered by the status, and by no other.
    ensures words { command_of (map string_bytes words.now) ≡ None → (result.status ≡ 1) ⊎ (result.status ≡ 7) }
    ensures only_words { result.status ≡ 1 → command_of (map string_bytes words.now) ≡ None }
    // Devices fail by their own cause.
    ensures read { result.status ≡ 2 → Rose 0 (D.Source.faults result.input) }
    ensures write { result.status ≡ 3 → Rose 0 (D.Sink.faults result.output) }
    ensures reported { result.status ≡ 7 → Rose (R.faults report.old) (R.faults report.new) }
    ensures most { result.status ≤ 7 }
{
    let mut input = devices.source(word_at(words, 1));
    let mut output = devices.sink(word_at(words, 2));
    let status = dst_run(rt, alloc, words, &mut input, &mut output, report);
    Ran {
        status,
        input,
        output,
    }
}

/// Decodes a stream: word 1 behind `pipe` is the sink's name.
pub fn run_pipe<'n, D: Devices<'n>, R: Sink>(
    alloc: Global,
    words: &'n [String],
    devices: &D,
    report: &mut R,
) -> Ran<D::Flow, D::Sink>
    ensures headline { DidNotRise 0 (D.Flow.faults result.input) → DidNotRise 0 (D.Sink.faults result.output) → DidNotRise (R.faults report.old) (R.faults report.new) →
        MeansPipeOutcome (map string_bytes words.now) (D.flows devices.now) result.status
        (D.holds devices.now (word_of (map string_bytes words.now) 1)) (D.Sink.written result.output) (R.written report.old) (R.written report.new) }
    ensures complete { (w : List ℕ) → D.flows devices.now ≡ Some w → pipes.NoFrameIsRefused (map string_bytes words.now) w →
        DidNotRise 0 (D.Flow.faults result.input) → DidNotRise 0 (D.Sink.faults result.output) → DidNotRise (R.faults report.old) (R.faults report.new) →
        (result.status ≡ 0) ⊎ (result.status ≡ 4) }
    ensures ends { (w : List ℕ) → D.flows devices.now ≡ Some w →
        (status : ℕ) × (lines : List reports.Line) × pipes.Ends (map string_bytes words.now) w status lines (D.holds devices.now (word_of (map string_bytes words.now) 1)) (D.Sink.written result.output)
        × (status ≡ 2 → Rose 0 (D.Flow.faults result.input)) × (status ≡ 3 → Rose 0 (D.Sink.faults result.output))
        × pipes.Reports status lines result.status (R.written report.old) (R.written report.new) (R.appended report.old) (R.appended report.new) }
    ensures untouched { is_pipe (map string_bytes words.now) ≡ false → D.makes_flow devices.now result.input × D.makes_sink devices.now (word_of (map string_bytes words.now) 1) result.output }
    ensures memory { result.status ≡ 4 → D.makes_sink devices.now (word_of (map string_bytes words.now) 1) result.output }
    ensures memory_line { result.status ≡ 4 → R.written report.new ≡ and_then (R.written report.old) (reports.report (reports.memory_line ∷ [])) }
    ensures no_front { (w : List ℕ) → D.flows devices.now ≡ Some w → (stream w).front ≡ None → D.makes_sink devices.now (word_of (map string_bytes words.now) 1) result.output }
    ensures settled { result.status ≡ 0 → D.Sink.settled result.output ≡ true }
    ensures words { is_pipe (map string_bytes words.now) ≡ false → (result.status ≡ 1) ⊎ (result.status ≡ 7) }
    ensures only_words { result.status ≡ 1 → is_pipe (map string_bytes words.now) ≡ false }
    ensures read { result.status ≡ 2 → Rose 0 (D.Flow.faults result.input) }
    ensures write { result.status ≡ 3 → Rose 0 (D.Sink.faults result.output) }
    ensures reported { result.status ≡ 7 → Rose (R.faults report.old) (R.faults report.new) }
    ensures most { result.status ≤ 7 }
{
    let mut input = devices.flow();
    let mut output = devices.sink(word_at(words, 1));
    let status = dst_pipe(alloc, words, &mut input, &mut output, report);
    Ran {
        status,
        input,
        output,
    }
}
