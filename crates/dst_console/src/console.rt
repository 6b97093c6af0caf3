// The words of the program, over devices of any kind.
ghost use Rattle.std.specs.Prelude.{◌≡◌, ◌≢◌, ◌⊎◌, ◌≤◌, ℕ, true, false, List, [], ◌∷◌, map, Some, None};
ghost use Rattle.std.specs.String.{string_bytes};
ghost use Rattle.dst_streams.specs.Causes.{Rose};
ghost use Rattle.dst_streams.specs.Told.{and_then};
ghost use Rattle.dsdiff_spec.specs.declared.faults.FileFault.{FileFault};
ghost use Rattle.dsdiff_spec.specs.Streams.{stream};
ghost use Rattle.dsdiff_spec.specs.Words.{Command};
ghost use Rattle.dsdiff_spec.specs.Lines as reports;
ghost use Rattle.words_spec.specs.Rows.{command_of};
ghost use Rattle.dst_tool.specs.Runs.{DidNotRise, NoFrameIsRefused, Ends, IsCaused, IsRefused, Reports, ReadsNothing, WritesFile, WritesNowhere};
ghost use Rattle.pipe_tool.specs.Runs as pipes;
ghost use Rattle.pipe_tool.specs.Words.{is_pipe};
ghost use Rattle.dst_console.specs.Words.{asked_of, begins_a_pipe, word_of};
ghost use Rattle.dst_console.specs.Ends.{IsAnswered, IsCommand, IsPipe, IfCommand, IfPipe, status_of, MeansOutcome, MeansPipeOutcome};

use crate::asking::{Asked, what_is_asked, word_at};
use crate::ended::Ended;
use crate::help::{self, help_of};
use crate::running::{Devices, run_named, run_pipe};
use dst_streams::Sink;
use std::alloc::Global;
use std::thread::Threads;

const REPORT: u8 = 7;

/// Does what the words ask for, over the devices that their names stand for, and reports to the sink; hands back the status and the devices.
pub fn run_words<'n, E: Threads + Sync, D: Devices<'n>, R: Sink>(
    rt: &E,
    alloc: Global,
    words: &'n [String],
    devices: &D,
    report: &mut R,
) -> Ended<D::Source, D::Flow, D::Sink>
    // Words that ask for help or the version are answered; of those that ask for nothing of the program itself, words that begin with `pipe` decode a
    // stream, and all others are a command's.
    ensures asked { asked_of (map string_bytes words.now) ≢ None → IsAnswered result }
    ensures pipe_words { asked_of (map string_bytes words.now) ≡ None → begins_a_pipe (map string_bytes words.now) ≡ true → IsPipe result }
    ensures command_words { asked_of (map string_bytes words.now) ≡ None → begins_a_pipe (map string_bytes words.now) ≡ false → IsCommand result }
    // Where no count of faults rose, a command's status is that of the one outcome of the words and the source of word 1, as are what the sink of word 2
    // holds and the report; or it is 4. The same holds of a pipe, of the flow and the sink of word 1.
    ensures command { IfCommand result (λ ran.
        DidNotRise 0 (D.Source.faults ran.input) → DidNotRise 0 (D.Sink.faults ran.output) → DidNotRise (R.faults report.old) (R.faults report.new) →
        MeansOutcome (map string_bytes words.now) (D.reads devices.now (word_of (map string_bytes words.now) 1)) ran.status
        (D.holds devices.now (word_of (map string_bytes words.now) 2)) (D.Sink.written ran.output) (R.written report.old) (R.written report.new)) }
    ensures pipe { IfPipe result (λ ran.
        DidNotRise 0 (D.Flow.faults ran.input) → DidNotRise 0 (D.Sink.faults ran.output) → DidNotRise (R.faults report.old) (R.faults report.new) →
        MeansPipeOutcome (map string_bytes words.now) (D.flows devices.now) ran.status
        (D.holds devices.now (word_of (map string_bytes words.now) 1)) (D.Sink.written ran.output) (R.written report.old) (R.written report.new)) }
    // A file that is accepted, or a stream that ends behind its last frame, none of its frames refused: it is done, or memory was refused.
    ensures complete { IfCommand result (λ ran. (file : List ℕ) →
        D.reads devices.now (word_of (map string_bytes words.now) 1) ≡ Some file → NoFrameIsRefused (map string_bytes words.now) file →
        DidNotRise 0 (D.Source.faults ran.input) → DidNotRise 0 (D.Sink.faults ran.output) → DidNotRise (R.faults report.old) (R.faults report.new) →
        (ran.status ≡ 0) ⊎ (ran.status ≡ 4)) }
    ensures pipe_complete { IfPipe result (λ ran. (w : List ℕ) → D.flows devices.now ≡ Some w → pipes.NoFrameIsRefused (map string_bytes words.now) w →
        DidNotRise 0 (D.Flow.faults ran.input) → DidNotRise 0 (D.Sink.faults ran.output) → DidNotRise (R.faults report.old) (R.faults report.new) →
        (ran.status ≡ 0) ⊎ (ran.status ≡ 4)) }
    // What sink and report hold behind each status, whatever failed.
    ensures ends { IfCommand result (λ ran. (file : List ℕ) → D.reads devices.now (word_of (map string_bytes words.now) 1) ≡ Some file →
        (status : ℕ) × (lines : List reports.Line) × Ends (map string_bytes words.now) file status lines (D.holds devices.now (word_of (map string_bytes words.now) 2)) (D.Sink.written ran.output)
        × IsCaused status 0 (D.Source.faults ran.input) 0 (D.Sink.faults ran.output)
        × Reports status lines ran.status (R.written report.old) (R.written report.new) (R.appended report.old) (R.appended report.new)) }
    ensures pipe_ends { IfPipe result (λ ran. (w : List ℕ) → D.flows devices.now ≡ Some w →
        (status : ℕ) × (lines : List reports.Line) × pipes.Ends (map string_bytes words.now) w status lines (D.holds devices.now (word_of (map string_bytes words.now) 1)) (D.Sink.written ran.output)
        × (status ≡ 2 → Rose 0 (D.Flow.faults ran.input)) × (status ≡ 3 → Rose 0 (D.Sink.faults ran.output))
        × pipes.Reports status lines ran.status (R.written report.old) (R.written report.new) (R.appended report.old) (R.appended report.new)) }
    // Words that are refused touch no device; want of memory, a refused file, whatever fails, and a command that writes nothing leave the sink as it is
    // made, and one that reads nothing the source.
    ensures untouched { IfCommand result (λ ran. command_of (map string_bytes words.now) ≡ None →
        D.makes_source devices.now (word_of (map string_bytes words.now) 1) ran.input × D.makes_sink devices.now (word_of (map string_bytes words.now) 2) ran.output) }
    ensures pipe_untouched { IfPipe result (λ ran. is_pipe (map string_bytes words.now) ≡ false →
        D.makes_flow devices.now ran.input × D.makes_sink devices.now (word_of (map string_bytes words.now) 1) ran.output) }
    ensures memory { IfCommand result (λ ran. ran.status ≡ 4 → D.makes_sink devices.now (word_of (map string_bytes words.now) 2) ran.output) }
    ensures pipe_memory { IfPipe result (λ ran. ran.status ≡ 4 → D.makes_sink devices.now (word_of (map string_bytes words.now) 1) ran.output) }
    ensures memory_line { IfCommand result (λ ran. ran.status ≡ 4 →
        R.written report.new ≡ and_then (R.written report.old) (reports.report (reports.memory_line ∷ []))) }
    ensures pipe_memory_line { IfPipe result (λ ran. ran.status ≡ 4 →
        R.written report.new ≡ and_then (R.written report.old) (reports.report (reports.memory_line ∷ []))) }
    ensures no_output { IfCommand result (λ ran. (file : List ℕ) (fault : FileFault) → D.reads devices.now (word_of (map string_bytes words.now) 1) ≡ Some file →
        IsRefused (map string_bytes words.now) file fault → D.makes_sink devices.now (word_of (map string_bytes words.now) 2) ran.output) }
    ensures pipe_no_front { IfPipe result (λ ran. (w : List ℕ) → D.flows devices.now ≡ Some w → (stream w).front ≡ None →
        D.makes_sink devices.now (word_of (map string_bytes words.now) 1) ran.output) }
    ensures file { IfCommand result (λ ran. ran.status ≡ 5 → D.makes_sink devices.now (word_of (map string_bytes words.now) 2) ran.output) }
    ensures no_call { IfCommand result (λ ran. (c : Command) → command_of (map string_bytes words.now) ≡ Some c → WritesNowhere c →
        D.makes_sink devices.now (word_of (map string_bytes words.now) 2) ran.output) }
    ensures no_read { IfCommand result (λ ran. (c : Command) → command_of (map string_bytes words.now) ≡ Some c → ReadsNothing c →
        D.makes_source devices.now (word_of (map string_bytes words.now) 1) ran.input) }
    ensures no_file { IfCommand result (λ ran. (c : Command) → command_of (map string_bytes words.now) ≡ Some c → ReadsNothing c →
        (ran.status ≢ 2) × (ran.status ≢ 5) × (ran.status ≢ 6)) }
    // What is written behind a status of 0 is where the sink keeps it for good: of a real file, on its disk.
    ensures settled { IfCommand result (λ ran. (c : Command) → command_of (map string_bytes words.now) ≡ Some c → WritesFile c →
        ran.status ≡ 0 → D.Sink.settled ran.output ≡ true) }
    ensures pipe_settled { IfPipe result (λ ran. ran.status ≡ 0 → D.Sink.settled ran.output ≡ true) }
    // Words that nothing understands have the status that says so, unless the report fails; a command and a pipe never have it.
    ensures words { asked_of (map string_bytes words.now) ≡ None → command_of (map string_bytes words.now) ≡ None → is_pipe (map string_bytes words.now) ≡ false →
        (status_of result ≡ 1) ⊎ (status_of result ≡ 7) }
    ensures only_words { status_of result ≡ 1 → command_of (map string_bytes words.now) ≡ None }
    ensures only_no_pipe { status_of result ≡ 1 → is_pipe (map string_bytes words.now) ≡ false }
    // Words that are answered are done, unless the report fails.
    ensures answered { IsAnswered result → (status_of result ≡ 0) ⊎ (status_of result ≡ 7) }
    // Devices fail by their own cause.
    ensures read { IfCommand result (λ ran. ran.status ≡ 2 → Rose 0 (D.Source.faults ran.input)) }
    ensures write { IfCommand result (λ ran. ran.status ≡ 3 → Rose 0 (D.Sink.faults ran.output)) }
    ensures pipe_read { IfPipe result (λ ran. ran.status ≡ 2 → Rose 0 (D.Flow.faults ran.input)) }
    ensures pipe_write { IfPipe result (λ ran. ran.status ≡ 3 → Rose 0 (D.Sink.faults ran.output)) }
    ensures reported { status_of result ≡ 7 → Rose (R.faults report.old) (R.faults report.new) }
    ensures most { status_of result ≤ 7 }
{
    if let Some(text) = own_text(words) {
        let status = report_text(report, text);
        return Ended::Answered { status };
    }
    if word_at(words, 0) == "pipe" {
        return Ended::Pipe(run_pipe(alloc, words, devices, report));
    }
    Ended::Command(run_named(rt, alloc, words, devices, report))
}

// Reports a text that the program answers itself, and answers the status.
fn report_text<R: Sink>(report: &mut R, text: &str) -> u8
    ensures status { (result ≡ 0) ⊎ (result ≡ 7) }
    ensures reported { result ≡ 7 → Rose (R.faults report.old) (R.faults report.new) }
{
    match report.append(text.as_bytes()) {
        Ok(()) => 0,
        Err(_) => REPORT,
    }
}

// The text that words ask for which are no command.
fn own_text(words: &[String]) -> Option<&'static str>
    ensures others { asked_of (map string_bytes words.now) ≡ None → result ≡ None }
    ensures asked { asked_of (map string_bytes words.now) ≢ None → result ≢ None }
{
    match what_is_asked(words)? {
        Asked::Help => Some(help::HELP),
        Asked::Version => Some(help::VERSION),
        Asked::HelpOf => Some(help_of(word_at(words, 0))?.text),
    }
}
