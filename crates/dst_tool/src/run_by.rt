// The top call with a gate that its workers pass.
ghost use Rattle.std.specs.Prelude.{◌≡◌, ◌≤◌, ◌<◌, ℕ, true, [], ◌∷◌, length, map, Some, None};
ghost use Rattle.std.specs.String.{string_bytes};
ghost use Rattle.dst_streams.specs.Causes.{Rose};
ghost use Rattle.dsdiff_spec.specs.Lines as reports;
ghost use Rattle.dsdiff_spec.specs.Words as asked;
ghost use Rattle.words_spec.specs.Rows.{command_of};
ghost use Rattle.dst_tool.specs.Runs.{IsRun, Reports};

use crate::command::{report_line, run_command};
use dst_lines::lines;
use dst_streams::{Sink, Source};
use dst_words::{Task, read_words};
use frame_crew::Gate;
use std::alloc::Global;
use std::thread::Threads;

/// Runs the command of these words as [`dst_run`](crate::dst_run) does, with no more workers than so many, which pass this gate, each once for
/// each of its jobs.
///
/// What it leaves is said of the command that the words are, and all that `dst_run` promises follows from it. A test finds by the
/// gate which frames are worked at once.
pub fn dst_run_by<E: Threads + Sync, S: Source, K: Sink, R: Sink, G: Gate>(
    rt: &E,
    alloc: Global,
    words: &[String],
    source: &mut S,
    sink: &mut K,
    report: &mut R,
    most_workers: u32,
    gate: &G,
) -> u8
    requires some { 0 < most_workers }
    // Words that are a command leave what a run of this command leaves.
    ensures run { (c : asked.Command) → command_of (map string_bytes words.now) ≡ Some c → IsRun c result (S.bytes source.old)
        (record { before = S.faults source.old; now = S.faults source.new }) (record { before = K.faults sink.old; now = K.faults sink.new })
        (record { before = R.faults report.old; now = R.faults report.new }) (record { before = S.given source.old; now = S.given source.new })
        (record { old = K.written sink.old; new = K.written sink.new; room = K.room sink.old })
        (record { old = R.written report.old; new = R.written report.new; room = R.room report.old; before = R.appended report.old; now = R.appended report.new })
        (sink.new ≡ sink.old) (K.settled sink.new ≡ true) (source.new ≡ source.old) (S.bytes source.new ≡ S.bytes source.old) (report.new ≡ report.old) }
    // Others touch neither source nor sink, and have a line of their own.
    ensures untouched { command_of (map string_bytes words.now) ≡ None → (source.new ≡ source.old) × (sink.new ≡ sink.old) }
    ensures words { command_of (map string_bytes words.now) ≡ None →
        Reports 1 (reports.words_line ∷ []) result (R.written report.old) (R.written report.new) (R.appended report.old) (R.appended report.new) }
    ensures reported { result ≡ 7 → Rose (R.faults report.old) (R.faults report.new) }
    ensures later { R.faults report.old ≤ R.faults report.new }
    ensures sure { command_of (map string_bytes words.now) ≡ None → result ≡ 7 →
        (room : ℕ) → R.room report.old ≡ Some room → length (reports.report (reports.words_line ∷ [])) ≤ room → ⊥ }
{
    match read_words(words) {
        None => report_line(report, 1, lines::words_not_understood()),
        Some(Task { command, workers }) => {
            let workers = workers.min(most_workers);
            run_command(rt, alloc, command, workers, source, sink, report, gate)
        }
    }
}
