// The lines of a report, one after the other, and the list of a file's frames.
ghost use Rattle.std.specs.Prelude.{◌≡◌, ◌≢◌, ◌+◌, ◌≤◌, ℕ, List, [], length, map, flat_map, Some, IfOk, OnOk, MatchResult, Err};
ghost use Rattle.dst_streams.specs.Causes.{Rose, HasCause};
ghost use Rattle.dst_streams.specs.Told.{IsCutShort, and_then};
ghost use Rattle.dsdiff_spec.specs.declared.faults.FileFault.{FileFault};
ghost use Rattle.dsdiff_spec.specs.Lines as reports;
ghost use Rattle.dsdiff_spec.specs.Rules.{accepted};
ghost use Rattle.dsdiff_spec.specs.Refusal.{refusal};
ghost use Rattle.dsdiff_spec.specs.Words as words;
ghost use Rattle.dsdiff_spec.specs.Outcome.{Answer, done};
ghost use Rattle.dst_commands.specs.Commands.{OutcomeOf};
ghost use Rattle.dst_commands.specs.Writing.{Adds, Stops};
ghost use Rattle.dst_show.specs.LineByLine.{AddsLines, StopsAtALine, GoesByLines, fed};

use crate::faults::{ListFault, Reported};
use dsdiff_chunks::OpenFault;
use dst_commands::{AllFrames, WalkedForm, open_file};
use dst_lines::lines::{self, Line};
use dst_streams::{Failed, Sink, Source};
use frame_index::Index;
use std::alloc::Global;

/// Lists the frames of a coded file: reports a line for each, with its number, the place of its first byte in the file,
/// and its size in bytes. No body of a frame is read. Where there is no frame the report isn't called.
pub fn index_file<S: Source, T: Sink>(
    alloc: Global,
    source: &mut S,
    report: &mut T,
) -> Result<Reported, ListFault>
    ensures bytes { S.bytes source.new ≡ S.bytes source.old }
    ensures later { (S.faults source.old ≤ S.faults source.new) × (T.faults report.old ≤ T.faults report.new) }
    // the lines are reported whole
    ensures lines { IfOk result (λ s. (file : List ℕ) → S.bytes source.old ≡ Some file →
        (lines : List reports.Line) × OutcomeOf words.index file (done [] lines) × (T.written report.new ≡ and_then (T.written report.old) (reports.report lines))) }
    ensures frames { IfOk result (λ s. (file : List ℕ) → S.bytes source.old ≡ Some file → s.frames ≡ (accepted file).frames) }
    ensures silent { IfOk result (λ s. s.frames ≡ 0 → report.new ≡ report.old) }
    // a refused file
    ensures file { (fault : FileFault) → result ≡ Err (ListFault.Source (OpenFault.File fault)) → (file : List ℕ) → S.bytes source.old ≡ Some file → refusal words.index file ≡ Some fault }
    // failed devices, each by its cause; a failed report holds a prefix of the lines
    ensures read { result ≡ Err (ListFault.Source OpenFault.Read) → Rose (S.faults source.old) (S.faults source.new) }
    ensures reported { result ≡ Err ListFault.Report → Rose (T.faults report.old) (T.faults report.new) }
    ensures cut_short { result ≡ Err ListFault.Report → (file : List ℕ) → S.bytes source.old ≡ Some file →
        (lines : List reports.Line) × OutcomeOf words.index file (done [] lines) × IsCutShort (T.written report.old) (reports.report lines) (T.written report.new) }
    ensures sure { result ≡ Err ListFault.Report → (file : List ℕ) → S.bytes source.old ≡ Some file → (o : Answer) → OutcomeOf words.index file o →
        (room : ℕ) → T.room report.old ≡ Some room → length (reports.report o.lines) ≤ room → ⊥ }
    // no line is appended in parts: what counts as appended is a number of whole lines
    ensures added { IfOk result (λ s. (file : List ℕ) → S.bytes source.old ≡ Some file → (o : Answer) → OutcomeOf words.index file o →
        AddsLines o.lines (T.appended report.old) (T.appended report.new)) }
    ensures stopped { result ≡ Err ListFault.Report → (file : List ℕ) → S.bytes source.old ≡ Some file → (o : Answer) → OutcomeOf words.index file o →
        StopsAtALine o.lines (T.appended report.old) (T.appended report.new) }
    // every other refusal comes before the first line
    ensures untouched { (fault : ListFault) → result ≡ Err fault → (fault ≢ ListFault.Report) → report.new ≡ report.old }
    ensures given { S.given source.new ≤ S.given source.old + 208948 + 48000000 }
{
    let WalkedForm { form, index } = match open_file(alloc, source, &AllFrames) {
        Ok(walked) => walked,
        Err(fault) => return Err(ListFault::Source(fault)),
    };
    match report_entries(report, &index) {
        Ok(()) => Ok(Reported {
            frames: form.frames,
        }),
        Err(_) => Err(ListFault::Report),
    }
}

// Reports the line of each entry.
fn report_entries<T: Sink>(report: &mut T, index: &Index) -> Result<(), Failed>
    ensures cause { HasCause (T.faults report.old) (T.faults report.new) result }
    ensures silent { length index.now ≡ 0 → OnOk result (report.new ≡ report.old) }
    ensures written { MatchResult result
        (λ _. Adds (reports.report (reports.index_lines index.now)) (T.written report.old) (T.written report.new) (T.room report.old) (T.room report.new))
        (λ _. Stops (Unit {0}) (reports.report (reports.index_lines index.now)) (T.written report.old) (T.written report.new) (T.room report.old)) }
    ensures by_lines { GoesByLines result (reports.index_lines index.now) (T.appended report.old) (T.appended report.new) }
{
    for k in 0..index.length() {
        let entry = index.entry(k);
        let line = lines::entry(k, entry.offset, entry.size);
        let Ok(()) = report.append(line.as_bytes()) else {
            return Err(Failed);
        };
    }
    Ok(())
}

/// Reports lines, one after the other.
pub(crate) fn report_lines<T: Sink>(report: &mut T, lines: &[Line]) -> Result<(), Failed>
    ensures cause { HasCause (T.faults report.old) (T.faults report.new) result }
    ensures written { MatchResult result
        (λ _. Adds (flat_map (λ l. l.bytes) lines.now) (T.written report.old) (T.written report.new) (T.room report.old) (T.room report.new))
        (λ _. Stops (Unit {0}) (flat_map (λ l. l.bytes) lines.now) (T.written report.old) (T.written report.new) (T.room report.old)) }
    ensures by_lines { (reported : List reports.Line) → map (λ l. l.bytes) lines.now ≡ fed reported →
        GoesByLines result reported (T.appended report.old) (T.appended report.new) }
{
    for line in lines {
        let Ok(()) = report.append(line.as_bytes()) else {
            return Err(Failed);
        };
    }
    Ok(())
}
