// What a file is, and what the header of a frame says, in lines.
ghost use Rattle.std.specs.Prelude.{◌≡◌, ◌≢◌, ◌+◌, ◌<◌, ◌≤◌, ℕ, List, [], ◌∷◌, length, Some, None, IfOk, IfErr, Err};
ghost use Rattle.dst_spec.specs.declared.faults.FrameFault.{FrameFault};
ghost use Rattle.dst_streams.specs.Causes.{Rose};
ghost use Rattle.dst_streams.specs.Told.{IsCutShort, and_then};
ghost use Rattle.dsdiff_spec.specs.declared.faults.FileFault.{FileFault};
ghost use Rattle.dsdiff_spec.specs.Lines as reports;
ghost use Rattle.dsdiff_spec.specs.Rules.{accepted};
ghost use Rattle.dsdiff_spec.specs.Refusal.{refusal};
ghost use Rattle.dsdiff_spec.specs.Walk.{frame_at};
ghost use Rattle.dsdiff_spec.specs.Words as words;
ghost use Rattle.dsdiff_spec.specs.Outcome.{Answer, done, frame_refused};
ghost use Rattle.frame_index.specs.Entries.{entry_seen};
ghost use Rattle.dst_commands.specs.Commands.{OutcomeOf, shown};
ghost use Rattle.dst_commands.specs.Opened.{IsAny};
ghost use Rattle.dst_show.specs.LineByLine.{AddsLines, StopsAtALine};
ghost use Rattle.dst_show.specs.Reporting.{view_line, IsShown, IsUnshown, IsHeaderOf, FindsNoHeader, ReportEnds, HasReportCause, reported_as};

use crate::faults::{Reported, ShowFault};
use crate::summary::{report_coded, report_plain};
use dsdiff_chunks::{OpenFault, read_range};
use dst_commands::{AnyForm, FoundFrame, FrameByWalk, ShownFile, open_file};
use dst_lines::lines::{self, Line};
use dst_streams::{Failed, Sink, Source};
use frame_header::{FrameView, view_frame};
use std::alloc::Global;

/// Shows what a file is, in five lines for a plain one and eight for a coded one; or, where the number of a frame is
/// given, the header of that frame in one line.
///
/// The summary reads no body of a frame. A frame is read whole and refused where it offends in front of its arithmetic
/// code; the code isn't looked at.
pub fn show_file<S: Source, T: Sink>(
    alloc: Global,
    source: &mut S,
    report: &mut T,
    frame: Option<u32>,
) -> Result<Reported, ShowFault>
    ensures bytes { S.bytes source.new ≡ S.bytes source.old }
    ensures later { (S.faults source.old ≤ S.faults source.new) × (T.faults report.old ≤ T.faults report.new) }
    // the lines are reported whole
    ensures lines { IfOk result (λ s. (file : List ℕ) → S.bytes source.old ≡ Some file →
        (lines : List reports.Line) × OutcomeOf (shown frame) file (done [] lines) × (T.written report.new ≡ and_then (T.written report.old) (reports.report lines))) }
    ensures frames { IfOk result (λ s. (file : List ℕ) → S.bytes source.old ≡ Some file → s.frames ≡ (accepted file).frames) }
    // a refused file, or a refused frame
    ensures file { (fault : FileFault) → result ≡ Err (ShowFault.Source (OpenFault.File fault)) → (file : List ℕ) → S.bytes source.old ≡ Some file → refusal (shown frame) file ≡ Some fault }
    ensures frame { (k : ℕ) (fault : FrameFault) → result ≡ Err (ShowFault.Frame k fault) → (file : List ℕ) → S.bytes source.old ≡ Some file → OutcomeOf (shown frame) file (frame_refused k fault []) }
    ensures no_frame { frame ≡ None → (k : ℕ) (fault : FrameFault) → result ≡ Err (ShowFault.Frame k fault) → ⊥ }
    // failed devices, each by its cause; a failed report holds a prefix of the lines
    ensures read { result ≡ Err (ShowFault.Source OpenFault.Read) → Rose (S.faults source.old) (S.faults source.new) }
    ensures reported { result ≡ Err ShowFault.Report → Rose (T.faults report.old) (T.faults report.new) }
    ensures cut_short { result ≡ Err ShowFault.Report → (file : List ℕ) → S.bytes source.old ≡ Some file →
        (lines : List reports.Line) × OutcomeOf (shown frame) file (done [] lines) × IsCutShort (T.written report.old) (reports.report lines) (T.written report.new) }
    ensures sure { result ≡ Err ShowFault.Report → (file : List ℕ) → S.bytes source.old ≡ Some file → (o : Answer) → OutcomeOf (shown frame) file o →
        (room : ℕ) → T.room report.old ≡ Some room → length (reports.report o.lines) ≤ room → ⊥ }
    // no line is appended in parts: what counts as appended is a number of whole lines
    ensures added { IfOk result (λ s. (file : List ℕ) → S.bytes source.old ≡ Some file → (o : Answer) → OutcomeOf (shown frame) file o →
        AddsLines o.lines (T.appended report.old) (T.appended report.new)) }
    ensures stopped { result ≡ Err ShowFault.Report → (file : List ℕ) → S.bytes source.old ≡ Some file → (o : Answer) → OutcomeOf (shown frame) file o →
        StopsAtALine o.lines (T.appended report.old) (T.appended report.new) }
    // every other refusal comes before the first line
    ensures untouched { (fault : ShowFault) → result ≡ Err fault → (fault ≢ ShowFault.Report) → report.new ≡ report.old }
    ensures given { S.given source.new ≤ S.given source.old + 208948 + 48000000 + 225794 }
    ensures no_body { frame ≡ None → S.given source.new ≤ S.given source.old + 208948 + 48000000 }
{
    match frame {
        None => show_form(alloc, source, report),
        Some(number) => show_header(alloc, source, report, number),
    }
}

// What the command answers behind a report of lines.
fn reported(answer: Result<(), Failed>, frames: u32) -> Result<Reported, ShowFault>
    ensures { result ≡ reported_as answer frames }
{
    match answer {
        Ok(()) => Ok(Reported { frames }),
        Err(_) => Err(ShowFault::Report),
    }
}

// ---- the summary of a file
fn show_form<S: Source, T: Sink>(
    alloc: Global,
    source: &mut S,
    report: &mut T,
) -> Result<Reported, ShowFault>
    ensures bytes { S.bytes source.new ≡ S.bytes source.old }
    ensures later { (S.faults source.old ≤ S.faults source.new) × (T.faults report.old ≤ T.faults report.new) }
    ensures ends { (file : List ℕ) → S.bytes source.old ≡ Some file → ReportEnds result words.show file (T.written report.old) (T.written report.new) (T.room report.old)
        (T.appended report.old) (T.appended report.new) }
    ensures cause { IfErr result (λ fault. HasReportCause fault (S.faults source.old) (S.faults source.new) (T.faults report.old) (T.faults report.new)) }
    ensures no_frame { (k : ℕ) (fault : FrameFault) → result ≡ Err (ShowFault.Frame k fault) → ⊥ }
    ensures untouched { (fault : ShowFault) → result ≡ Err fault → (fault ≢ ShowFault.Report) → report.new ≡ report.old }
    ensures given { S.given source.new ≤ S.given source.old + 208948 + 48000000 }
{
    let opened = match open_file(alloc, source, &ShownFile) {
        Ok(opened) => opened,
        Err(fault) => return Err(ShowFault::Source(fault)),
    };
    report_summary(report, &opened)
}

// Reports the summary of a file that was opened.
fn report_summary<T: Sink>(report: &mut T, opened: &AnyForm) -> Result<Reported, ShowFault>
    ensures later { T.faults report.old ≤ T.faults report.new }
    ensures ends { (file : List ℕ) → refusal words.show file ≡ None → IsAny file opened.now → ReportEnds result words.show file (T.written report.old) (T.written report.new) (T.room report.old)
        (T.appended report.old) (T.appended report.new) }
    ensures cause { IfErr result (λ fault. (fault ≡ ShowFault.Report) × Rose (T.faults report.old) (T.faults report.new)) }
{
    match opened {
        AnyForm::Plain(form) => reported(report_plain(report, form), form.frames),
        AnyForm::Coded(walked) => reported(report_coded(report, walked), walked.form.frames),
    }
}

// ---- the header of one frame
fn show_header<S: Source, T: Sink>(
    alloc: Global,
    source: &mut S,
    report: &mut T,
    number: u32,
) -> Result<Reported, ShowFault>
    ensures bytes { S.bytes source.new ≡ S.bytes source.old }
    ensures later { (S.faults source.old ≤ S.faults source.new) × (T.faults report.old ≤ T.faults report.new) }
    ensures ends { (file : List ℕ) → S.bytes source.old ≡ Some file → ReportEnds result (words.show_frame number) file (T.written report.old) (T.written report.new) (T.room report.old)
        (T.appended report.old) (T.appended report.new) }
    ensures cause { IfErr result (λ fault. HasReportCause fault (S.faults source.old) (S.faults source.new) (T.faults report.old) (T.faults report.new)) }
    ensures untouched { (fault : ShowFault) → result ≡ Err fault → (fault ≢ ShowFault.Report) → report.new ≡ report.old }
    ensures given { S.given source.new ≤ S.given source.old + 208948 + 48000000 + 225794 }
{
    let (line, frames) = match read_header(alloc, source, number) {
        Ok(header) => header,
        Err(fault) => return Err(fault),
    };
    reported(report.append(line.as_bytes()), frames)
}

// Opens a coded file, and gives the line of the header of one of its frames, with how many frames the file has.
fn read_header<S: Source>(
    alloc: Global,
    source: &mut S,
    number: u32,
) -> Result<(Line, u32), ShowFault>
    ensures bytes { S.bytes source.new ≡ S.bytes source.old }
    ensures later { S.faults source.old ≤ S.faults source.new }
    ensures header { IfOk result (λ h. (file : List ℕ) → S.bytes source.old ≡ Some file → IsHeaderOf number file h.0.bytes h.1) }
    ensures no_header { IfErr result (FindsNoHeader number (S.bytes source.old) (S.faults source.old) (S.faults source.new)) }
    ensures given { S.given source.new ≤ S.given source.old + 208948 + 48000000 + 225794 }
{
    let found = match open_file(alloc, source, &FrameByWalk { number }) {
        Ok(found) => found,
        Err(fault) => return Err(ShowFault::Source(fault)),
    };
    let mut bytes = match vec![in alloc; 0; found.entry.size as usize] {
        Ok(bytes) => bytes,
        Err(refused) => return Err(ShowFault::Source(OpenFault::Memory(refused))),
    };
    match header_line(source, &found, number, &mut bytes) {
        Ok(line) => Ok((line, found.form.frames)),
        Err(fault) => Err(fault),
    }
}

// Reads a frame, and gives the line of its header. It takes no memory.
fn header_line<S: Source>(
    source: &mut S,
    found: &FoundFrame,
    frame: u32,
    bytes: &mut [u8],
) -> Result<Line, ShowFault>
    requires size { (n : ℕ) × (S.known source.old ≡ Some n) × (found.now.form.end ≤ n) }
    requires long { length bytes.old ≡ found.now.entry.size }
    ensures bytes { S.bytes source.new ≡ S.bytes source.old }
    ensures later { S.faults source.old ≤ S.faults source.new }
    ensures given { S.given source.new ≤ S.given source.old + found.now.entry.size }
    ensures shown { IfOk result (λ l. (file : List ℕ) → S.bytes source.old ≡ Some file → IsShown found.now.form.channels frame (frame_at file (entry_seen found.now.entry)) l.bytes) }
    ensures unshown { IfErr result (λ fault. IsUnshown found.now.form.channels frame (entry_seen found.now.entry) fault (S.bytes source.old) (S.faults source.old) (S.faults source.new)) }
{
    let channels = found.form.channels;
    let entry = found.entry;
    let Ok(()) = read_range(source, entry.offset, bytes) else {
        return Err(ShowFault::Source(OpenFault::Read));
    };
    match view_frame(bytes, channels) {
        Ok(view) => Ok(line_of_view(frame, u64::from(entry.size), &view)),
        Err(fault) => Err(ShowFault::Frame { frame, fault }),
    }
}

// The line of a frame of so many bytes that has these parts.
fn line_of_view(frame: u32, bytes: u64, view: &FrameView) -> Line
    ensures { result.bytes ≡ reports.report (view_line frame bytes view.now ∷ []) }
{
    match view {
        FrameView::Plain(_) => lines::plain_frame(frame, bytes),
        FrameView::Coded(params, code) => lines::coded_frame(
            frame,
            bytes,
            params.filters.len() as u32,
            params.probs.len() as u32,
            code.first,
        ),
    }
}
