// The summary of a file, in lines.
ghost use Rattle.std.specs.Prelude.{◌≡◌, ◌≤◌, [], length, map, sum, not, ◌==◌, is_some, codes, MatchResult};
ghost use Rattle.dst_streams.specs.Causes.{HasCause};
ghost use Rattle.dsdiff_spec.specs.Chunks.{named};
ghost use Rattle.dsdiff_spec.specs.Lines as reports;
ghost use Rattle.dsdiff_chunks.specs.Forms.{coded_seen, plain_seen};
ghost use Rattle.dsdiff_chunks.specs.Seen.{head_seen};
ghost use Rattle.dst_commands.specs.Writing.{Adds, Stops};
ghost use Rattle.dst_show.specs.LineByLine.{GoesByLines, fed};
ghost use Rattle.dst_show.specs.Reporting.{summary_of};

use crate::index::report_lines;
use dsdiff_chunks::{ChunkHead, CodedForm, PlainForm};
use dst_commands::{WalkedForm, sound_size};
use dst_lines::lines::{self, Line};
use dst_num::Channels;
use dst_streams::{Failed, Sink};
use frame_index::Index;

// What each form has of the lines of a summary.
#[derive(Clone, Copy, Drop)]
struct Summary {
    kind: &'static str,
    channels: Channels,
    /// Bytes of the sound.
    sound: u64,
    frames: u32,
    chunks: usize,
}

/// Reports the five lines of a plain form.
pub(crate) fn report_plain<T: Sink>(report: &mut T, form: &PlainForm) -> Result<(), Failed>
    ensures cause { HasCause (T.faults report.old) (T.faults report.new) result }
    ensures written { MatchResult result
        (λ _. Adds (reports.report (reports.show_lines (plain_seen form.now) [])) (T.written report.old) (T.written report.new) (T.room report.old) (T.room report.new))
        (λ _. Stops (Unit {0}) (reports.report (reports.show_lines (plain_seen form.now) [])) (T.written report.old) (T.written report.new) (T.room report.old)) }
    ensures by_lines { GoesByLines result (reports.show_lines (plain_seen form.now) []) (T.appended report.old) (T.appended report.new) }
{
    let summary = Summary {
        kind: "plain",
        channels: form.channels,
        sound: form.sound.size,
        frames: form.frames,
        chunks: form.heads.as_slice().len(),
    };
    report_lines(report, &lines_of(&summary))
}

/// Reports the eight lines of a coded form.
pub(crate) fn report_coded<T: Sink>(report: &mut T, walked: &WalkedForm) -> Result<(), Failed>
    ensures cause { HasCause (T.faults report.old) (T.faults report.new) result }
    ensures written { MatchResult result
        (λ _. Adds (reports.report (reports.show_lines (coded_seen walked.now.form) walked.now.index)) (T.written report.old) (T.written report.new) (T.room report.old) (T.room report.new))
        (λ _. Stops (Unit {0}) (reports.report (reports.show_lines (coded_seen walked.now.form) walked.now.index)) (T.written report.old) (T.written report.new) (T.room report.old)) }
    ensures by_lines { GoesByLines result (reports.show_lines (coded_seen walked.now.form) walked.now.index) (T.appended report.old) (T.appended report.new) }
{
    let Ok(()) = report_common(report, &walked.form) else {
        return Err(Failed);
    };
    report_stored(report, walked)
}

// Reports the five lines that a coded form has as any form.
fn report_common<T: Sink>(report: &mut T, form: &CodedForm) -> Result<(), Failed>
    ensures cause { HasCause (T.faults report.old) (T.faults report.new) result }
    ensures written { MatchResult result
        (λ _. Adds (reports.report (reports.summary_lines (codes "coded") (coded_seen form.now))) (T.written report.old) (T.written report.new) (T.room report.old) (T.room report.new))
        (λ _. Stops (Unit {0}) (reports.report (reports.summary_lines (codes "coded") (coded_seen form.now))) (T.written report.old) (T.written report.new) (T.room report.old)) }
    ensures by_lines { GoesByLines result (reports.summary_lines (codes "coded") (coded_seen form.now)) (T.appended report.old) (T.appended report.new) }
{
    let summary = Summary {
        kind: "coded",
        channels: form.channels,
        sound: sound_size(form),
        frames: form.frames,
        chunks: form.heads.as_slice().len(),
    };
    report_lines(report, &lines_of(&summary))
}

// The five lines of any form.
fn lines_of(summary: &Summary) -> [Line; 5]
    requires short { length summary.now.kind.now ≡ 5 }
    ensures { map (λ l. l.bytes) result ≡ fed (summary_of summary.now) }
{
    [
        lines::with_text("kind ", summary.kind),
        lines::with_number("channels ", summary.channels.count() as u64),
        lines::with_bytes("sound ", summary.sound),
        lines::with_number("frames ", u64::from(summary.frames)),
        lines::with_number("chunks ", summary.chunks as u64),
    ]
}

// Reports the three lines that a coded form has behind those of any form.
fn report_stored<T: Sink>(report: &mut T, walked: &WalkedForm) -> Result<(), Failed>
    ensures cause { HasCause (T.faults report.old) (T.faults report.new) result }
    ensures written { MatchResult result
        (λ _. Adds (reports.report (reports.coded_summary_lines (coded_seen walked.now.form) walked.now.index)) (T.written report.old) (T.written report.new) (T.room report.old) (T.room report.new))
        (λ _. Stops (Unit {0}) (reports.report (reports.coded_summary_lines (coded_seen walked.now.form) walked.now.index)) (T.written report.old) (T.written report.new) (T.room report.old)) }
    ensures by_lines { GoesByLines result (reports.coded_summary_lines (coded_seen walked.now.form) walked.now.index) (T.appended report.old) (T.appended report.new) }
{
    let form = &walked.form;
    let lines = [
        lines::with_bytes("stored ", stored_bytes(&walked.index)),
        lines::with_text("index ", yes_or_no(has_index(form.heads.as_slice()))),
        lines::with_text("kept ", yes_or_no(form.origin.is_some())),
    ];
    report_lines(report, &lines)
}

fn yes_or_no(holds: bool) -> &'static str
    ensures text { result.now ≡ reports.yes_or_no holds }
    ensures short { length result.now ≤ 3 }
{
    if holds { "yes" } else { "no" }
}

// Bytes of all frames together.
fn stored_bytes(index: &Index) -> u64
    ensures { result ≡ sum (map (λ e. e.size) index.now) }
{
    let mut stored = 0;
    for k in 0..index.length() {
        stored += u64::from(index.entry(k).size);
    }
    stored
}

// Whether one of some chunks is an index.
fn has_index(heads: &[ChunkHead]) -> bool
    ensures { result ≡ not (length (named "DSTI" (map head_seen heads.now)) == 0) }
{
    for head in heads {
        if head.id == *b"DSTI" {
            return true;
        }
    }
    false
}
