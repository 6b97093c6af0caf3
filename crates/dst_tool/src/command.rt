// One command, run over its devices, and its lines reported.
ghost use Rattle.std.specs.Prelude.{◌≡◌, ◌≢◌, ◌⊎◌, ◌+◌, ◌<◌, ◌≤◌, ℕ, [], ◌∷◌, length, true, Some, Err, Ok};
ghost use Rattle.dst_streams.specs.Causes.{Rose};
ghost use Rattle.dst_streams.specs.Told.{IsCutShort, and_then};
ghost use Rattle.dsdiff_spec.specs.Lines as reports;
ghost use Rattle.dst_words.specs.Commands.{command_seen, NumbersAreLawful};
ghost use Rattle.dst_tool.specs.Answers.{status_of, done_line, fault_line, line_of, TellsOneLine};
ghost use Rattle.dst_show.specs.LineByLine.{AddsLines};
ghost use Rattle.dst_tool.specs.Runs.{IsRun, ReadsAndWrites};

use crate::answers::{
    Fault, Numbers, checked, cut_out, decoded, encoded, frame_written, listed, made, ran,
    range_written, shown,
};
use crate::making::make_run;
use dst_cut::cut_file;
use dst_dsf::{decode_dsf, encode_dsf};
use dst_lines::lines;
use dst_make::make_file;
use dst_ranges::range_out;
use dst_read::{check_file, decode_file};
use dst_show::{frame_out, index_file, show_file};
use dst_streams::{Sink, Source};
use dst_words::Command;
use dst_write::encode_file;
use filter_analyser::LevelPicker;
use frame_crew::Gate;
use std::alloc::Global;
use std::thread::Threads;

/// Runs a command, and reports its lines. The status is that of what it answered, or 7 where the report failed.
pub(crate) fn run_command<E: Threads + Sync, S: Source, K: Sink, R: Sink, G: Gate>(
    rt: &E,
    alloc: Global,
    command: Command,
    workers: u32,
    source: &mut S,
    sink: &mut K,
    report: &mut R,
    gate: &G,
) -> u8
    requires least { 1 ≤ workers }
    requires most { workers ≤ 16 }
    requires numbers { NumbersAreLawful command }
    ensures { IsRun (command_seen command) result (S.bytes source.old)
        (record { before = S.faults source.old; now = S.faults source.new }) (record { before = K.faults sink.old; now = K.faults sink.new })
        (record { before = R.faults report.old; now = R.faults report.new }) (record { before = S.given source.old; now = S.given source.new })
        (record { old = K.written sink.old; new = K.written sink.new; room = K.room sink.old })
        (record { old = R.written report.old; new = R.written report.new; room = R.room report.old; before = R.appended report.old; now = R.appended report.new })
        (sink.new ≡ sink.old) (K.settled sink.new ≡ true) (source.new ≡ source.old) (S.bytes source.new ≡ S.bytes source.old) (report.new ≡ report.old) }
{
    match command {
        Command::Check => {
            let answer = check_file(rt, alloc, source, workers, gate);
            tell(report, command, checked(answer))
        }
        Command::Show => {
            let answer = show_file(alloc, source, report, None);
            tell_fault(report, shown(answer))
        }
        Command::ShowFrame { frame } => {
            let answer = show_file(alloc, source, report, Some(frame));
            tell_fault(report, shown(answer))
        }
        Command::Index => {
            let answer = index_file(alloc, source, report);
            tell_fault(report, listed(answer))
        }
        Command::Make {
            start,
            frames,
            channels,
        } => {
            let answer = make_file(alloc, sink, start, frames, channels);
            tell(report, command, made(answer))
        }
        Command::MakeRun {
            start,
            frames,
            channels,
        } => {
            let answer = make_run(rt, alloc, start, frames, channels, gate);
            tell(report, command, ran(answer))
        }
        _ => run_on_files(rt, alloc, command, workers, source, sink, report, gate),
    }
}

// Runs a command that reads a file and may write one, and reports its line.
fn run_on_files<E: Threads + Sync, S: Source, K: Sink, R: Sink, G: Gate>(
    rt: &E,
    alloc: Global,
    command: Command,
    workers: u32,
    source: &mut S,
    sink: &mut K,
    report: &mut R,
    gate: &G,
) -> u8
    requires least { 1 ≤ workers }
    requires most { workers ≤ 16 }
    requires files { ReadsAndWrites (command_seen command) }
    requires numbers { NumbersAreLawful command }
    ensures { IsRun (command_seen command) result (S.bytes source.old)
        (record { before = S.faults source.old; now = S.faults source.new }) (record { before = K.faults sink.old; now = K.faults sink.new })
        (record { before = R.faults report.old; now = R.faults report.new }) (record { before = S.given source.old; now = S.given source.new })
        (record { old = K.written sink.old; new = K.written sink.new; room = K.room sink.old })
        (record { old = R.written report.old; new = R.written report.new; room = R.room report.old; before = R.appended report.old; now = R.appended report.new })
        (sink.new ≡ sink.old) (K.settled sink.new ≡ true) (source.new ≡ source.old) (S.bytes source.new ≡ S.bytes source.old) (report.new ≡ report.old) }
{
    match command {
        Command::Encode { level } => {
            let picker = picker_of(level);
            let answer = encode_file(rt, alloc, source, sink, &picker, workers, gate);
            tell(report, command, encoded(answer))
        }
        Command::Decode => {
            let answer = decode_file(rt, alloc, source, sink, workers, gate);
            tell(report, command, decoded(answer))
        }
        Command::Cut { first, last } => {
            let answer = cut_file(alloc, source, sink, first, last);
            tell(report, command, cut_out(answer))
        }
        Command::Frame { frame, by_index } => {
            let answer = frame_out(alloc, source, sink, frame, by_index);
            tell(report, command, frame_written(answer))
        }
        Command::EncodeDsf { level } => {
            let picker = picker_of(level);
            let answer = encode_dsf(rt, alloc, source, sink, &picker, workers, gate);
            tell(report, command, encoded(answer))
        }
        Command::DecodeDsf => {
            let answer = decode_dsf(rt, alloc, source, sink, workers, gate);
            tell(report, command, decoded(answer))
        }
        Command::Range { pairs } => {
            let answer = range_out(alloc, source, sink, pairs.as_slice());
            tell(report, command, range_written(answer))
        }
        _ => unreachable!(),
    }
}

// The picker of a level that there is.
fn picker_of(level: u32) -> LevelPicker
    requires { level ≤ 3 }
    ensures { result ≡ level }
{
    let Some(picker) = LevelPicker::new(level) else {
        unreachable!()
    };
    picker
}

// Reports the line of what a command answered that reports one line.
fn tell<R: Sink>(report: &mut R, command: Command, answer: Result<Numbers, Fault>) -> u8
    requires no_report { answer ≡ Err Fault.Report → ⊥ }
    requires one_line { TellsOneLine (command_seen command) }
    ensures reported { (result ≡ status_of answer) ⊎ (result ≡ 7) }
    ensures whole { result ≡ status_of answer → R.written report.new ≡ and_then (R.written report.old) (reports.report (line_of (command_seen command) answer ∷ [])) }
    ensures cut_short { result ≡ 7 → IsCutShort (R.written report.old) (reports.report (line_of (command_seen command) answer ∷ [])) (R.written report.new) }
    ensures added { result ≡ status_of answer → AddsLines (line_of (command_seen command) answer ∷ []) (R.appended report.old) (R.appended report.new) }
    ensures stopped { result ≡ 7 → R.appended report.new ≡ R.appended report.old }
    ensures cause { result ≡ 7 → Rose (R.faults report.old) (R.faults report.new) }
    ensures later { R.faults report.old ≤ R.faults report.new }
    ensures sure { result ≡ 7 → (room : ℕ) → R.room report.old ≡ Some room → length (reports.report (line_of (command_seen command) answer ∷ [])) ≤ room → ⊥ }
{
    match answer {
        Ok(done) => report_line(report, 0, done_line(command, done)),
        Err(fault) => {
            let (status, line) = status_and_line(fault);
            report_line(report, status, line)
        }
    }
}

// Reports the fault of a command that reports its lines itself: nothing where these are reported, or where the report failed.
fn tell_fault<R: Sink>(report: &mut R, answer: Result<Numbers, Fault>) -> u8
    ensures reported { (result ≡ status_of answer) ⊎ (result ≡ 7) }
    ensures done { (s : Numbers) → answer ≡ Ok s → (result ≡ 0) × (report.new ≡ report.old) }
    ensures failed { answer ≡ Err Fault.Report → (result ≡ 7) × (report.new ≡ report.old) }
    ensures whole { (fault : Fault) → answer ≡ Err fault → (fault ≢ Fault.Report) → result ≡ status_of answer
        → R.written report.new ≡ and_then (R.written report.old) (reports.report (fault_line fault ∷ [])) }
    ensures cut_short { (fault : Fault) → answer ≡ Err fault → (fault ≢ Fault.Report) → result ≡ 7
        → IsCutShort (R.written report.old) (reports.report (fault_line fault ∷ [])) (R.written report.new) }
    ensures added { (fault : Fault) → answer ≡ Err fault → (fault ≢ Fault.Report) → result ≡ status_of answer
        → AddsLines (fault_line fault ∷ []) (R.appended report.old) (R.appended report.new) }
    ensures stopped { (fault : Fault) → answer ≡ Err fault → (fault ≢ Fault.Report) → result ≡ 7 → R.appended report.new ≡ R.appended report.old }
    ensures cause { (fault : Fault) → answer ≡ Err fault → (fault ≢ Fault.Report) → result ≡ 7 → Rose (R.faults report.old) (R.faults report.new) }
    ensures later { R.faults report.old ≤ R.faults report.new }
    ensures sure { (fault : Fault) → answer ≡ Err fault → (fault ≢ Fault.Report) → result ≡ 7
        → (room : ℕ) → R.room report.old ≡ Some room → length (reports.report (fault_line fault ∷ [])) ≤ room → ⊥ }
{
    match answer {
        Ok(_) => 0,
        Err(Fault::Report) => 7,
        Err(fault) => {
            let (status, line) = status_and_line(fault);
            report_line(report, status, line)
        }
    }
}

// The line of a command that is done.
fn done_line(command: Command, done: Numbers) -> lines::Line
    requires { TellsOneLine (command_seen command) }
    ensures { result.bytes ≡ reports.report (done_line (command_seen command) done ∷ []) }
{
    match command {
        Command::Encode { .. } | Command::EncodeDsf { .. } => {
            lines::coded(done.frames, done.bytes)
        }
        Command::Decode | Command::DecodeDsf => lines::decoded(done.frames, done.bytes),
        Command::Cut { .. } => lines::cut(done.frames),
        Command::Frame { frame, .. } => lines::frame_written(frame, done.bytes),
        Command::Range { .. } => lines::range(done.bytes),
        Command::Check => lines::checked(done.frames, done.unread),
        Command::Make { .. } => lines::made(done.frames),
        Command::MakeRun { channels, .. } => {
            let sound = u64::from(done.frames) * channels.sound_bytes() as u64;
            lines::made_run(done.frames, sound, done.bytes, done.restored)
        }
        _ => unreachable!(),
    }
}

// The status and the line of a fault.
fn status_and_line(fault: Fault) -> (u8, lines::Line)
    requires { fault ≡ Fault.Report → ⊥ }
    ensures status { result.0 ≡ status_of (Err fault) }
    ensures below { result.0 < 7 }
    ensures line { result.1.bytes ≡ reports.report (fault_line fault ∷ []) }
{
    match fault {
        Fault::Read => (2, lines::read_fault()),
        Fault::Write => (3, lines::write_fault()),
        Fault::Memory(_) => (4, lines::memory()),
        Fault::File(fault) => (5, lines::file_refused(fault)),
        Fault::Frame { frame, fault } => (6, lines::frame_refused(frame, fault)),
        Fault::Report => unreachable!(),
    }
}

// Reports a line; the status is its own, or 7 where the report failed.
pub(crate) fn report_line<R: Sink>(report: &mut R, status: u8, line: lines::Line) -> u8
    requires { status < 7 }
    ensures reported { (result ≡ status) ⊎ (result ≡ 7) }
    ensures whole { result ≡ status → R.written report.new ≡ and_then (R.written report.old) line.bytes }
    ensures cut_short { result ≡ 7 → IsCutShort (R.written report.old) line.bytes (R.written report.new) }
    ensures added { result ≡ status → R.appended report.new ≡ R.appended report.old + length line.bytes }
    ensures stopped { result ≡ 7 → R.appended report.new ≡ R.appended report.old }
    ensures cause { result ≡ 7 → Rose (R.faults report.old) (R.faults report.new) }
    ensures later { R.faults report.old ≤ R.faults report.new }
    ensures sure { result ≡ 7 → (room : ℕ) → R.room report.old ≡ Some room → length line.bytes ≤ room → ⊥ }
{
    match report.append(line.as_bytes()) {
        Ok(()) => status,
        Err(_) => 7,
    }
}
