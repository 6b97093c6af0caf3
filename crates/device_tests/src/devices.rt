// What no clause says: which calls of a device in memory fail, and what real files and streams do.
ghost use Rattle.std.specs.Prelude.{◌≡◌, ◌≤◌, IsSome, OnOk};

mod faulty;

use crate::compared::same;
use dst_streams::{
    Failed, FileSink, FileSource, Flow, HonestSource, MemoryFlow, MemorySink, MemorySource,
    PipeFlow, ShortFlowSink, Sink, Source, TextSink,
};
use faulty::{BrokenPipe, Disk};
use std::alloc::{Alloc, AllocError, Allocator, Global};
use std::fs::{self, Files};
use std::io::{self, BufRead, ErrorKind, Input, Lines};
use std::os::unix::fs::FileExt;

// A standard input that holds five bytes.
struct Typed;

impl Input for Typed {
    type Reader = &'static [u8];

    fn read_line<A: Allocator + Clone>(&self, _buf: &mut String<A>) -> io::Result<usize> {
        Ok(0)
    }

    fn lines<A: Allocator>(&self, alloc: A) -> Lines<&'static [u8], A> {
        self.reader().lines(alloc)
    }

    fn reader(&self) -> &'static [u8] {
        b"typed"
    }
}

// What kind of reason the system gave.
fn kind_of(reason: Option<io::Error>) -> Option<ErrorKind> {
    match reason {
        Some(reason) => Some(reason.kind()),
        None => None,
    }
}

// Four bytes are asked of a source from a place on: the answer, and what is held then.
fn read_from<S: Source>(source: &mut S, place: u64) -> (Result<usize, Failed>, [u8; 4])
    requires { IsSome (S.known source.old) }
    ensures { S.known source.new ≡ S.known source.old }
{
    let mut out = [0u8; 4];
    let read = source.read_at(place, &mut out);
    (read, out)
}

// What a source says of its size when it is asked twice, and gives then from five places.
type Planned = (
    [Result<u64, Failed>; 2],
    [(Result<usize, Failed>, [u8; 4]); 5],
);

fn planned() -> Planned {
    let mut source = MemorySource::new(&[1, 2, 3, 4, 5], &[3, 0], &[0, 3]);
    let sizes = [source.size(), source.size()];
    let reads = [
        read_from(&mut source, 1),
        read_from(&mut source, 1),
        read_from(&mut source, 4),
        read_from(&mut source, 0),
        read_from(&mut source, 5),
    ];
    (sizes, reads)
}

#[test]
fn a_source_in_memory_gives_its_pieces_and_fails_as_planned(rt: HostRuntime) {
    let reads = [
        (Ok(3), [2, 3, 4, 0]),
        (Err(Failed), [0, 0, 0, 0]),
        (Ok(1), [5, 0, 0, 0]),
        (Ok(1), [1, 0, 0, 0]),
        (Ok(0), [0, 0, 0, 0]),
    ];
    same(&rt, &planned(), &([Err(Failed), Ok(5)], reads));
}

#[test]
fn an_honest_source_gives_all_that_is_asked(rt: HostRuntime) {
    let mut source = HonestSource::new(&[1, 2, 3, 4, 5]);
    let seen = (source.size(), read_from(&mut source, 1));
    same(&rt, &seen, &(Ok(5), (Ok(4), [2, 3, 4, 5])));
}

// A piece is appended: the answer, and whether these bytes are written then.
fn appends(sink: &mut MemorySink<'_>, piece: &[u8], held: &[u8]) -> (Result<(), Failed>, bool) {
    let appended = sink.append(piece);
    (appended, sink.written() == held)
}

// What each of four appends answers, and one overwriting.
type Halves = ([(Result<(), Failed>, bool); 4], Result<(), Failed>);

fn halves(alloc: Global) -> Result<Halves, AllocError> {
    let mut sink = MemorySink::new(alloc, 6, &[1, 4])?;
    let appended = [
        appends(&mut sink, &[1, 2, 3], &[1, 2, 3]),
        appends(&mut sink, &[4, 5, 6], &[1, 2, 3, 4]),
        appends(&mut sink, &[7, 8, 9], &[1, 2, 3, 4, 7]),
        appends(&mut sink, &[8, 8, 9, 9], &[1, 2, 3, 4, 7, 8]),
    ];
    Ok((appended, sink.overwrite(0, &[])))
}

#[test]
fn a_sink_in_memory_keeps_half_of_a_refused_piece(rt: HostRuntime) {
    let refused = (Err(Failed), true);
    let appended = [(Ok(()), true), refused, refused, refused];
    same(&rt, &halves(rt.alloc()), &Ok((appended, Err(Failed))));
}

// Three bytes, of which the one at a place is written over.
fn write_over<K: Sink>(sink: &mut K, place: u64) -> Result<(), Failed>
    requires { place ≤ 2 }
    ensures { OnOk result (3 ≤ K.appended sink.new) }
{
    sink.append(&[1, 2, 3])?;
    sink.overwrite(place, &[9])?;
    sink.finish()
}

// Whether three bytes are written so into a room of three.
fn is_written_over(alloc: Global) -> Result<(Result<(), Failed>, bool), AllocError> {
    let mut sure = MemorySink::new(alloc, 3, &[])?;
    let answer = write_over(&mut sure, 1);
    Ok((answer, sure.written() == [1, 9, 3].as_slice()))
}

#[test]
fn a_sink_in_memory_is_written_over(rt: HostRuntime) {
    same(&rt, &is_written_over(rt.alloc()), &Ok((Ok(()), true)));
}

// Which of four calls of a sink fail.
type Failing = [bool; 4];

// The same where the call of this number is made to.
fn failing_calls(alloc: Global, call: u64) -> Result<Failing, AllocError> {
    let fails = [call];
    let mut sink = MemorySink::new(alloc, 9, &fails)?;
    Ok([
        sink.append(&[1, 2]).is_err(),
        sink.overwrite(0, &[]).is_err(),
        sink.finish().is_err(),
        sink.append(&[3]).is_err(),
    ])
}

// A call, and which of the four fail.
const FAILING_CALLS: [(u64, Failing); 4] = [
    (0, [true, false, false, false]),
    (1, [false, true, false, false]),
    (2, [false, false, true, false]),
    (3, [false, false, false, true]),
];

#[test]
fn each_call_of_a_sink_in_memory_fails_in_its_turn(rt: HostRuntime) {
    for &(call, failing) in &FAILING_CALLS {
        same(&rt, &failing_calls(rt.alloc(), call), &Ok(failing));
    }
}

// What a piece is answered that doesn't fit behind three bytes, and then each call; and whether the same is held behind it and behind them.
type CutShort = (Result<(), Failed>, [Result<(), Failed>; 3], [bool; 2]);

fn cut_short() -> Result<CutShort, Failed> {
    let mut sink = ShortFlowSink::new(4);
    write_over(&mut sink, 0)?;
    let cut = sink.append(&[4, 5]);
    let is_held = sink.written() == [9, 2, 3, 4].as_slice();
    let after = [sink.append(&[]), sink.overwrite(1, &[8]), sink.finish()];
    let is_still_held = sink.written() == [9, 2, 3, 4].as_slice();
    Ok((cut, after, [is_held, is_still_held]))
}

#[test]
fn a_short_sink_keeps_its_prefix_and_then_fails(rt: HostRuntime) {
    let wanted = (Err(Failed), [Err(Failed); 3], [true; 2]);
    same(&rt, &cut_short(), &Ok(wanted));
}

// What a flow answers when three bytes are asked of it, and what is held then.
type Moved = (Result<usize, Failed>, [u8; 3]);

fn moves<F: Flow>(flow: &mut F) -> Moved {
    let mut out = [0u8; 3];
    let moved = flow.next(&mut out);
    (moved, out)
}

// The same three times in order.
fn moves_thrice<F: Flow>(flow: &mut F) -> [Moved; 3] {
    [moves(flow), moves(flow), moves(flow)]
}

// Six pieces of a flow in memory.
fn pieces() -> [[Moved; 3]; 2] {
    let mut flow = MemoryFlow::new(&[1, 2, 3, 4, 5, 6], &[2, 0], &[2]);
    [moves_thrice(&mut flow), moves_thrice(&mut flow)]
}

#[test]
fn a_flow_in_memory_moves_its_pieces(rt: HostRuntime) {
    let first = [
        (Ok(2), [1, 2, 0]),
        (Ok(1), [3, 0, 0]),
        (Err(Failed), [0, 0, 0]),
    ];
    let then = [(Ok(1), [4, 0, 0]), (Ok(2), [5, 6, 0]), (Ok(0), [0, 0, 0])];
    same(&rt, &pieces(), &[first, then]);
}

// Whether the system did what it was asked.
fn is_done(answer: io::Result<()>) -> bool {
    answer.is_ok()
}

// Whether a file holds these bytes. It is removed.
fn holds<R: Files + Alloc>(rt: &R, path: &str, bytes: &[u8]) -> bool {
    match fs::read(rt, path) {
        Ok(held) => is_done(fs::remove_file(rt, path)) && held.as_slice() == bytes,
        Err(_) => false,
    }
}

// Eight bytes in three pieces, of which two are written over before the last.
fn write_in_pieces<K: Sink>(sink: &mut K) -> Result<(), Failed> {
    sink.append(b"seven ")?;
    sink.append(b"b")?;
    sink.overwrite(1, b"EV")?;
    sink.append(b"!")?;
    sink.finish()
}

// The size of a file that is made, as its sink tells it.
fn made_size<D: Files>(disk: &D) -> Result<Option<u64>, Failed> {
    let mut made = FileSink::new(disk, "made.bin");
    write_in_pieces(&mut made)?;
    Ok(made.held())
}

// What a sink whose file is there already answers to a piece, why, and what size it tells.
fn made_again<D: Files>(disk: &D) -> (Result<(), Failed>, Option<ErrorKind>, Option<u64>) {
    let mut again = FileSink::new(disk, "made.bin");
    let refused = again.append(b"x");
    (refused, kind_of(again.reason()), again.held())
}

// What making a file answers, and making it again, and whether it holds what was written first.
type Made = (
    Result<Option<u64>, Failed>,
    (Result<(), Failed>, Option<ErrorKind>, Option<u64>),
    bool,
);

fn made_twice<R: Files + Alloc>(rt: &R) -> Made {
    let _is_gone = is_done(fs::remove_file(rt, "made.bin"));
    let size = made_size(rt);
    let again = made_again(rt);
    (size, again, holds(rt, "made.bin", b"sEVen b!"))
}

#[test]
fn a_file_is_made_where_there_is_none(rt: HostRuntime) {
    let refused = (Err(Failed), Some(ErrorKind::AlreadyExists), None);
    same(&rt, &made_twice(&rt), &(Ok(Some(8)), refused, true));
}

// A piece and a part of it written over.
fn write_parts<D: Files>(disk: &D) -> Result<(), Failed> {
    let mut sink = FileSink::new(disk, "parts.bin");
    sink.append(b"seven bytes")?;
    sink.overwrite(6, b"BYTES")
}

// What a disk that takes them in small steps answers, and whether they are held then.
fn written_in_parts<R: Files + Alloc, D: Files>(rt: &R, steps: &D) -> (Result<(), Failed>, bool) {
    let _is_gone = is_done(fs::remove_file(rt, "parts.bin"));
    let written = write_parts(steps);
    (written, holds(rt, "parts.bin", b"seven BYTES"))
}

#[test]
fn a_piece_that_is_taken_in_parts_is_written_whole(rt: HostRuntime) {
    let written = written_in_parts(&rt, &Disk::SmallSteps(&rt));
    same(&rt, &written, &(Ok(()), true));
}

// What finishing answers where nothing was made yet, and behind a piece.
fn finishes<D: Files>(disk: &D) -> [Result<(), Failed>; 3] {
    let mut unmade = FileSink::new(disk, "unkept.bin");
    let mut sink = FileSink::new(disk, "unkept.bin");
    [unmade.finish(), sink.append(b"seven b"), sink.finish()]
}

#[test]
fn a_file_that_the_disk_refuses_is_a_failure(rt: HostRuntime) {
    same(&rt, &finishes(&Disk::Full), &[Ok(()), Ok(()), Err(Failed)]);
}

// The size of a file, what reading answers from byte 2 on and behind its end, and the bytes from byte 2 on.
type Seen = (u64, Result<usize, Failed>, Result<usize, Failed>, [u8; 6]);

fn read_file<D: Files>(disk: &D) -> Result<Seen, Failed>
where
    D::File: FileExt,
{
    let mut source = FileSource::new(disk, "read.bin");
    let size = source.size()?;
    let mut out = [0u8; 6];
    let read = source.read_at(2, &mut out);
    let past = source.read_at(7, &mut [0u8; 1]);
    Ok((size, read, past, out))
}

// The size of a file of the same name, and why there is none.
fn size_or_reason<D: Files>(disk: &D) -> (Result<u64, Failed>, Option<ErrorKind>)
where
    D::File: FileExt,
{
    let mut source = FileSource::new(disk, "read.bin");
    let size = source.size();
    (size, kind_of(source.reason()))
}

// Whether a file of seven bytes is made and removed, what reading it tells, and its size when it is gone.
type ReadAndGone = (
    [bool; 2],
    Result<Seen, Failed>,
    (Result<u64, Failed>, Option<ErrorKind>),
);

fn read_and_gone<D: Files>(disk: &D) -> ReadAndGone
where
    D::File: FileExt,
{
    let is_made = is_done(fs::write(disk, "read.bin", b"seven b"));
    let read = read_file(disk);
    let is_removed = is_done(fs::remove_file(disk, "read.bin"));
    ([is_made, is_removed], read, size_or_reason(disk))
}

#[test]
fn a_file_is_read_as_it_is(rt: HostRuntime) {
    let seen = (7, Ok(5), Ok(0), *b"ven b\0");
    let absent = (Err(Failed), Some(ErrorKind::NotFound));
    same(&rt, &read_and_gone(&rt), &([true; 2], Ok(seen), absent));
}

// The size of a file that ends below it when it is read, whether it was made to, the answer behind that end, and why.
type Shrunk = (u64, bool, Result<usize, Failed>, Option<ErrorKind>);

fn read_shrunk<D: Files>(disk: &D) -> Result<Shrunk, Failed>
where
    D::File: FileExt,
{
    let mut source = FileSource::new(disk, "shrinks.bin");
    let size = source.size()?;
    let is_cut = is_done(fs::write(disk, "shrinks.bin", b"se"));
    let behind = source.read_at(2, &mut [0u8; 4]);
    Ok((size, is_cut, behind, kind_of(source.reason())))
}

// What reading a folder answers, whose size is answered.
fn read_folder<D: Files>(disk: &D) -> Result<Result<usize, Failed>, Failed>
where
    D::File: FileExt,
{
    let mut folder = FileSource::new(disk, ".");
    folder.size()?;
    Ok(folder.read_at(0, &mut [0u8; 4]))
}

// Whether a file of seven bytes is made and removed, what it tells that ends below the size that it had, and what a folder answers.
type NothingGiven = (
    [bool; 2],
    Result<Shrunk, Failed>,
    Result<Result<usize, Failed>, Failed>,
);

fn nothing_given<D: Files>(disk: &D) -> NothingGiven
where
    D::File: FileExt,
{
    let is_made = is_done(fs::write(disk, "shrinks.bin", b"seven b"));
    let shrunk = read_shrunk(disk);
    let is_removed = is_done(fs::remove_file(disk, "shrinks.bin"));
    ([is_made, is_removed], shrunk, read_folder(disk))
}

// A file that ends below the size that it had, a folder, and a file whose size can't be had.
#[test]
fn a_file_that_gives_nothing_is_a_failure(rt: HostRuntime) {
    let (no_size, _) = size_or_reason(&Disk::Full);
    let shrunk = (7, true, Err(Failed), Some(ErrorKind::UnexpectedEof));
    same(
        &rt,
        &(nothing_given(&rt), no_size),
        &(([true; 2], Ok(shrunk), Ok(Err(Failed))), Err(Failed)),
    );
}

// A line is appended: what overwriting and finishing answer.
fn says_a_line<K: Sink>(text: &mut K) -> Result<[Result<(), Failed>; 2], Failed> {
    text.append(b"a line on standard output\n")?;
    Ok([text.overwrite(0, b"A"), text.finish()])
}

#[test]
fn standard_output_takes_text_and_no_overwriting(rt: HostRuntime) {
    let mut text = TextSink::new(&rt);
    same(&rt, &says_a_line(&mut text), &Ok([Err(Failed), Ok(())]));
}

#[test]
fn standard_input_that_is_empty_is_at_its_end(rt: HostRuntime) {
    let mut out = [0u8; 4];
    let moved = PipeFlow::new(&rt).next(&mut out);
    same(&rt, &moved, &Ok(0));
}

// What two calls of a pipe answer, and why the last one failed.
fn breaks_off() -> (
    Result<usize, Failed>,
    Result<usize, Failed>,
    Option<ErrorKind>,
) {
    let mut flow = PipeFlow::new(&BrokenPipe);
    let mut out = [0u8; 3];
    let first = flow.next(&mut out);
    let second = flow.next(&mut out);
    (first, second, kind_of(flow.reason()))
}

#[test]
fn standard_input_that_breaks_off_is_a_failure(rt: HostRuntime) {
    let broken = Some(ErrorKind::BrokenPipe);
    same(&rt, &breaks_off(), &(Ok(3), Err(Failed), broken));
}

#[test]
fn standard_input_comes_in_order_to_its_end(rt: HostRuntime) {
    let moved = moves_thrice(&mut PipeFlow::new(&Typed));
    same(
        &rt,
        &moved,
        &[(Ok(3), *b"typ"), (Ok(2), *b"ed\0"), (Ok(0), [0; 3])],
    );
}
