//! The lines of a report, each with the line feed that ends it. Numbers are decimal.
ghost use Rattle.std.specs.Prelude.{◌≡◌, ◌+◌, ◌<◌, ◌≤◌, ◌∷◌, ◌++◌, [], length, decimal, codes, flat_map};
ghost use Rattle.arrayvec.specs.ArrayString.{array_string_len};
ghost use Rattle.dsdiff_spec.specs.Lines.{report, words_line, read_fault_line, write_fault_line, memory_line, file_line, frame_fault_line, coded_line, decoded_line, cut_line, frame_line, range_line, check_line, made_line, made_run_line, plain_frame_line, coded_frame_line};
ghost use Rattle.dsdiff_spec.specs.Numbers.{numbers_seen};

use arrayvec::ArrayString;
use dsdiff_spec::{FileFault, Numbers, Text, text_of_file};
use dst_spec::FrameFault;
use itoa::{Buffer, Integer};

/// Bytes that a line has room for.
pub const ROOM: usize = 128;

/// One line of a report, with its line feed.
pub type Line = ArrayString<ROOM>;

/// No command has these words.
pub fn words_not_understood() -> Line
    ensures { result.bytes ≡ report (words_line ∷ []) }
{
    ended(line_of("words not understood"))
}

/// The source failed.
pub fn read_fault() -> Line
    ensures { result.bytes ≡ report (read_fault_line ∷ []) }
{
    ended(line_of("read fault"))
}

/// The sink failed.
pub fn write_fault() -> Line
    ensures { result.bytes ≡ report (write_fault_line ∷ []) }
{
    ended(line_of("write fault"))
}

/// Memory was refused.
pub fn memory() -> Line
    ensures { result.bytes ≡ report (memory_line ∷ []) }
{
    ended(line_of("memory"))
}

/// A file is refused: the fault's number, its name and the numbers of its fields in their order.
pub fn file_refused(fault: FileFault) -> Line
    ensures { result.bytes ≡ report (file_line fault ∷ []) }
{
    let Text(number, name, numbers) = text_of_file(fault);
    let mut line = line_of("file refused: ");
    push_number(&mut line, number);
    line.push_str(" ");
    line.push_str(name);
    push_numbers(&mut line, numbers);
    ended(line)
}

/// A frame is refused, frames being counted from 0: the reason's number and name, and the first bit of the field that
/// breaks a rule.
pub fn frame_refused(frame: u32, fault: FrameFault) -> Line
    ensures { result.bytes ≡ report (frame_fault_line frame fault ∷ []) }
{
    let mut line = line_of("frame ");
    push_number(&mut line, frame);
    line.push_str(" refused: ");
    push_number(&mut line, fault.reason.number());
    line.push_str(" ");
    line.push_str(fault.reason.name());
    line.push_str(" at bit ");
    push_number(&mut line, fault.bit);
    ended(line)
}

/// A file is coded: how many frames, and how many bytes are stored of them.
pub fn coded(frames: u32, bytes: u64) -> Line
    ensures { result.bytes ≡ report (coded_line frames bytes ∷ []) }
{
    let mut line = line_of("coded ");
    push_number(&mut line, frames);
    line.push_str(" frames into ");
    push_number(&mut line, bytes);
    line.push_str(" bytes");
    ended(line)
}

/// A file is decoded: how many frames, and how many bytes of sound.
pub fn decoded(frames: u32, bytes: u64) -> Line
    ensures { result.bytes ≡ report (decoded_line frames bytes ∷ []) }
{
    let mut line = line_of("decoded ");
    push_number(&mut line, frames);
    line.push_str(" frames into ");
    push_number(&mut line, bytes);
    line.push_str(" bytes");
    ended(line)
}

/// Frames are cut out of a file: how many.
pub fn cut(frames: u32) -> Line
    ensures { result.bytes ≡ report (cut_line frames ∷ []) }
{
    let mut line = line_of("cut ");
    push_number(&mut line, frames);
    line.push_str(" frames");
    ended(line)
}

/// The sound of a frame is written: the frame's number, counted from 0, and how many bytes.
pub fn frame_written(frame: u32, bytes: u64) -> Line
    ensures { result.bytes ≡ report (frame_line frame bytes ∷ []) }
{
    let mut line = line_of("frame ");
    push_number(&mut line, frame);
    line.push_str(", ");
    push_number(&mut line, bytes);
    line.push_str(" bytes");
    ended(line)
}

/// All frames of a file mean sound: how many, and how many of their bytes aren't read.
pub fn checked(frames: u32, unread: u64) -> Line
    ensures { result.bytes ≡ report (check_line frames unread ∷ []) }
{
    let mut line = line_of("sound, ");
    push_number(&mut line, frames);
    line.push_str(" frames, ");
    push_number(&mut line, unread);
    line.push_str(" unread bytes");
    ended(line)
}

/// Parts of the sound are written: how many bytes.
pub fn range(bytes: u64) -> Line
    ensures { result.bytes ≡ report (range_line bytes ∷ []) }
{
    let mut line = line_of("range ");
    push_number(&mut line, bytes);
    line.push_str(" bytes");
    ended(line)
}

/// A file of made sound is written: how many frames.
pub fn made(frames: u32) -> Line
    ensures { result.bytes ≡ report (made_line frames ∷ []) }
{
    let mut line = line_of("made ");
    push_number(&mut line, frames);
    line.push_str(" frames");
    ended(line)
}

/// Made sound is coded and decoded in memory: how many frames, and how many bytes of sound, of stored frames, and of the
/// sound that came back.
pub fn made_run(frames: u32, sound: u64, stored: u64, restored: u64) -> Line
    ensures { result.bytes ≡ report (made_run_line frames sound stored restored ∷ []) }
{
    let mut line = line_of("made ");
    push_number(&mut line, frames);
    line.push_str(" frames, sound ");
    push_number(&mut line, sound);
    line.push_str(" bytes, coded ");
    push_number(&mut line, stored);
    line.push_str(" bytes, restored ");
    push_number(&mut line, restored);
    line.push_str(" bytes");
    ended(line)
}

/// A frame is plain: its number and its length in bytes.
pub fn plain_frame(frame: u32, bytes: u64) -> Line
    ensures { result.bytes ≡ report (plain_frame_line frame bytes ∷ []) }
{
    let mut line = line_of("frame ");
    push_number(&mut line, frame);
    line.push_str(" plain length ");
    push_number(&mut line, bytes);
    ended(line)
}

/// A frame is coded: its number and its length in bytes, the numbers of its filters and probability tables, and the bit
/// at which its arithmetic code begins.
pub fn coded_frame(frame: u32, bytes: u64, filters: u32, tables: u32, code: u64) -> Line
    ensures { result.bytes ≡ report (coded_frame_line frame bytes filters tables code ∷ []) }
{
    let mut line = line_of("frame ");
    push_number(&mut line, frame);
    line.push_str(" coded length ");
    push_number(&mut line, bytes);
    line.push_str(" filters ");
    push_number(&mut line, filters);
    line.push_str(" tables ");
    push_number(&mut line, tables);
    line.push_str(" code ");
    push_number(&mut line, code);
    ended(line)
}

/// Where a frame stands: its number, the place of its first byte in the file, and its size in bytes.
pub fn entry(frame: u32, offset: u64, size: u32) -> Line
    ensures { result.bytes ≡ report ((decimal frame ++ codes " " ++ decimal offset ++ codes " " ++ decimal size) ∷ []) }
{
    let mut line = line_of("");
    push_number(&mut line, frame);
    push_spaced(&mut line, offset);
    push_spaced(&mut line, u64::from(size));
    ended(line)
}

/// A text behind the name of what it says, as in the summary of a file.
pub fn with_text(name: &str, text: &str) -> Line
    requires { length name.now + length text.now < 32 }
    ensures { result.bytes ≡ report ((name.now ++ text.now) ∷ []) }
{
    let mut line = line_of(name);
    line.push_str(text);
    ended(line)
}

/// A number behind the name of what it counts.
pub fn with_number(name: &str, number: u64) -> Line
    requires { length name.now < 32 }
    ensures { result.bytes ≡ report ((name.now ++ decimal number) ∷ []) }
{
    let mut line = line_of(name);
    push_number(&mut line, number);
    ended(line)
}

/// A number of bytes behind the name of what has them.
pub fn with_bytes(name: &str, bytes: u64) -> Line
    requires { length name.now < 32 }
    ensures { result.bytes ≡ report ((name.now ++ decimal bytes ++ codes " bytes") ∷ []) }
{
    let mut line = line_of(name);
    push_number(&mut line, bytes);
    line.push_str(" bytes");
    ended(line)
}

fn line_of(text: &str) -> Line
    requires { length text.now ≤ ROOM }
    ensures text { result.bytes ≡ text.now }
    ensures len { array_string_len result ≡ length text.now }
{
    let mut line = Line::new();
    line.push_str(text);
    line
}

// The line with its line feed.
fn ended(line: Line) -> Line
    requires { array_string_len line < ROOM }
    ensures { result.bytes ≡ report (line.bytes ∷ []) }
{
    let mut line = line;
    line.push_str("\n");
    line
}

fn push_number<I: Integer>(line: &mut Line, number: I)
    requires { array_string_len line.old + I.MAX_STR_LEN ≤ ROOM }
    ensures text { line.new.bytes ≡ line.old.bytes ++ I.text number }
    ensures len { array_string_len line.new ≤ array_string_len line.old + I.MAX_STR_LEN }
{
    let mut buffer = Buffer::new();
    line.push_str(buffer.format(number));
}

// Each number behind a space.
fn push_numbers(line: &mut Line, numbers: Numbers)
    requires { array_string_len line.old + 42 ≤ ROOM }
    ensures text { line.new.bytes ≡ line.old.bytes ++ flat_map (λ n. codes " " ++ decimal n) (numbers_seen numbers) }
    ensures len { array_string_len line.new ≤ array_string_len line.old + 42 }
{
    match numbers {
        Numbers::Nothing => {}
        Numbers::One(number) => push_spaced(line, number),
        Numbers::Two(first, second) => {
            push_spaced(line, first);
            push_spaced(line, second);
        }
    }
}

fn push_spaced(line: &mut Line, number: u64)
    requires { array_string_len line.old + 21 ≤ ROOM }
    ensures text { line.new.bytes ≡ line.old.bytes ++ codes " " ++ decimal number }
    ensures len { array_string_len line.new ≤ array_string_len line.old + 21 }
{
    line.push_str(" ");
    push_number(line, number);
}
