// The words of a command line.
ghost use Rattle.std.specs.Prelude.{◌≡◌, map, option_map, IfSome};
ghost use Rattle.std.specs.String.{string_bytes};
ghost use Rattle.words_spec.specs.Rows.{task_of};
ghost use Rattle.dst_words.specs.Commands.{channels_seen, task_seen, HasFewWorkers, HasLawfulNumbers};
ghost use Rattle.dst_words.specs.RowWords.{encode_words, decode_words, cut_words, frame_words, check_words, show_words, index_words, made_words, make_words, encode_dsf_words, decode_dsf_words, range_words};

use crate::pairs::Pairs;
use crate::slots::{
    is_file_word, read_by_index, read_channels, read_level_and_workers, read_number, read_pairs,
    read_span, read_within, read_workers,
};
use dst_num::Channels;

/// What is asked for. The names of files stay in words 1 and 2, word 0 being the command's name. Frames are numbered from 0.
#[derive(Clone, Copy, Debug, Drop, PartialEq, Eq)]
pub enum Command {
    /// `encode IN OUT [--level L] [--workers W]`: code a plain file at a level, 0 to 3.
    Encode {
        level: u32,
    },
    /// `decode IN OUT [--workers W]`: decode a coded file.
    Decode,
    /// `cut IN OUT A B`: write some frames of a coded file as a coded file: those from the first to the last, both included. The
    /// last isn't before the first.
    Cut {
        first: u32,
        last: u32,
    },
    /// `frame IN OUT K [--by-index]`: write the sound of one frame, which is found by the file's index or by its chunks.
    Frame {
        frame: u32,
        by_index: bool,
    },
    /// `check IN [--workers W]`: decode all frames and compare the index, writing nothing.
    Check,
    /// `show IN`: say what the file is.
    Show,
    /// `show IN K`: say the header of one frame.
    ShowFrame {
        frame: u32,
    },
    /// `index IN`: list where the frames stand.
    Index,
    /// `make START OUT FRAMES CHANNELS [--rate Q]`: write a plain file of made sound, which the number `start` gives: so many
    /// frames, 0 to 1,000. The rate Q, 64, 128 or 256 times 44.1 kHz, is that of the channels.
    Make {
        start: u32,
        frames: u32,
        channels: Channels,
    },
    /// `make START --run FRAMES CHANNELS [--rate Q]`: make it in memory, code it and decode it, and report the sizes; frames are
    /// 0 to 100.
    MakeRun {
        start: u32,
        frames: u32,
        channels: Channels,
    },
    /// `encode-dsf IN OUT [--level L] [--workers W]`: code a DSF file at a level, 0 to 3.
    EncodeDsf {
        level: u32,
    },
    /// `decode-dsf IN OUT [--workers W]`: decode a coded file to a DSF file.
    DecodeDsf,
    /// `range IN OUT FROM COUNT ..`: write 1 to 16 parts of the sound, each from a group on so many groups.
    Range {
        pairs: Pairs,
    },
}

/// What words ask for: a command, and how many workers, 1 to 16, work at it side by side; one unless words say otherwise. What
/// a command answers doesn't depend on their number.
#[derive(Clone, Copy, Debug, Drop, PartialEq, Eq)]
pub struct Task {
    pub command: Command,
    pub workers: u32,
}

/// What these words ask for, or nothing where no command has them.
pub fn read_words(words: &[String]) -> Option<Task>
    ensures task { option_map task_seen result ≡ task_of (map string_bytes words.now) }
    ensures workers { IfSome result HasFewWorkers }
    ensures numbers { IfSome result HasLawfulNumbers }
{
    let [name, rest @ ..] = words else {
        return None;
    };
    match name.as_str() {
        "encode" => read_encode(rest),
        "decode" => read_decode(rest),
        "cut" => read_cut(rest),
        "frame" => read_frame(rest),
        "check" => read_check(rest),
        "show" => read_show(rest),
        "index" => read_index(rest),
        "make" => read_make(rest),
        "encode-dsf" => read_encode_dsf(rest),
        "decode-dsf" => read_decode_dsf(rest),
        "range" => read_range(rest),
        _ => None,
    }
}

fn read_encode(words: &[String]) -> Option<Task>
    ensures task { option_map task_seen result ≡ encode_words (map string_bytes words.now) }
    ensures workers { IfSome result HasFewWorkers }
    ensures numbers { IfSome result HasLawfulNumbers }
{
    let [input, output, options @ ..] = words else {
        return None;
    };
    if !is_file_word(input) || !is_file_word(output) {
        return None;
    }
    let (level, workers) = read_level_and_workers(options)?;
    Some(Task {
        command: Command::Encode { level },
        workers,
    })
}

fn read_decode(words: &[String]) -> Option<Task>
    ensures task { option_map task_seen result ≡ decode_words (map string_bytes words.now) }
    ensures workers { IfSome result HasFewWorkers }
    ensures numbers { IfSome result HasLawfulNumbers }
{
    let [input, output, options @ ..] = words else {
        return None;
    };
    if !is_file_word(input) || !is_file_word(output) {
        return None;
    }
    let workers = read_workers(options)?;
    Some(Task {
        command: Command::Decode,
        workers,
    })
}

fn read_cut(words: &[String]) -> Option<Task>
    ensures task { option_map task_seen result ≡ cut_words (map string_bytes words.now) }
    ensures workers { IfSome result HasFewWorkers }
    ensures numbers { IfSome result HasLawfulNumbers }
{
    let [input, output, first, last] = words else {
        return None;
    };
    if !is_file_word(input) || !is_file_word(output) {
        return None;
    }
    let (first, last) = read_span(first, last)?;
    Some(by_one(Command::Cut { first, last }))
}

fn read_frame(words: &[String]) -> Option<Task>
    ensures task { option_map task_seen result ≡ frame_words (map string_bytes words.now) }
    ensures workers { IfSome result HasFewWorkers }
    ensures numbers { IfSome result HasLawfulNumbers }
{
    let [input, output, number, options @ ..] = words else {
        return None;
    };
    if !is_file_word(input) || !is_file_word(output) {
        return None;
    }
    let frame = read_number(number)?;
    let by_index = read_by_index(options)?;
    Some(by_one(Command::Frame { frame, by_index }))
}

fn read_check(words: &[String]) -> Option<Task>
    ensures task { option_map task_seen result ≡ check_words (map string_bytes words.now) }
    ensures workers { IfSome result HasFewWorkers }
    ensures numbers { IfSome result HasLawfulNumbers }
{
    let [input, options @ ..] = words else {
        return None;
    };
    if !is_file_word(input) {
        return None;
    }
    let workers = read_workers(options)?;
    Some(Task {
        command: Command::Check,
        workers,
    })
}

fn read_show(words: &[String]) -> Option<Task>
    ensures task { option_map task_seen result ≡ show_words (map string_bytes words.now) }
    ensures workers { IfSome result HasFewWorkers }
    ensures numbers { IfSome result HasLawfulNumbers }
{
    let [input, rest @ ..] = words else {
        return None;
    };
    if !is_file_word(input) {
        return None;
    }
    match rest {
        [] => Some(by_one(Command::Show)),
        [number] => {
            let frame = read_number(number)?;
            Some(by_one(Command::ShowFrame { frame }))
        }
        _ => None,
    }
}

fn read_index(words: &[String]) -> Option<Task>
    ensures task { option_map task_seen result ≡ index_words (map string_bytes words.now) }
    ensures workers { IfSome result HasFewWorkers }
    ensures numbers { IfSome result HasLawfulNumbers }
{
    let [input] = words else {
        return None;
    };
    if is_file_word(input) {
        Some(by_one(Command::Index))
    } else {
        None
    }
}

// A file of made sound, or a run in memory, which has a fixed word in the place of the file.
fn read_make(words: &[String]) -> Option<Task>
    ensures task { option_map task_seen result ≡ make_words (map string_bytes words.now) }
    ensures workers { IfSome result HasFewWorkers }
    ensures numbers { IfSome result HasLawfulNumbers }
{
    let [start, place, frames, count, options @ ..] = words else {
        return None;
    };
    let start = read_number(start)?;
    let channels = read_channels(count, options)?;
    read_made(start, channels, place, frames)
}

// Made sound in a file, or in memory, in so many frames.
fn read_made(start: u32, channels: Channels, place: &String, frames: &String) -> Option<Task>
    ensures task { option_map task_seen result
        ≡ made_words start (channels_seen channels) (string_bytes place.now) (string_bytes frames.now) }
    ensures workers { IfSome result HasFewWorkers }
    ensures numbers { IfSome result HasLawfulNumbers }
{
    if place.as_str() == "--run" {
        let frames = read_within(frames, 0, 100)?;
        return Some(by_one(Command::MakeRun {
            start,
            frames,
            channels,
        }));
    }
    if !is_file_word(place) {
        return None;
    }
    let frames = read_within(frames, 0, 1000)?;
    Some(by_one(Command::Make {
        start,
        frames,
        channels,
    }))
}

fn read_encode_dsf(words: &[String]) -> Option<Task>
    ensures task { option_map task_seen result ≡ encode_dsf_words (map string_bytes words.now) }
    ensures workers { IfSome result HasFewWorkers }
    ensures numbers { IfSome result HasLawfulNumbers }
{
    let [input, output, options @ ..] = words else {
        return None;
    };
    if !is_file_word(input) || !is_file_word(output) {
        return None;
    }
    let (level, workers) = read_level_and_workers(options)?;
    Some(Task {
        command: Command::EncodeDsf { level },
        workers,
    })
}

fn read_decode_dsf(words: &[String]) -> Option<Task>
    ensures task { option_map task_seen result ≡ decode_dsf_words (map string_bytes words.now) }
    ensures workers { IfSome result HasFewWorkers }
    ensures numbers { IfSome result HasLawfulNumbers }
{
    let [input, output, options @ ..] = words else {
        return None;
    };
    if !is_file_word(input) || !is_file_word(output) {
        return None;
    }
    let workers = read_workers(options)?;
    Some(Task {
        command: Command::DecodeDsf,
        workers,
    })
}

fn read_range(words: &[String]) -> Option<Task>
    ensures task { option_map task_seen result ≡ range_words (map string_bytes words.now) }
    ensures workers { IfSome result HasFewWorkers }
    ensures numbers { IfSome result HasLawfulNumbers }
{
    let [input, output, numbers @ ..] = words else {
        return None;
    };
    if !is_file_word(input) || !is_file_word(output) {
        return None;
    }
    let pairs = read_pairs(numbers)?;
    Some(by_one(Command::Range { pairs }))
}

// A command at which one works.
fn by_one(command: Command) -> Task
    ensures { result ≡ record { command = command; workers = 1 } }
{
    Task {
        command,
        workers: 1,
    }
}
