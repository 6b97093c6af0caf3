// The commands of the program, and what `--help` and `--version` print.
ghost use Rattle.std.specs.Prelude.{◌≡◌, ◌≢◌, true, false, None};
ghost use Rattle.dst_console.specs.Words.{has_help};

/// A command, for people: how it is called, and what it does.
pub(crate) struct CommandHelp {
    /// The words behind the program's name.
    pub(crate) usage: &'static str,
    /// The words that must stand behind the name, in order.
    pub(crate) places: &'static [&'static str],
    /// The options that may stand behind them.
    pub(crate) options: &'static [&'static str],
    /// What the command's own `--help` prints.
    pub(crate) text: &'static str,
}

/// The command of this name.
pub(crate) fn help_of(name: &str) -> Option<&'static CommandHelp>
    ensures known { has_help name.now ≡ true → result ≢ None }
    ensures unknown { has_help name.now ≡ false → result ≡ None }
{
    match name {
        "encode" => Some(&ENCODE),
        "decode" => Some(&DECODE),
        "cut" => Some(&CUT),
        "frame" => Some(&FRAME),
        "range" => Some(&RANGE),
        "check" => Some(&CHECK),
        "show" => Some(&SHOW),
        "index" => Some(&INDEX),
        "pipe" => Some(&PIPE),
        "encode-dsf" => Some(&ENCODE_DSF),
        "decode-dsf" => Some(&DECODE_DSF),
        "make" => Some(&MAKE),
        _ => None,
    }
}

/// What `--version` prints.
pub(crate) const VERSION: &str = "dst_cli 0.1.0\n";

/// What `--help` prints.
pub(crate) const HELP: &str = "\
Direct Stream Transfer, the lossless coding of Super Audio CD, in DSDIFF files.

  dst_cli encode IN OUT [--level L] [--workers W]
                                         write the coded file of a plain file
  dst_cli decode IN OUT [--workers W]    write the plain file of a coded file
  dst_cli cut IN OUT A B                 write frames A to B as a coded file
  dst_cli frame IN OUT K [--by-index]    write the sound of frame K
  dst_cli range IN OUT FROM COUNT ..     write parts of the sound
  dst_cli check IN [--workers W]         decode all frames and compare the index
  dst_cli show IN                        print what the file is
  dst_cli show IN K                      print the header of frame K
  dst_cli index IN                       print place and size of each frame
  dst_cli pipe OUT                       decode standard input as it comes
  dst_cli encode-dsf IN OUT [--level L] [--workers W]
                                         write the coded file of a DSF file
  dst_cli decode-dsf IN OUT [--workers W]
                                         write the DSF file of a coded file
  dst_cli make START OUT FRAMES CHANNELS [--rate Q]
                                         write a plain file of made sound
  dst_cli make START --run FRAMES CHANNELS [--rate Q]
                                         make sound, code it and decode it
  dst_cli COMMAND --help                 print more about a command
  dst_cli --help                         print this text
  dst_cli --version                      print the version

IN and OUT are files; OUT must not be there yet. A name doesn't begin with -.
Frames are numbered from 0. Options stand last, each at most once.

  --level L      0 keeps frames as they are, 1 tries one filter a channel,
                 2 tries more, 3 refines them; the shortest is kept; else 1
  --workers W    so many frames at a time, 1 to 16; 1 without this option
  --by-index     find the frame by the file's index, not by its chunks
  --rate Q       64, 128 or 256 times 44.1 kHz; 64 without this option

Status:
  0  done                         5  file refused
  1  words not understood         6  frame refused
  2  read fault                   7  report fault
  3  write fault                  8  words that aren't text
  4  memory

The report stands on standard output, and a reason for people, where there is
one, on standard error.
";

const ENCODE: CommandHelp = CommandHelp {
    usage: "encode IN OUT [--level L] [--workers W]",
    places: &["IN", "OUT"],
    options: &["--level", "--workers"],
    text: "\
dst_cli encode IN OUT [--level L] [--workers W]

Writes the coded file of a plain one. `decode` of it gives back every bit of IN,
and no frame is longer than its plain form and a byte.

  --level L      0 keeps frames as they are, 1 tries one filter a channel,
                 2 tries eight sets of filters and keeps the shortest, 3 refines
                 filters beside them; 1 without this option. Music takes 54 to
                 64 percent of its plain size at level 1, 40 to 50 at level 2 in
                 three times the time, and at level 3 a tenth to a seventh less
                 than at level 2, in several times its time
  --workers W    so many frames at a time, 1 to 16, and no more than there are
                 processors; 1 without this option. It changes no byte

Prints: coded F frames into B bytes
Status: 0, 1, 2, 3, 4, 5 or 7. Only behind 0 is OUT whole, and on its disk.

  dst_cli encode plain.dff master.dff --level 2 --workers 4
",
};

const DECODE: CommandHelp = CommandHelp {
    usage: "decode IN OUT [--workers W]",
    places: &["IN", "OUT"],
    options: &["--workers"],
    text: "\
dst_cli decode IN OUT [--workers W]

Writes the plain file of a coded one. Of a file that `encode` made it is the
file that was coded, byte for byte.

  --workers W    so many frames at a time, 1 to 16, and no more than there are
                 processors; 1 without this option. It changes no byte

Prints: decoded F frames into B bytes
Status: 0, 1, 2, 3, 4, 5, 6 or 7. Behind 6 OUT ends in front of the frame that
is refused.

  dst_cli decode master.dff plain.dff --workers 4
",
};

const CUT: CommandHelp = CommandHelp {
    usage: "cut IN OUT A B",
    places: &["IN", "OUT", "A", "B"],
    options: &[],
    text: "\
dst_cli cut IN OUT A B

Writes frames A to B of a coded file as a coded file. No frame is coded again:
the bytes of each are those of IN. There are 75 frames a second, numbered
from 0.

Prints: cut F frames
Status: 0, 1, 2, 3, 4, 5 or 7

  dst_cli cut master.dff track.dff 4500 8999
",
};

const FRAME: CommandHelp = CommandHelp {
    usage: "frame IN OUT K [--by-index]",
    places: &["IN", "OUT", "K"],
    options: &["--by-index"],
    text: "\
dst_cli frame IN OUT K [--by-index]

Writes the sound of frame K, counted from 0, without any chunk around it: one
byte of eight samples for each channel in turn, the earliest sample first.

  --by-index     find the frame by the file's index, and read a few hundred
                 kilobytes of the file at most

Prints: frame K, B bytes
Status: 0, 1, 2, 3, 4, 5, 6 or 7

  dst_cli frame master.dff sound.raw 1234 --by-index
",
};

const RANGE: CommandHelp = CommandHelp {
    usage: "range IN OUT FROM COUNT ..",
    places: &["IN", "OUT", "FROM", "COUNT"],
    options: &[],
    text: "\
dst_cli range IN OUT FROM COUNT ..

Writes parts of the sound, one behind the other, without any chunk around them:
COUNT groups from group FROM on. A group is eight samples of each channel, a
byte of each; groups are counted from 0, and there are 352,800 a second at 64
times 44.1 kHz. One to sixteen pairs of FROM and COUNT may stand there. The
sounds of the sixteen frames that were wanted last are kept, so that no frame
is decoded again for a part that overlaps them. Where no group is asked for OUT
isn't made.

Prints: range B bytes
Status: 0, 1, 2, 3, 4, 5, 6 or 7. Behind 6 OUT ends in front of the part of the
frame that is refused.

  dst_cli range master.dff parts.raw 3528000 352800 0 4704
",
};

const CHECK: CommandHelp = CommandHelp {
    usage: "check IN [--workers W]",
    places: &["IN"],
    options: &["--workers"],
    text: "\
dst_cli check IN [--workers W]

Decodes all frames, compares the index with the frames, and writes nothing. It
finds what isn't a file of this kind, and frames that mean no sound. A frame
whose damaged bytes still mean a sound isn't found, since the format has no
checksum that is read here; bytes that no frame reads are told, and more than
none are a reason to look.

  --workers W    so many frames at a time, 1 to 16, and no more than there are
                 processors; 1 without this option

Prints: sound, F frames, U unread bytes
Status: 0, 1, 2, 4, 5, 6 or 7

  dst_cli check master.dff --workers 4
",
};

const SHOW: CommandHelp = CommandHelp {
    usage: "show IN [K]",
    places: &["IN"],
    options: &[],
    text: "\
dst_cli show IN
dst_cli show IN K

Tells what the file is: its kind, channels, sound, frames and chunks, a line
each; of a coded file also the bytes of its frames, whether it has an index, and
whether it keeps what its plain file was. With K it tells the header of frame K,
counted from 0.

Status: 0, 1, 2, 4, 5, 6 or 7

  dst_cli show master.dff
  dst_cli show master.dff 1234
",
};

const INDEX: CommandHelp = CommandHelp {
    usage: "index IN",
    places: &["IN"],
    options: &[],
    text: "\
dst_cli index IN

Lists number, place and size of each frame's bytes, a line each, as the chunks
have them.

Status: 0, 1, 2, 4, 5 or 7

  dst_cli index master.dff
",
};

const PIPE: CommandHelp = CommandHelp {
    usage: "pipe OUT",
    places: &["OUT"],
    options: &[],
    text: "\
dst_cli pipe OUT

Decodes a coded file that comes on standard input, frame by frame as each one
comes, and writes a plain file of its sound. What else the coded file has is
left out; behind the last frame nothing is read.

Prints: decoded F frames into B bytes
Status: 0, 1, 2, 3, 4, 5, 6 or 7. Behind 5 and 6 OUT ends behind the last frame
that came or isn't refused.

  curl -s https://example.org/master.dff | dst_cli pipe plain.dff
",
};

const ENCODE_DSF: CommandHelp = CommandHelp {
    usage: "encode-dsf IN OUT [--level L] [--workers W]",
    places: &["IN", "OUT"],
    options: &["--level", "--workers"],
    text: "\
dst_cli encode-dsf IN OUT [--level L] [--workers W]

Writes the coded file of a DSF file: one to six channels, 64, 128 or 256 times
44.1 kHz, 1 or 8 bits in a sample's order. `decode-dsf` of it gives back every
sample. What stands behind the samples, as a tag does, is left out.

  --level L      0 keeps frames as they are, 1 tries one filter a channel,
                 2 tries eight sets of filters and keeps the shortest, 3 refines
                 filters beside them; 1 without this option
  --workers W    so many frames at a time, 1 to 16, and no more than there are
                 processors; 1 without this option. It changes no byte

Prints: coded F frames into B bytes
Status: 0, 1, 2, 3, 4, 5 or 7. Only behind 0 is OUT whole, and on its disk.

  dst_cli encode-dsf music.dsf music.dff --level 2 --workers 4
",
};

const DECODE_DSF: CommandHelp = CommandHelp {
    usage: "decode-dsf IN OUT [--workers W]",
    places: &["IN", "OUT"],
    options: &["--workers"],
    text: "\
dst_cli decode-dsf IN OUT [--workers W]

Writes the DSF file of a coded one, also of one that never was a DSF file: it
has the sound alone, without tags.

  --workers W    so many frames at a time, 1 to 16, and no more than there are
                 processors; 1 without this option. It changes no byte

Prints: decoded F frames into B bytes
Status: 0, 1, 2, 3, 4, 5, 6 or 7. Behind 6 OUT ends behind the last row of
blocks that the frames before the refused one fill.

  dst_cli decode-dsf music.dff music.dsf --workers 4
",
};

const MAKE: CommandHelp = CommandHelp {
    usage: "make START OUT|--run FRAMES CHANNELS [--rate Q]",
    places: &["START", "OUT or --run", "FRAMES", "CHANNELS"],
    options: &["--rate", "--run"],
    text: "\
dst_cli make START OUT FRAMES CHANNELS [--rate Q]
dst_cli make START --run FRAMES CHANNELS [--rate Q]

The first writes a plain file of made sound: tones and noise that follow from
the number START, the same on every machine. The second makes such sound in
memory, codes it at level 2, decodes it, and writes no file.

  FRAMES         at most 1000, with --run at most 100
  CHANNELS       1 to 6
  --rate Q       64, 128 or 256 times 44.1 kHz; 64 without this option

Prints: made F frames
   or: made F frames, sound S bytes, coded B bytes, restored R bytes
Status: 0, 1, 3, 4 or 7

  dst_cli make 7 made.dff 750 2
  dst_cli make 7 --run 3 6
",
};
