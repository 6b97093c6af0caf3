// Streams by their bytes, in pieces of any size.
use dst_streams::{MemoryFlow, MemorySink};
use pipe_tool::dst_pipe;
use std::alloc::{AllocError, Global};

// One frame FC 00 00 05 FF F8 of one channel, in 158 bytes: 4,704 bytes of sound behind 126 bytes.
const FILE: &[u8; 158] = b"FRM8\0\0\0\0\0\0\0\x92DSD \
FVER\0\0\0\0\0\0\0\x04\x01\x05\0\0\
PROP\0\0\0\0\0\0\0\x42SND FS  \0\0\0\0\0\0\0\x04\0\x2b\x11\0\
CHNL\0\0\0\0\0\0\0\x06\0\x01C000\
CMPR\0\0\0\0\0\0\0\x10DST \x0bDST Encoded\
DST \0\0\0\0\0\0\0\x24FRTE\0\0\0\0\0\0\0\x06\0\0\0\x01\0\x4b\
DSTF\0\0\0\0\0\0\0\x06\xfc\0\0\x05\xff\xf8";

// A plain file without sound.
const PLAIN: &[u8; 126] = b"FRM8\0\0\0\0\0\0\0\x72DSD \
FVER\0\0\0\0\0\0\0\x04\x01\x05\0\0\
PROP\0\0\0\0\0\0\0\x46SND FS  \0\0\0\0\0\0\0\x04\0\x2b\x11\0\
CHNL\0\0\0\0\0\0\0\x06\0\x01C000\
CMPR\0\0\0\0\0\0\0\x13DSD \x0enot compressed\0\
DSD \0\0\0\0\0\0\0\0";

// A second frame, the same one again.
const SECOND: &[u8; 18] = b"DSTF\0\0\0\0\0\0\0\x06\xfc\0\0\x05\xff\xf8";

fn split(alloc: Global, text: &str) -> Result<Vec<String>, AllocError> {
    let mut words = Vec::new(alloc);
    for word in text.split(' ') {
        words.push(String::from_str(alloc, word)?)?;
    }
    Ok(words)
}

// The file of the frame twice.
fn two_frames(alloc: Global) -> Result<Vec<u8>, AllocError> {
    let mut first = *FILE;
    first[11] = 0xa4;
    first[121] = 0x36;
    first[137] = 2;
    let mut two = Vec::new(alloc);
    for byte in &first {
        two.push(*byte)?;
    }
    for byte in SECOND {
        two.push(*byte)?;
    }
    Ok(two)
}

// The streams that are decoded.
#[derive(Clone, Copy)]
enum Stream {
    // So many bytes of the file.
    Front(usize),
    // The file whose last byte makes its frame a wrong one.
    Wrong,
    // The file of the frame twice.
    Two,
    // A plain file.
    Plain,
}

fn made(alloc: Global, stream: Stream) -> Result<Vec<u8>, AllocError> {
    match stream {
        Stream::Front(length) => FILE[..length.min(158)].to_vec(alloc),
        Stream::Wrong => {
            let mut wrong = *FILE;
            wrong[157] = 0xfc;
            wrong.to_vec(alloc)
        }
        Stream::Two => two_frames(alloc),
        Stream::Plain => PLAIN.to_vec(alloc),
    }
}

// The status, how many bytes are written, and whether the report is this line.
type Seen = (u8, usize, bool);

fn piped(
    alloc: Global,
    text: &str,
    stream: &[u8],
    pieces: &[usize],
    line: &str,
) -> Result<Seen, AllocError> {
    let words = split(alloc, text)?;
    let mut flow = MemoryFlow::new(stream, pieces, &[]);
    let mut sink = MemorySink::new(alloc, 10_000, &[])?;
    let mut report = MemorySink::new(alloc, 200, &[])?;
    let status = dst_pipe(alloc, &words, &mut flow, &mut sink, &mut report);
    let is_reported = report.written() == line.as_bytes();
    Ok((status, sink.written().len(), is_reported))
}

// The same in pieces of several sizes.
type AllSeen = [Result<Seen, AllocError>; 4];

fn all_piped(alloc: Global, text: &str, stream: Stream, line: &str) -> Result<AllSeen, AllocError> {
    let stream = made(alloc, stream)?;
    Ok([
        piped(alloc, text, &stream, &[], line),
        piped(alloc, text, &stream, &[1], line),
        piped(alloc, text, &stream, &[7], line),
        piped(alloc, text, &stream, &[5, 64, 1], line),
    ])
}

const OUT: &str = "pipe out.dff";

const CUT: &str = "file refused: 3 Overrun 140\n";

const AT_FAULT: &str = "frame 0 refused: 9 FirstCodeBit at bit 45\n";

const WORDS: &str = "words not understood\n";

// Words, a stream, the status, how many bytes are written, and the line.
const ROWS: [(&str, Stream, u8, usize, &str); 8] = [
    (
        OUT,
        Stream::Front(158),
        0,
        4_830,
        "decoded 1 frames into 4704 bytes\n",
    ),
    (
        OUT,
        Stream::Two,
        0,
        9_534,
        "decoded 2 frames into 9408 bytes\n",
    ),
    (OUT, Stream::Front(157), 5, 126, CUT),
    (OUT, Stream::Front(15), 5, 0, "file refused: 1 NotForm\n"),
    (OUT, Stream::Wrong, 6, 126, AT_FAULT),
    (OUT, Stream::Plain, 5, 0, "file refused: 27 NotCoded\n"),
    ("pipe", Stream::Front(158), 1, 0, WORDS),
    ("pipe in.dff out.dff", Stream::Front(158), 1, 0, WORDS),
];

#[test]
fn a_stream_is_decoded_in_pieces_of_any_size(rt: HostRuntime) {
    for &(text, stream, status, length, line) in &ROWS {
        let seen = all_piped(rt.alloc(), text, stream, line);
        let wanted = [Ok((status, length, true)); 4];
        assert_eq!(rt; seen, Ok(wanted), "{text}: {line}");
    }
}
