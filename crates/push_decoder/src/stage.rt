// What a fed decoder is reading.
use dsdiff_chunks::{ChunkHead, PropFields};
use dsdiff_spec::FileFault;
use dst_num::Channels;

/// What a form has so far, up to the chunk that is being read.
#[derive(Clone, Copy, Debug)]
pub struct FormSoFar {
    /// The place behind the form.
    pub end: u64,
    /// How many chunks came; the first is `FVER`.
    pub chunks: u32,
    /// What `PROP` says, where it came.
    pub properties: Option<PropFields>,
}

/// What `DST ` has so far.
#[derive(Clone, Copy, Debug)]
pub struct SoundSoFar {
    pub channels: Channels,
    /// The frame count in `FRTE`.
    pub frame_count: u32,
    /// The place behind the body of `DST `.
    pub end: u64,
    /// How many chunks came behind `FRTE`, and how many of them are frames.
    pub chunks: u32,
    pub found: u32,
}

/// What is being read, and what is known when it is whole.
#[derive(Clone, Copy, Debug)]
pub enum Stage {
    /// The head of the form, and its type.
    Start,
    /// In the form: a chunk's head; its body, where it is looked at; what is passed over of the chunk at a place, up to its end.
    FormHead {
        form: FormSoFar,
        place: u64,
    },
    FormBody {
        form: FormSoFar,
        head: ChunkHead,
    },
    FormRest {
        form: FormSoFar,
        place: u64,
        end: u64,
    },
    /// `FRTE`, with which the body of this `DST ` begins.
    FrameCount {
        form: FormSoFar,
        head: ChunkHead,
    },
    /// Nothing: `FRTE` is whole and wasn't answered yet. The next chunk stands at a place.
    Opened {
        sound: SoundSoFar,
        place: u64,
    },
    /// Behind it: a chunk's head, a frame's body, what is passed over.
    SoundHead {
        sound: SoundSoFar,
        place: u64,
    },
    FrameBody {
        sound: SoundSoFar,
        head: ChunkHead,
    },
    SoundRest {
        sound: SoundSoFar,
        place: u64,
        end: u64,
    },
    /// Nothing: a frame is whole and wasn't answered yet.
    FrameWhole {
        sound: SoundSoFar,
        head: ChunkHead,
    },
    /// Nothing more: the last frame came, or a rule was broken.
    Ended,
    Refused(FileFault),
}
