// A coded form of which frames are cut out: where these stand, what is left of the sound, and the sizes of what is written.
ghost use Rattle.std.specs.Prelude.{◌≡◌, ◌+◌, ◌≤◌, ◌<◌, ◌^◌, ℕ, List, length};
ghost use Rattle.std.proofs.Props.{props};
ghost use Rattle.dsdiff_spec.specs.Cut.{cut_chunks};
ghost use Rattle.dsdiff_spec.specs.Refusal.{cut_fault};
ghost use Rattle.dsdiff_spec.specs.Walk.{entries};
ghost use Rattle.dsdiff_chunks.specs.Forms.{coded_seen};
ghost use Rattle.dsdiff_chunks.specs.Seen.{origin_seen};
ghost use Rattle.frame_index.specs.Fitting.{IsIndexOf};
ghost use Rattle.dst_cut.specs.CutLayout as layout;

use dsdiff_chunks::{CodedForm, FileFault, Origin};
use dst_commands::{FormRef, Passed, Side, chunks_count, chunks_length};
use frame_index::Index;

/// Most chunks of a form.
const MOST_CHUNKS: u32 = 1024;

/// The largest size of a form.
const LARGEST_FORM: u64 = 1 << 50;

/// A coded form, where its frames stand, and the first and the last of those that are cut out.
#[derive(Drop)]
pub(crate) struct CutForm {
    pub(crate) form: CodedForm,
    pub(crate) index: Index,
    pub(crate) first: u32,
    pub(crate) last: u32,
    ghost fits: { IsIndexOf (coded_seen form) index } by { Prim.hlevel props },
    ghost order: { first ≤ last },
    ghost there: { last < form.frames },
}

impl CutForm {
    /// How many frames are cut out.
    pub(crate) fn count(&self) -> u32
        ensures count { result ≡ layout.count self.now.first self.now.last }
        ensures most { result ≤ 1000000 }
    {
        self.last - self.first + 1
    }

    /// The place of the first frame's chunk.
    pub(crate) fn begins(&self) -> u64
        ensures { result ≡ layout.begins self.now.index self.now.first }
    {
        self.index.entry(self.first).offset - 12
    }

    /// The place behind the bytes that are cut out: that of the chunk of the frame behind the last, or of the end of `DST `.
    pub(crate) fn ends(&self) -> u64
        ensures { result ≡ layout.ends self.now.index (coded_seen self.now.form) self.now.last }
    {
        if self.is_to_the_end() {
            self.form.sound.place + 12 + self.form.sound.size
        } else {
            self.index.entry(self.last + 1).offset - 12
        }
    }

    // Whether the form's last frame is cut out.
    fn is_to_the_end(&self) -> bool
        ensures { result ≡ layout.is_last (coded_seen self.now.form) self.now.last }
    {
        self.form.frames == self.last + 1
    }

    /// Bytes of the body of `DST `.
    pub(crate) fn sound_size(&self) -> u64
        ensures size { result ≡ layout.sound_size self.now.index (coded_seen self.now.form) self.now.first self.now.last }
        ensures most { result ≤ 2 ^ 51 }
    {
        18 + (self.ends() - self.begins())
    }

    /// Bytes of the plain sound that is left of the plain file's.
    pub(crate) fn size_left(&self, origin: &Origin) -> u64
        requires { self.now.form.origin ≡ Some origin.now }
        ensures { result ≡ layout.size_left (coded_seen self.now.form) self.now.first self.now.last (origin_seen origin.now) }
    {
        let whole = self.form.channels.sound_bytes() as u64;
        if self.is_to_the_end() {
            origin.sound - whole * u64::from(self.first)
        } else {
            whole * u64::from(self.count())
        }
    }

    /// The pad byte behind the sound that is left: the plain file's where that sound ends as its sound did.
    pub(crate) fn pad_left(&self, origin: &Origin) -> u8
        ensures { result ≡ layout.pad_left (coded_seen self.now.form) self.now.last (origin_seen origin.now) }
    {
        if self.is_to_the_end() { origin.pad } else { 0 }
    }

    /// Bytes of the chunks that are passed on, on one side of the sound.
    pub(crate) fn side_length(&self, side: Side) -> u64
        ensures length { (file : List ℕ) → self.now.form.end ≤ length file → result ≡ length (layout.side_of side file (coded_seen self.now.form)) }
        ensures most { result ≤ 2 ^ 61 }
    {
        let passed = Passed {
            form: FormRef::Coded(&self.form),
            cmpr: None,
        };
        chunks_length(&passed, side)
    }

    /// The size of the form that is written.
    pub(crate) fn form_size(&self) -> u64
        ensures { (file : List ℕ) → self.now.form.end ≤ length file → result ≡ layout.form_size self.now.index file (coded_seen self.now.form) self.now.first self.now.last }
    {
        let sound = self.sound_size();
        let before = self.side_length(Side::Before);
        let behind = self.side_length(Side::Behind);
        let index = 12 + 12 * u64::from(self.count());
        4 + before + (12 + sound + sound % 2) + index + self.origin_size() + behind
    }

    // Bytes of `KEPT`, where there is one.
    fn origin_size(&self) -> u64
        ensures size { result ≡ length (layout.origin_left (coded_seen self.now.form) self.now.first self.now.last) }
        ensures most { result ≤ 2 ^ 18 }
    {
        match &self.form.origin {
            Some(origin) => {
                let body = (14 + origin.cmpr.as_slice().len()) as u64;
                12 + body + body % 2
            }
            None => 0,
        }
    }

    // How many chunks are written.
    fn chunks(&self) -> u32
        ensures { (file : List ℕ) → result ≡ length (cut_chunks file (coded_seen self.now.form) self.now.first self.now.last) }
    {
        let passed = Passed {
            form: FormRef::Coded(&self.form),
            cmpr: None,
        };
        let before = chunks_count(&passed, Side::Before);
        let behind = chunks_count(&passed, Side::Behind);
        before + 2 + self.origin_count() + behind
    }

    // How many chunks `KEPT` there are.
    fn origin_count(&self) -> u32
        ensures count { result ≡ layout.origin_count (coded_seen self.now.form).origin }
        ensures most { result ≤ 1 }
    {
        match &self.form.origin {
            Some(_) => 1,
            None => 0,
        }
    }

    /// The fault of a form that would have too many chunks, or be too large.
    pub(crate) fn fault(&self) -> Option<FileFault>
        ensures { (file : List ℕ) → self.now.form.end ≤ length file → entries file (coded_seen self.now.form) ≡ self.now.index →
            result ≡ cut_fault (cut_chunks file (coded_seen self.now.form) self.now.first self.now.last) }
    {
        if self.chunks() > MOST_CHUNKS {
            Some(FileFault::TooManyChunks)
        } else if self.form_size() > LARGEST_FORM {
            Some(FileFault::FormTooLarge)
        } else {
            None
        }
    }
}
