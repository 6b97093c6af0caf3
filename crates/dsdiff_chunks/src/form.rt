// What an accepted file is: a form whose sound is plain, or one whose sound is coded.
ghost use Rattle.std.specs.Prelude.{◌≡◌};
ghost use Rattle.std.proofs.Props.{props};
ghost use Rattle.dsdiff_spec.specs.Form.{shape};
ghost use Rattle.dsdiff_chunks.specs.Lawful.{IsLawful, IsLawful-prop};
ghost use Rattle.dsdiff_chunks.specs.Seen.{form_of_coded, form_of_plain};

use crate::lists::{ChunkHead, Heads, Octets};
use crate::origin::Origin;
use dst_num::Channels;

/// A form whose sound stands as it is, in a chunk `DSD `.
#[derive(Drop)]
pub struct PlainForm {
    pub channels: Channels,
    /// The place behind the form.
    pub end: u64,
    /// The chunks of the form, in order.
    pub heads: Heads,
    /// The body of `PROP`.
    pub prop: Octets,
    /// The chunk `DSD `.
    pub sound: ChunkHead,
    /// How many frames the sound needs.
    pub frames: u32,
    /// The byte behind a sound of odd size, 0 where its size is even.
    pub pad: u8,
    /// The bytes behind the form.
    pub behind: Octets,
    ghost lawful: { IsLawful (form_of_plain channels end heads prop sound frames pad behind) } by { IsLawful-prop (form_of_plain channels end heads prop sound frames pad behind) },
    ghost shape: { shape (form_of_plain channels end heads prop sound frames pad behind) ≡ channels } by { Prim.hlevel props },
}

/// A form whose sound is coded, frame by frame, in a chunk `DST `.
#[derive(Drop)]
pub struct CodedForm {
    pub channels: Channels,
    /// The place behind the form.
    pub end: u64,
    /// The chunks of the form, in order.
    pub heads: Heads,
    /// The body of `PROP`.
    pub prop: Octets,
    /// The chunk `DST `.
    pub sound: ChunkHead,
    /// The frame count in `FRTE`.
    pub frames: u32,
    /// What `KEPT` says of the plain file, where the form has one.
    pub origin: Option<Origin>,
    ghost lawful: { IsLawful (form_of_coded channels end heads prop sound frames origin) } by { IsLawful-prop (form_of_coded channels end heads prop sound frames origin) },
    ghost shape: { shape (form_of_coded channels end heads prop sound frames origin) ≡ channels } by { Prim.hlevel props },
}

/// The form of a file.
#[derive(Drop)]
pub enum Form {
    Plain(PlainForm),
    Coded(CodedForm),
}
