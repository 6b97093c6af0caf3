// What commands have of a file that keeps their rules.
ghost use Rattle.std.proofs.Props.{props};
ghost use Rattle.dsdiff_chunks.specs.Forms.{coded_seen};
ghost use Rattle.frame_index.specs.Entries.{entry_seen};
ghost use Rattle.frame_index.specs.Fitting.{IsIndexOf, IsInside};

use dsdiff_chunks::{CodedForm, PlainForm};
use frame_index::{Entry, Index};

/// A coded form, and where its frames stand.
#[derive(Drop)]
pub struct WalkedForm {
    pub form: CodedForm,
    pub index: Index,
    ghost fits: { IsIndexOf (coded_seen form) index } by { Prim.hlevel props },
}

/// A coded form, and where one of its frames stands.
#[derive(Drop)]
pub struct FoundFrame {
    pub form: CodedForm,
    pub entry: Entry,
    ghost inside: { IsInside (coded_seen form) (entry_seen entry) } by { Prim.hlevel props },
}

/// A plain form, or a coded one with the places of its frames.
#[derive(Drop)]
pub enum AnyForm {
    Plain(PlainForm),
    Coded(WalkedForm),
}
