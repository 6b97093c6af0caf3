// Opening a form: the rules in order, head by head.
ghost use Rattle.std.specs.Prelude.{◌≡◌, ◌+◌, ◌≤◌, ℕ, List, Some, IfOk, Err, Ok};
ghost use Rattle.dst_streams.specs.Causes.{Rose};
ghost use Rattle.dsdiff_spec.specs.Rules.{form};
ghost use Rattle.dsdiff_chunks.specs.Forms.{end_of, form_seen};

use crate::build::{form_of, read_parts};
use crate::form::Form;
use dsdiff_spec::FileFault;
use dst_streams::Source;
use std::alloc::{AllocError, Global};
use thiserror::Error;

/// Why a file wasn't opened: the source failed, memory was refused, with the allocator's refusal, or the file breaks a rule. It shows
/// as reports have it.
#[derive(Clone, Copy, Debug, Drop, PartialEq, Eq, Error)]
pub enum OpenFault {
    #[error("read fault")]
    Read,
    #[error("memory")]
    Memory(AllocError),
    #[error("file refused: {0}")]
    File(FileFault),
}

/// Opens the form of a file: its chunks, the body of `PROP`, its sound chunk, and what `KEPT` says (DSDIFF 1.5).
///
/// The first rule that the file breaks gives the fault. Frames aren't looked at.
pub fn open_form<S: Source>(alloc: Global, source: &mut S) -> Result<Form, OpenFault>
    ensures bytes { S.bytes source.new ≡ S.bytes source.old }
    ensures loan { S.loan source.new ≡ S.loan source.old }
    ensures size_stays { (n : ℕ) → S.known source.old ≡ Some n → S.known source.new ≡ Some n }
    ensures size_known { IfOk result (λ f. (n : ℕ) × (S.known source.new ≡ Some n) × (end_of f ≤ n)) }
    ensures form { IfOk result (λ f. (xs : List ℕ) → S.bytes source.old ≡ Some xs → form xs ≡ Ok (form_seen f)) }
    ensures fault { (fault : FileFault) → result ≡ Err (OpenFault.File fault) → (xs : List ℕ) → S.bytes source.old ≡ Some xs → form xs ≡ Err fault }
    ensures read { result ≡ Err OpenFault.Read → Rose (S.faults source.old) (S.faults source.new) }
    ensures later { S.faults source.old ≤ S.faults source.new }
    ensures given { S.given source.new ≤ S.given source.old + 208948 }
{
    let parts = match read_parts(alloc, source) {
        Ok(parts) => parts,
        Err(fault) => return Err(fault),
    };
    form_of(alloc, source, parts)
}
