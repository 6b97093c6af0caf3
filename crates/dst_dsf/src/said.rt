// What a coded form says of a DSF file: in its chunk `DSFK`, or else by its sound and channels.
ghost use Rattle.std.specs.Prelude.{◌≡◌, ◌+◌, ◌*◌, ◌/◌, ◌≤◌, ◌<◌, ℕ, List, true, false, Some, None, IfOk, IfErr, IfSome, IfNone, [], ◌∷◌, map};
ghost use Rattle.dsdiff_spec.specs.Chunks.{named};
ghost use Rattle.dsdiff_chunks.specs.Found.{FoundAre};
ghost use Rattle.dsdiff_spec.specs.Dsf.{dsf_in, dsf_said, dsfk_fault, dsfk_heads, usual_type, octets};
ghost use Rattle.dsdiff_spec.specs.Form.{size_of_sound};
ghost use Rattle.dsdiff_chunks.specs.Forms.{coded_seen};
ghost use Rattle.dsdiff_chunks.specs.Seen.{head_seen};
ghost use Rattle.dsdiff_chunks.specs.Opening.{Reads, HasOpenCause};
ghost use Rattle.dsf_files.specs.Forms.{dsf_seen};
ghost use Rattle.dst_dsf.specs.Said.{IsSaid, said_in, is_bad_body};

use byteorder::{BigEndian, ByteOrder};
use dsdiff_chunks::{ChunkHead, CodedForm, FileFault, Finding, OpenFault, find_either, read_range};
use dsf_files::DsfForm;
use dst_commands::sound_size;
use dst_streams::Source;

/// The channel types of one channel to six.
const USUAL_TYPES: [u32; 6] = [1, 2, 3, 4, 6, 7];

/// What a coded form says of a DSF file, or the fault of its `DSFK`.
pub(crate) fn read_said<S: Source>(source: &mut S, form: &CodedForm) -> Result<DsfForm, OpenFault>
    requires size { (n : ℕ) × (S.known source.old ≡ Some n) × (form.now.end ≤ n) }
    ensures source { Reads S.bytes S.known S.loan S.faults S.given source.old source.new 14 }
    ensures passes { IfOk result (λ _. (file : List ℕ) → S.bytes source.old ≡ Some file → dsfk_fault file (coded_seen form.now) ≡ None) }
    ensures said { IfOk result (λ d. (file : List ℕ) → S.bytes source.old ≡ Some file → dsf_in file (coded_seen form.now) ≡ dsf_seen d) }
    ensures lawful { IfOk result (IsSaid form.now) }
    ensures stops { IfErr result (HasOpenCause (λ file. dsfk_fault file (coded_seen form.now)) (S.bytes source.old) (S.faults source.old) (S.faults source.new)) }
{
    let head = match find_dsfk(form.heads.as_slice()) {
        Finding::Nothing => return Ok(usual_form(form)),
        Finding::Several(_) => return Err(OpenFault::File(FileFault::DsfKeptBad)),
        Finding::One(head) => head,
    };
    read_dsfk(source, form, head)
}

// The chunks `DSFK` of some chunks.
fn find_dsfk(heads: &[ChunkHead]) -> Finding
    ensures { FoundAre result (named "DSFK" (map head_seen heads.now)) }
{
    find_either(heads, *b"DSFK", *b"DSFK")
}

// What the one chunk `DSFK` of a form says.
fn read_dsfk<S: Source>(
    source: &mut S,
    form: &CodedForm,
    head: ChunkHead,
) -> Result<DsfForm, OpenFault>
    requires size { (n : ℕ) × (S.known source.old ≡ Some n) × (form.now.end ≤ n) }
    requires one { dsfk_heads (coded_seen form.now) ≡ head_seen head ∷ [] }
    ensures source { Reads S.bytes S.known S.loan S.faults S.given source.old source.new 14 }
    ensures passes { IfOk result (λ _. (file : List ℕ) → S.bytes source.old ≡ Some file → dsfk_fault file (coded_seen form.now) ≡ None) }
    ensures said { IfOk result (λ d. (file : List ℕ) → S.bytes source.old ≡ Some file → dsf_in file (coded_seen form.now) ≡ dsf_seen d) }
    ensures lawful { IfOk result (IsSaid form.now) }
    ensures stops { IfErr result (HasOpenCause (λ file. dsfk_fault file (coded_seen form.now)) (S.bytes source.old) (S.faults source.old) (S.faults source.new)) }
{
    if head.size != 14 {
        return Err(OpenFault::File(FileFault::DsfKeptBad));
    }
    let mut body = [0; 14];
    let Ok(()) = read_range(source, head.place + 12, &mut body) else {
        return Err(OpenFault::Read);
    };
    match said_in(form, &body) {
        Some(said) => Ok(said),
        None => Err(OpenFault::File(FileFault::DsfKeptBad)),
    }
}

// What the body of `DSFK` says, or None where no encoder writes it for this form.
fn said_in(form: &CodedForm, body: &[u8; 14]) -> Option<DsfForm>
    ensures said { IfSome result (λ d. said_in (coded_seen form.now) body.now ≡ dsf_seen d) }
    ensures good { IfSome result (λ _. is_bad_body (coded_seen form.now) body.now ≡ false) }
    ensures lawful { IfSome result (IsSaid form.now) }
    ensures bad { IfNone result (is_bad_body (coded_seen form.now) body.now ≡ true) }
{
    let said = DsfForm {
        channels: form.channels,
        samples: BigEndian::read_u64(&body[1..]),
        kind: BigEndian::read_u32(&body[9..]),
        bits: body[13],
    };
    if body[0] != 1 || !(said.bits == 1 || said.bits == 8) || size_said(&said) != sound_size(form) {
        return None;
    }
    Some(said)
}

// Bytes of the sound of a DSF file.
fn size_said(said: &DsfForm) -> u64
    ensures { result ≡ octets (dsf_seen said.now) * said.now.channels.channels }
{
    said.samples.div_ceil(8) * said.channels.count() as u64
}

// What is said where there is no `DSFK`.
fn usual_form(form: &CodedForm) -> DsfForm
    ensures said { dsf_seen result ≡ dsf_said (coded_seen form.now) (8 * (size_of_sound (coded_seen form.now) / (coded_seen form.now).channels)) (usual_type (coded_seen form.now).channels) 1 }
    ensures lawful { IsSaid form.now result }
{
    let count = form.channels.count();
    DsfForm {
        channels: form.channels,
        samples: 8 * (sound_size(form) / count as u64),
        kind: USUAL_TYPES[count - 1],
        bits: 1,
    }
}
