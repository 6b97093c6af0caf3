// From the parts of a form to the form.
ghost use Rattle.std.specs.Prelude.{◌≡◌, ℕ, ◌+◌, ◌≤◌, List, Some, Ok, IfOk, IfErr};
ghost use Rattle.dsdiff_spec.specs.Rules.{form, form_fault};
ghost use Rattle.dsdiff_chunks.specs.Opening.{Reads, HasOpenCause};
ghost use Rattle.dsdiff_chunks.specs.Prepared.{AreParts};
ghost use Rattle.dsdiff_chunks.specs.Forms.{coded_seen, end_of, form_seen, plain_seen};

use crate::coded::{read_any_origin, read_frte};
use crate::common::{Kind, Prop, Sound, check_version, find_prop, find_sound, read_body_of_prop};
use crate::form::{CodedForm, Form, PlainForm};
use crate::lists::{ChunkHead, Heads, Octets};
use crate::open::OpenFault;
use crate::plain::{PlainParts, read_plain};
use crate::top::{Chunks, read_chunks};
use dst_streams::Source;
use std::alloc::Global;

/// The parts of a form of either kind.
#[derive(Drop)]
pub struct Parts {
    pub chunks: Chunks,
    pub prop_head: ChunkHead,
    pub prop: Prop,
    pub sound: Sound,
}

/// Reads the parts of a form, by the rules on all forms.
pub fn read_parts<S: Source>(alloc: Global, source: &mut S) -> Result<Parts, OpenFault>
    ensures bytes { S.bytes source.new ≡ S.bytes source.old }
    ensures loan { S.loan source.new ≡ S.loan source.old }
    ensures size_stays { (n : ℕ) → S.known source.old ≡ Some n → S.known source.new ≡ Some n }
    ensures later { S.faults source.old ≤ S.faults source.new }
    ensures given { S.given source.new ≤ S.given source.old + 77841 }
    ensures parts { IfOk result (λ p. AreParts (S.bytes source.new) (S.known source.new) p) }
    ensures stops { IfErr result (HasOpenCause form_fault (S.bytes source.old) (S.faults source.old) (S.faults source.new)) }
{
    let chunks = match read_chunks(alloc, source) {
        Ok(chunks) => chunks,
        Err(fault) => return Err(fault),
    };
    let heads = chunks.heads.as_slice();
    match check_version(source, heads, chunks.end) {
        Ok(()) => {}
        Err(fault) => return Err(fault),
    }
    let prop_head = match find_prop(heads, chunks.end) {
        Ok(head) => head,
        Err(fault) => return Err(OpenFault::File(fault)),
    };
    let prop = match read_body_of_prop(alloc, source, prop_head) {
        Ok(prop) => prop,
        Err(fault) => return Err(fault),
    };
    let sound = match find_sound(heads, prop_head.place, prop.fields.compression) {
        Ok(sound) => sound,
        Err(fault) => return Err(OpenFault::File(fault)),
    };
    Ok(Parts {
        chunks,
        prop_head,
        prop,
        sound,
    })
}

/// A plain form, of its parts.
pub fn plain_form<S: Source>(
    alloc: Global,
    source: &mut S,
    parts: Parts,
) -> Result<PlainForm, OpenFault>
    requires parts { AreParts (S.bytes source.old) (S.known source.old) parts }
    requires kind { parts.sound.kind ≡ Kind.Plain }
    ensures source { Reads S.bytes S.known S.loan S.faults S.given source.old source.new 131104 }
    ensures end { IfOk result (λ f. f.end ≡ parts.chunks.end) }
    ensures form { IfOk result (λ f. (xs : List ℕ) → S.bytes source.old ≡ Some xs → form xs ≡ Ok (plain_seen f)) }
    ensures stops { IfErr result (HasOpenCause form_fault (S.bytes source.old) (S.faults source.old) (S.faults source.new)) }
{
    let Parts {
        chunks,
        prop_head,
        prop,
        sound,
    } = parts;
    let channels = prop.fields.channels;
    let PlainParts {
        frames,
        pad,
        behind,
    } = match read_plain(alloc, source, &chunks, prop_head.size, sound.head, channels) {
        Ok(plain) => plain,
        Err(fault) => return Err(fault),
    };
    let Chunks { end, heads, .. } = chunks;
    let Prop { body, .. } = prop;
    Ok(PlainForm {
        channels,
        end,
        heads: Heads::from_vec(heads),
        prop: Octets::from_vec(body),
        sound: sound.head,
        frames,
        pad,
        behind: Octets::from_vec(behind),
    })
}

/// A coded form, of its parts.
pub fn coded_form<S: Source>(
    alloc: Global,
    source: &mut S,
    parts: Parts,
) -> Result<CodedForm, OpenFault>
    requires parts { AreParts (S.bytes source.old) (S.known source.old) parts }
    requires kind { parts.sound.kind ≡ Kind.Coded }
    ensures source { Reads S.bytes S.known S.loan S.faults S.given source.old source.new 131104 }
    ensures end { IfOk result (λ f. f.end ≡ parts.chunks.end) }
    ensures form { IfOk result (λ f. (xs : List ℕ) → S.bytes source.old ≡ Some xs → form xs ≡ Ok (coded_seen f)) }
    ensures stops { IfErr result (HasOpenCause form_fault (S.bytes source.old) (S.faults source.old) (S.faults source.new)) }
{
    let Parts {
        chunks,
        prop_head: _,
        prop,
        sound,
    } = parts;
    let channels = prop.fields.channels;
    let frames = match read_frte(source, sound.head) {
        Ok(frames) => frames,
        Err(fault) => return Err(fault),
    };
    let origin = match read_any_origin(
        alloc,
        source,
        chunks.heads.as_slice(),
        chunks.end,
        channels,
        frames,
    ) {
        Ok(origin) => origin,
        Err(fault) => return Err(fault),
    };
    let Chunks { end, heads, .. } = chunks;
    let Prop { body, .. } = prop;
    Ok(CodedForm {
        channels,
        end,
        heads: Heads::from_vec(heads),
        prop: Octets::from_vec(body),
        sound: sound.head,
        frames,
        origin,
    })
}

/// The form, of its parts.
pub fn form_of<S: Source>(alloc: Global, source: &mut S, parts: Parts) -> Result<Form, OpenFault>
    requires { AreParts (S.bytes source.old) (S.known source.old) parts }
    ensures source { Reads S.bytes S.known S.loan S.faults S.given source.old source.new 131104 }
    ensures end { IfOk result (λ f. end_of f ≡ parts.chunks.end) }
    ensures form { IfOk result (λ f. (xs : List ℕ) → S.bytes source.old ≡ Some xs → form xs ≡ Ok (form_seen f)) }
    ensures stops { IfErr result (HasOpenCause form_fault (S.bytes source.old) (S.faults source.old) (S.faults source.new)) }
{
    match parts.sound.kind {
        Kind::Plain => match plain_form(alloc, source, parts) {
            Ok(form) => Ok(Form::Plain(form)),
            Err(fault) => Err(fault),
        },
        Kind::Coded => match coded_form(alloc, source, parts) {
            Ok(form) => Ok(Form::Coded(form)),
            Err(fault) => Err(fault),
        },
    }
}
