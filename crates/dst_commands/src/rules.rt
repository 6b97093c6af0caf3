// The rules of each command that reads a file.
ghost use Rattle.std.specs.Prelude.{◌≡◌, ◌≤◌, ℕ, true, false, List, Some, None, IfOk, IfErr, OnOk, Ok, Err};
ghost use Rattle.dst_streams.specs.Causes.{Rose};
ghost use Rattle.dsdiff_spec.specs.Form.{plain};
ghost use Rattle.dsdiff_spec.specs.Walk.{check_index_fault, entries, walk_fault};
ghost use Rattle.dsdiff_spec.specs.Walk as walks;
ghost use Rattle.dsdiff_spec.specs.Refusal.{no_frame};
ghost use Rattle.dsdiff_spec.specs.Rules.{accepted};
ghost use Rattle.dsdiff_spec.specs.Words as words;
ghost use Rattle.dsdiff_spec.specs.declared.faults.FileFault.{FileFault};
ghost use Rattle.dsdiff_chunks.specs.Forms.{coded_seen, form_seen, plain_seen};
ghost use Rattle.dsdiff_chunks.specs.Opening.{Reads, HasOpenCause};
ghost use Rattle.dst_commands.specs.Opened.{IsWalked, IsFound, IsAny, end_of_any};

use crate::opened::{AnyForm, FoundFrame, WalkedForm};
use crate::opening::Rules;
use dsdiff_chunks::{CodedForm, FileFault, Form, OpenFault, PlainForm};
use dst_streams::Source;
use frame_index::laws::index_beside_walk;
use frame_index::{compare, locate_by_index, read_index, walk};
use std::alloc::Global;

/// `decode` and `index`: the form is coded, and the walk finds its frames.
#[derive(Clone, Copy, Drop)]
pub struct AllFrames;

/// `frame` and `show` of a frame: as [`AllFrames`], and there is a frame of this number.
#[derive(Clone, Copy, Drop)]
pub struct FrameByWalk {
    pub number: u32,
}

/// `frame` by the index: the form is coded, there is a frame of this number, and the index in the file names it. No walk is
/// made, so that the bytes that are read don't grow with the number of frames.
#[derive(Clone, Copy, Drop)]
pub struct FrameByIndex {
    pub number: u32,
}

/// `show`: the walk finds the frames of a coded form.
#[derive(Clone, Copy, Drop)]
pub struct ShownFile;

/// `check`: as [`ShownFile`], and the index, where there is one, is that of the frames.
#[derive(Clone, Copy, Drop)]
pub struct CheckedFile;

/// `encode`: the form is plain. No byte is read for it.
#[derive(Clone, Copy, Drop)]
pub struct PlainFile;

/// The coded form, or the fault of a plain one.
pub fn coded_of(form: Form) -> Result<CodedForm, FileFault>
    ensures coded { IfOk result (λ f. form ≡ Form.Coded f) }
    ensures plain { IfErr result (λ fault. (fault ≡ FileFault.NotCoded) × ((form_seen form).kind ≡ plain)) }
{
    match form {
        Form::Plain(_) => Err(FileFault::NotCoded),
        Form::Coded(form) => Ok(form),
    }
}

/// Where the frames of a coded form stand.
pub fn walk_form<S: Source>(
    alloc: Global,
    source: &mut S,
    form: CodedForm,
) -> Result<WalkedForm, OpenFault>
    requires size { (n : ℕ) × (S.known source.old ≡ Some n) × (form.end ≤ n) }
    ensures source { Reads S.bytes S.known S.loan S.faults S.given source.old source.new 48000000 }
    ensures form { IfOk result (λ w. w.form ≡ form) }
    ensures passes { IfOk result (λ _. (file : List ℕ) → S.bytes source.old ≡ Some file → walk_fault file (coded_seen form) ≡ None) }
    ensures entries { IfOk result (λ w. (file : List ℕ) → S.bytes source.old ≡ Some file → entries file (coded_seen form) ≡ w.index) }
    ensures stops { IfErr result (HasOpenCause (λ file. walk_fault file (coded_seen form)) (S.bytes source.old) (S.faults source.old) (S.faults source.new)) }
{
    match walk(alloc, source, &form) {
        Ok(index) => Ok(WalkedForm { form, index }),
        Err(fault) => Err(fault),
    }
}

/// The fault of a number that names none of some frames.
pub fn range_fault(number: u32, frames: u32) -> Option<FileFault>
    ensures { result ≡ no_frame number frames }
{
    if number < frames {
        None
    } else {
        Some(FileFault::Range {
            asked: number,
            frames,
        })
    }
}

impl Rules for PlainFile {
    type Opened = PlainForm;

    ghost command = { λ _. words.encode 1 };

    ghost is_of = { λ _ file f. accepted file ≡ plain_seen f };

    ghost end = { λ f. f.end };

    ghost most = { λ _. 0 };

    fn keep<S: Source>(&self, _: Global, _: &mut S, form: Form) -> Result<PlainForm, OpenFault> {
        match form {
            Form::Plain(form) => Ok(form),
            Form::Coded(_) => Err(OpenFault::File(FileFault::NotPlain)),
        }
    }
}

impl Rules for AllFrames {
    type Opened = WalkedForm;

    ghost command = { λ _. words.index };

    ghost is_of = { λ _ file w. IsWalked file w };

    ghost end = { λ w. w.form.end };

    ghost most = { λ _. 48000000 };

    fn keep<S: Source>(
        &self,
        alloc: Global,
        source: &mut S,
        form: Form,
    ) -> Result<WalkedForm, OpenFault> {
        let form = match coded_of(form) {
            Ok(form) => form,
            Err(fault) => return Err(OpenFault::File(fault)),
        };
        match walk_form(alloc, source, form) {
            Ok(walked) => Ok(walked),
            Err(fault) => Err(fault),
        }
    }
}

impl Rules for FrameByWalk {
    type Opened = FoundFrame;

    ghost command = { λ r. words.show_frame r.number };

    ghost is_of = { λ r file f. IsFound false file r.number f };

    ghost end = { λ f. f.form.end };

    ghost most = { λ _. 48000000 };

    fn keep<S: Source>(
        &self,
        alloc: Global,
        source: &mut S,
        form: Form,
    ) -> Result<FoundFrame, OpenFault> {
        let form = match coded_of(form) {
            Ok(form) => form,
            Err(fault) => return Err(OpenFault::File(fault)),
        };
        let WalkedForm { form, index } = match walk_form(alloc, source, form) {
            Ok(walked) => walked,
            Err(fault) => return Err(fault),
        };
        if let Some(fault) = range_fault(self.number, form.frames) {
            return Err(OpenFault::File(fault));
        }
        let entry = index.entry(self.number);
        Ok(FoundFrame { form, entry })
    }
}

impl Rules for FrameByIndex {
    type Opened = FoundFrame;

    ghost command = { λ r. words.frame r.number true };

    ghost is_of = { λ r file f. IsFound true file r.number f };

    ghost end = { λ f. f.form.end };

    ghost most = { λ _. 24 };

    fn keep<S: Source>(
        &self,
        _alloc: Global,
        source: &mut S,
        form: Form,
    ) -> Result<FoundFrame, OpenFault> {
        let form = match coded_of(form) {
            Ok(form) => form,
            Err(fault) => return Err(OpenFault::File(fault)),
        };
        if let Some(fault) = range_fault(self.number, form.frames) {
            return Err(OpenFault::File(fault));
        }
        match locate_by_index(source, &form, self.number) {
            Ok(entry) => Ok(FoundFrame { form, entry }),
            Err(fault) => Err(fault),
        }
    }
}

impl Rules for ShownFile {
    type Opened = AnyForm;

    ghost command = { λ _. words.show };

    ghost is_of = { λ _ file o. IsAny file o };

    ghost end = { end_of_any };

    ghost most = { λ _. 48000000 };

    fn keep<S: Source>(
        &self,
        alloc: Global,
        source: &mut S,
        form: Form,
    ) -> Result<AnyForm, OpenFault> {
        let form = match form {
            Form::Plain(form) => return Ok(AnyForm::Plain(form)),
            Form::Coded(form) => form,
        };
        match walk_form(alloc, source, form) {
            Ok(walked) => Ok(AnyForm::Coded(walked)),
            Err(fault) => Err(fault),
        }
    }
}

impl Rules for CheckedFile {
    type Opened = AnyForm;

    ghost command = { λ _. words.check };

    ghost is_of = { λ _ file o. IsAny file o };

    ghost end = { end_of_any };

    ghost most = { λ _. 60000000 };

    fn keep<S: Source>(
        &self,
        alloc: Global,
        source: &mut S,
        form: Form,
    ) -> Result<AnyForm, OpenFault> {
        let form = match form {
            Form::Plain(form) => return Ok(AnyForm::Plain(form)),
            Form::Coded(form) => form,
        };
        let walked = match walk_form(alloc, source, form) {
            Ok(walked) => walked,
            Err(fault) => return Err(fault),
        };
        match check_index(alloc, source, &walked) {
            Ok(()) => Ok(AnyForm::Coded(walked)),
            Err(fault) => Err(fault),
        }
    }
}

// Compares the index of a coded form, where it has one, with what the walk found.
fn check_index<S: Source>(
    alloc: Global,
    source: &mut S,
    walked: &WalkedForm,
) -> Result<(), OpenFault>
    requires size { (n : ℕ) × (S.known source.old ≡ Some n) × (walked.now.form.end ≤ n) }
    ensures source { Reads S.bytes S.known S.loan S.faults S.given source.old source.new 12000000 }
    ensures same { OnOk result ((file : List ℕ) → S.bytes source.old ≡ Some file → walks.walk file (coded_seen walked.now.form) ≡ Ok walked.now.index → check_index_fault file (coded_seen walked.now.form) ≡ None) }
    ensures fault { (fault : FileFault) → result ≡ Err (OpenFault.File fault) → (file : List ℕ) → S.bytes source.old ≡ Some file → walks.walk file (coded_seen walked.now.form) ≡ Ok walked.now.index →
        check_index_fault file (coded_seen walked.now.form) ≡ Some fault }
    ensures read { result ≡ Err OpenFault.Read → Rose (S.faults source.old) (S.faults source.new) }
{
    index_beside_walk();
    let index = match read_index(alloc, source, &walked.form) {
        Ok(index) => index,
        Err(OpenFault::File(FileFault::IndexMissing)) => return Ok(()),
        Err(fault) => return Err(fault),
    };
    match compare(&index, &walked.index) {
        Some(entry) => Err(OpenFault::File(FileFault::IndexBad { entry })),
        None => Ok(()),
    }
}
