// The rules of cutting.
ghost use Rattle.std.specs.Prelude.{◌≤◌};
ghost use Rattle.dsdiff_spec.specs.Words as words;
ghost use Rattle.dst_cut.specs.Cutting.{IsCutForm};

use crate::cut_form::CutForm;
use dsdiff_chunks::{Form, OpenFault};
use dst_commands::{Rules, WalkedForm, coded_of, range_fault, walk_form};
use dst_streams::Source;
use std::alloc::Global;

/// `cut`: the form is coded, the walk finds its frames, the last is one of them, and what is written keeps the rules of the form on
/// the number of chunks and the size.
#[derive(Clone, Copy, Drop)]
pub(crate) struct CutFrames {
    pub(crate) first: u32,
    pub(crate) last: u32,
    ghost order: { first ≤ last },
}

impl Rules for CutFrames {
    type Opened = CutForm;

    ghost command = { λ r. words.cut r.first r.last };

    ghost is_of = { λ r file c. IsCutForm r.first r.last file c };

    ghost end = { λ c. c.form.end };

    ghost most = { λ _. 48000000 };

    fn keep<S: Source>(
        &self,
        alloc: Global,
        source: &mut S,
        form: Form,
    ) -> Result<CutForm, OpenFault> {
        let form = match coded_of(form) {
            Ok(form) => form,
            Err(fault) => return Err(OpenFault::File(fault)),
        };
        let WalkedForm { form, index } = match walk_form(alloc, source, form) {
            Ok(walked) => walked,
            Err(fault) => return Err(fault),
        };
        if let Some(fault) = range_fault(self.last, form.frames) {
            return Err(OpenFault::File(fault));
        }
        let cut = CutForm {
            form,
            index,
            first: self.first,
            last: self.last,
        };
        match cut.fault() {
            Some(fault) => Err(OpenFault::File(fault)),
            None => Ok(cut),
        }
    }
}
