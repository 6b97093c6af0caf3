// Opening a coded file by the rules of decoding it to a DSF file.
ghost use Rattle.std.proofs.Props.{props};
ghost use Rattle.dsdiff_spec.specs.Words as words;
ghost use Rattle.dst_dsf.specs.Said.{IsSaid, IsSaidIn};

use crate::said::read_said;
use dsdiff_chunks::{Form, OpenFault};
use dsf_files::DsfForm;
use dst_commands::{Rules, WalkedForm, coded_of, walk_form};
use dst_streams::Source;
use std::alloc::Global;

/// The form is coded, the walk finds its frames, and what it says of a DSF file fits it.
#[derive(Clone, Copy, Drop)]
pub(crate) struct DsfFrames;

/// A coded form, where its frames stand, and the header of the DSF file.
#[derive(Drop)]
pub(crate) struct DsfWalked {
    pub(crate) walked: WalkedForm,
    pub(crate) said: DsfForm,
    ghost says: { IsSaid walked.form said } by { Prim.hlevel props },
}

impl Rules for DsfFrames {
    type Opened = DsfWalked;

    ghost command = { λ _. words.decode_dsf };

    ghost is_of = { λ _ file o. IsSaidIn file o.walked o.said };

    ghost end = { λ o. o.walked.form.end };

    ghost most = { λ _. 48000014 };

    fn keep<S: Source>(
        &self,
        alloc: Global,
        source: &mut S,
        form: Form,
    ) -> Result<DsfWalked, OpenFault> {
        let form = match coded_of(form) {
            Ok(form) => form,
            Err(fault) => return Err(OpenFault::File(fault)),
        };
        let walked = match walk_form(alloc, source, form) {
            Ok(walked) => walked,
            Err(fault) => return Err(fault),
        };
        match read_said(source, &walked.form) {
            Ok(said) => Ok(DsfWalked { walked, said }),
            Err(fault) => Err(fault),
        }
    }
}
