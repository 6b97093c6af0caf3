// The laws of DSF files. The functions do nothing: their clauses are what is proved.
ghost use Rattle.std.specs.Prelude.{◌≡◌, ℕ, List, None};
ghost use Rattle.dst_spec.specs.Bits.{AreBytes};
ghost use Rattle.dsdiff_spec.specs.Dsf.{dsdiff, dsf_fault};
ghost use Rattle.dsdiff_spec.specs.Laws.{DsfLaw};
ghost use Rattle.dsdiff_spec.specs.Refusal.{refusal};
ghost use Rattle.dsdiff_spec.specs.Words.{encode};

/// The plain form that stands for an accepted DSF file keeps all rules of a plain form.
pub fn plain_form_is_accepted()
    ensures { (f : List ℕ) → AreBytes f → dsf_fault f ≡ None → (level : ℕ) → refusal (encode level) (dsdiff f) ≡ None }
{}

/// What encoding writes of an accepted DSF file is decoded to one DSF file: that of the same channels, rate, order of bits and samples,
/// without metadata, with 0 past the last sample and nothing behind its blocks.
pub fn samples_come_back()
    ensures { DsfLaw }
{}
