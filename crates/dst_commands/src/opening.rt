// Opening a file for a command: the rules of the form, then those of the command.
ghost use Rattle.std.specs.Prelude.{◌≡◌, ◌+◌, ◌≤◌, ℕ, List, Some, None, IfOk, IfErr};
ghost use Rattle.dsdiff_spec.specs.Refusal.{command_fault, form_refusal};
ghost use Rattle.dsdiff_spec.specs.Rules as files;
ghost use Rattle.dsdiff_spec.specs.Words.{Command};
ghost use Rattle.dsdiff_chunks.specs.Forms.{end_of, form_seen};
ghost use Rattle.dsdiff_chunks.specs.Opening.{Reads, HasOpenCause};

use dsdiff_chunks::{Form, OpenFault, open_form};
use dst_streams::Source;
use std::alloc::Global;

/// The rules of a command on a file, behind those of the form.
pub trait Rules {
    /// What the command has of a file that keeps them.
    type Opened: Drop;

    /// The command, in the words of the definitions.
    ghost command: { Self → Command };

    /// What is opened is what the definitions find in the file.
    ghost is_of: { Self → List ℕ → Self.Opened → Type 0 };

    /// The place behind the form.
    ghost end: { Self.Opened → ℕ };

    /// The most bytes that the source gives for these rules.
    ghost most: { Self → ℕ };

    /// What the command has of a file of this form, or the first rule that fails.
    fn keep<S: Source>(
        &self,
        alloc: Global,
        source: &mut S,
        form: Form,
    ) -> Result<Self::Opened, OpenFault>
        requires size { (n : ℕ) × (S.known source.old ≡ Some n) × (end_of form ≤ n) }
        ensures source { Reads S.bytes S.known S.loan S.faults S.given source.old source.new (most self.now) }
        ensures end { IfOk result (λ o. end o ≡ end_of form) }
        ensures passes { IfOk result (λ _. (file : List ℕ) → S.bytes source.old ≡ Some file → command_fault (command self.now) file (form_seen form) ≡ None) }
        ensures opened { IfOk result (λ o. (file : List ℕ) → S.bytes source.old ≡ Some file → files.accepted file ≡ form_seen form → is_of self.now file o) }
        ensures stops { IfErr result (HasOpenCause (λ file. command_fault (command self.now) file (form_seen form)) (S.bytes source.old) (S.faults source.old) (S.faults source.new)) };
}

/// Opens a file by the rules of a command: answers what the command has of it, or the first rule that fails.
pub fn open_file<S: Source, R: Rules>(
    alloc: Global,
    source: &mut S,
    rules: &R,
) -> Result<R::Opened, OpenFault>
    ensures bytes { S.bytes source.new ≡ S.bytes source.old }
    ensures loan { S.loan source.new ≡ S.loan source.old }
    ensures later { S.faults source.old ≤ S.faults source.new }
    ensures given { S.given source.new ≤ S.given source.old + (208948 + R.most rules.now) }
    ensures size { IfOk result (λ o. (n : ℕ) × (S.known source.new ≡ Some n) × (R.end o ≤ n)) }
    ensures accepted { IfOk result (λ _. (file : List ℕ) → S.bytes source.old ≡ Some file → form_refusal (R.command rules.now) file ≡ None) }
    ensures opened { IfOk result (λ o. (file : List ℕ) → S.bytes source.old ≡ Some file → R.is_of rules.now file o) }
    ensures stops { IfErr result (HasOpenCause (form_refusal (R.command rules.now)) (S.bytes source.old) (S.faults source.old) (S.faults source.new)) }
{
    let form = match open_form(alloc, source) {
        Ok(form) => form,
        Err(fault) => return Err(fault),
    };
    match rules.keep(alloc, source, form) {
        Ok(opened) => Ok(opened),
        Err(fault) => Err(fault),
    }
}
