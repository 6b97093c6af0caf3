// Checking a file: nothing is written.
ghost use Rattle.std.specs.Prelude.{◌≡◌, ◌+◌, ◌*◌, ◌<◌, ◌≤◌, ℕ, List, [], ◌∷◌, Some, None, IfOk, Ok, Err};
ghost use Rattle.dst_spec.specs.declared.faults.FrameFault.{FrameFault};
ghost use Rattle.dst_streams.specs.Causes.{Rose};
ghost use Rattle.dsdiff_spec.specs.declared.faults.FileFault.{FileFault};
ghost use Rattle.dsdiff_spec.specs.Rules as rules;
ghost use Rattle.dsdiff_spec.specs.Words as words;
ghost use Rattle.dsdiff_spec.specs.Refusal.{refusal};
ghost use Rattle.dsdiff_spec.specs.Lines.{check_line};
ghost use Rattle.dsdiff_spec.specs.Outcome.{done, frame_refused};
ghost use Rattle.dst_commands.specs.Commands.{OutcomeOf};
ghost use Rattle.dst_commands.specs.Opened.{IsWalked};
ghost use Rattle.dst_read.specs.Checking.{CheckingEnds};

use crate::faults::{CheckFault, Checked};
use crate::jobs::{jobs_for, tables_for};
use crate::tails::sum_tails;
use dsdiff_chunks::OpenFault;
use dst_commands::{AnyForm, CheckedFile, WalkedForm, open_file};
use dst_streams::Source;
use frame_crew::Gate;
use std::alloc::Global;
use std::thread::Threads;

/// Checks a file by all rules. In a coded file the index, where there is one, is that of its frames, and each frame means
/// a sound; the bytes of frames that decoding doesn't read are counted.
///
/// Batches of frames are read and decoded by so many workers, 1 to 16. What is answered is what one worker answers.
pub fn check_file<R: Threads + Sync, S: Source, G: Gate>(
    rt: &R,
    alloc: Global,
    source: &mut S,
    workers: u32,
    gate: &G,
) -> Result<Checked, CheckFault>
    requires least { 0 < workers }
    requires most { workers ≤ 16 }
    ensures bytes { S.bytes source.new ≡ S.bytes source.old }
    ensures later { S.faults source.old ≤ S.faults source.new }
    // the file keeps all rules, and each of its frames means a sound
    ensures sound { IfOk result (λ s. (file : List ℕ) → S.bytes source.old ≡ Some file → OutcomeOf words.check file (done [] (check_line s.frames s.unread ∷ []))) }
    ensures frames { IfOk result (λ s. (file : List ℕ) → S.bytes source.old ≡ Some file → s.frames ≡ (rules.accepted file).frames) }
    // a refused file, or its first refused frame
    ensures file { (fault : FileFault) → result ≡ Err (CheckFault.Source (OpenFault.File fault)) → (file : List ℕ) → S.bytes source.old ≡ Some file → refusal words.check file ≡ Some fault }
    ensures frame { (k : ℕ) (fault : FrameFault) → result ≡ Err (CheckFault.Frame k fault) → (file : List ℕ) → S.bytes source.old ≡ Some file →
        OutcomeOf words.check file (frame_refused k fault []) }
    // a source that failed
    ensures read { result ≡ Err (CheckFault.Source OpenFault.Read) → Rose (S.faults source.old) (S.faults source.new) }
    // beside opening each stored byte is read once: those of the sound, or of the most and longest frames
    ensures given { (file : List ℕ) → S.bytes source.old ≡ Some file → S.given source.new ≤ S.given source.old + 208948 + 48000000 + 12000000 + (rules.accepted file).sound.size }
    ensures given_any { S.given source.new ≤ S.given source.old + 208948 + 48000000 + 12000000 + 1000000 * 225794 }
{
    let opened = match open_file(alloc, source, &CheckedFile) {
        Ok(opened) => opened,
        Err(fault) => return Err(CheckFault::Source(fault)),
    };
    match opened {
        AnyForm::Plain(form) => Ok(Checked {
            frames: form.frames,
            unread: 0,
        }),
        AnyForm::Coded(walked) => check_frames(rt, alloc, source, &walked, workers, gate),
    }
}

// Has the frames of a coded form decoded, and adds up the bytes of them that aren't read.
fn check_frames<R: Threads + Sync, S: Source, G: Gate>(
    rt: &R,
    alloc: Global,
    source: &mut S,
    walked: &WalkedForm,
    workers: u32,
    gate: &G,
) -> Result<Checked, CheckFault>
    requires least { 0 < workers }
    requires most { workers ≤ 16 }
    requires size { (n : ℕ) × (S.known source.old ≡ Some n) × (walked.now.form.end ≤ n) }
    requires walked { (file : List ℕ) → S.bytes source.old ≡ Some file → IsWalked file walked.now }
    requires accepted { (file : List ℕ) → S.bytes source.old ≡ Some file → refusal words.check file ≡ None }
    ensures bytes { S.bytes source.new ≡ S.bytes source.old }
    ensures later { S.faults source.old ≤ S.faults source.new }
    ensures read { result ≡ Err (CheckFault.Source OpenFault.Read) → Rose (S.faults source.old) (S.faults source.new) }
    ensures given { S.given source.new ≤ S.given source.old + walked.now.form.sound.size }
    ensures given_any { S.given source.new ≤ S.given source.old + 1000000 * 225794 }
    ensures ends { (file : List ℕ) → S.bytes source.old ≡ Some file → CheckingEnds result file }
{
    let form = &walked.form;
    let mut tables = match tables_for(alloc, form.channels, workers) {
        Ok(tables) => tables,
        Err(refused) => return Err(CheckFault::Source(OpenFault::Memory(refused))),
    };
    let mut jobs = match jobs_for(alloc, form.channels, form.frames, workers) {
        Ok(jobs) => jobs,
        Err(refused) => return Err(CheckFault::Source(OpenFault::Memory(refused))),
    };
    match sum_tails(rt, source, walked, gate, &mut tables, &mut jobs) {
        Ok(unread) => Ok(Checked {
            frames: form.frames,
            unread,
        }),
        Err(fault) => Err(fault),
    }
}
