// The frames of a coded file, read and worked in order for their unread bytes.
ghost use Rattle.std.specs.Prelude.{◌≡◌, ◌+◌, ◌<◌, ◌≤◌, ℕ, List, Some, IfErr};
ghost use Rattle.dsdiff_spec.specs.Walk.{entries};
ghost use Rattle.dsdiff_chunks.specs.Forms.{coded_seen};
ghost use Rattle.dst_read.specs.Feeding.{bytes_of_entries};
ghost use Rattle.dst_read.specs.Jobs.{AreJobsFor, AreTablesFor};
ghost use Rattle.dst_read.specs.Checking.{HasSourceCause, TailsEnd, HasSummed};

use crate::drain::TailSum;
use crate::faults::CheckFault;
use crate::feed::StoredFrames;
use crate::jobs::{Job, Tables};
use crate::work::FrameDecoder;
use dsdiff_chunks::OpenFault;
use dst_commands::WalkedForm;
use dst_streams::Source;
use frame_crew::{Gate, RunFault, run_ordered};
use std::thread::Threads;

/// Adds up the unread bytes of all frames, up to the first frame that is refused.
pub(crate) fn sum_tails<R: Threads + Sync, S: Source, G: Gate>(
    rt: &R,
    source: &mut S,
    walked: &WalkedForm,
    gate: &G,
    tables: &mut [Tables],
    jobs: &mut [Job],
) -> Result<u64, CheckFault>
    requires size { (n : ℕ) × (S.known source.old ≡ Some n) × (walked.now.form.end ≤ n) }
    requires tables { AreTablesFor walked.now.form.channels tables.old }
    requires jobs { AreJobsFor walked.now.form.channels jobs.old }
    requires walked { (file : List ℕ) → S.bytes source.old ≡ Some file → entries file (coded_seen walked.now.form) ≡ walked.now.index }
    ensures bytes { S.bytes source.new ≡ S.bytes source.old }
    ensures later { S.faults source.old ≤ S.faults source.new }
    ensures given { S.given source.new ≤ S.given source.old + bytes_of_entries walked.now.index }
    ensures cause { IfErr result (λ fault. HasSourceCause fault (S.faults source.old) (S.faults source.new)) }
    ensures summed { (file : List ℕ) → S.bytes source.old ≡ Some file → TailsEnd result file (coded_seen walked.now.form) }
{
    let mut feed = StoredFrames {
        source,
        walked,
        next: 0,
    };
    let mut drain = TailSum {
        channels: walked.form.channels,
        unread: 0,
    };
    run_tails(rt, &mut feed, &mut drain, gate, tables, jobs)
}

// Has the frames worked.
fn run_tails<R: Threads + Sync, S: Source, G: Gate>(
    rt: &R,
    feed: &mut StoredFrames<'_, S>,
    drain: &mut TailSum,
    gate: &G,
    tables: &mut [Tables],
    jobs: &mut [Job],
) -> Result<u64, CheckFault>
    requires first { feed.old.next ≡ 0 }
    requires size { (n : ℕ) × (S.known feed.old.source.now ≡ Some n) × (feed.old.walked.now.form.end ≤ n) }
    requires tables { AreTablesFor feed.old.walked.now.form.channels tables.old }
    requires jobs { AreJobsFor feed.old.walked.now.form.channels jobs.old }
    requires entries { (file : List ℕ) → S.bytes feed.old.source.now ≡ Some file → entries file (coded_seen feed.old.walked.now.form) ≡ feed.old.walked.now.index }
    requires drain_channels { drain.old.channels ≡ feed.old.walked.now.form.channels }
    requires none { drain.old.unread ≡ 0 }
    ensures { HasSummed S.bytes S.known S.faults S.given (coded_seen feed.old.walked.now.form) feed.old feed.new result }
{
    let work = FrameDecoder {
        channels: feed.walked.form.channels,
    };
    match run_ordered(rt, &work, feed, drain, gate, tables, jobs) {
        Ok(_) => Ok(drain.unread),
        Err(RunFault::Feed(_)) => Err(CheckFault::Source(OpenFault::Read)),
        Err(RunFault::Drain(fault)) => Err(fault),
    }
}
