//! Ordered work on several threads: a feed gives jobs, threads work them, and a drain takes them in the feed's order.
//!
//! [`run_batch`] works each job of a slice once. [`run_ordered`] does so batch after batch: it fills jobs from the
//! front until there are no more of them or the feed ends, has the workers work them, drains them in their order, and
//! begins again. Its contract is that of a loop on one thread that feeds, works and drains one job after another, for
//! every number of workers from 1 to 16. What a fault of the feed or of the drain leaves is said as well.
//!
//! | Trait | Whose | What it does |
//! |---|---|---|
//! | [`Slot`] | a job's, a scratch's | has a shape, which no call changes |
//! | [`Feed`] | the caller's | fills a job, or answers that it is at its end |
//! | [`FrameWork`] | shared by all workers | works a worker's run of jobs in place, with the worker's scratch |
//! | [`JobWork`] | within [`InTurn`] | works one job in place, for work that takes the jobs of a run one after another |
//! | [`Drain`] | the caller's | takes a worked job |
//! | [`Gate`] | shared by all workers | is passed for each job, before its run is worked; [`OpenGate`] is for programs |
//!
//! There are as many workers as scratches. A scratch is what a worker works with, as tables that each job fills anew. No
//! clause says what is in it, so what is promised of a job doesn't hang on the jobs that its worker worked before.
//!
//! `fill` and `drain` are called by the caller's own thread alone. Each worker is lent its own scratch and its own run
//! of the batch's jobs, without a lock, a channel or a shared flag: the return of the batch is the one event between
//! threads. Where a thread can't be started, the caller does its work. Neither call takes memory of its own: the jobs
//! and the scratches are the caller's.
//!
//! **The caller starts all threads itself, one after another**, and works the last run. Where two threads start a thread
//! at the same moment, as they do where the jobs are halved again and again, Linux may put both new ones on the same idle
//! processor: a batch of a few milliseconds then takes twice as long. While jobs are filled for several workers, a thread without
//! work begins and ends, since Linux often puts the first of several new threads on its caller's processor.
//!
//! A batch costs what its slowest worker takes, and no work is done while jobs are filled and drained. So the jobs are
//! shared out evenly: no worker has two jobs more than another. That is enough where jobs take about the same time, as
//! frames of one form do, and where there are several times as many jobs as workers: the waits are then short against
//! the work, and reading and writing a frame is short against coding it.
//!
//! ```
//! let mut tables = [Tables::EMPTY; 4];
//! let mut jobs = [Frame::EMPTY; 32];
//! let decoder = InTurn { each: decoder };
//! match run_ordered(&rt, &decoder, &mut frames, &mut file, &OpenGate, &mut tables, &mut jobs) {
//!     Ok(count) => println!(rt; "decoded {count} frames")?,
//!     Err(RunFault::Feed(fault)) => return Err(Fault::Read(fault)),
//!     Err(RunFault::Drain(fault)) => return Err(Fault::Write(fault)),
//! }
//! ```
#![tactic(auto)]

mod batch;
mod drain;
mod feed;
mod gate;
mod ordered;
mod turn;
mod work;

pub use batch::run_batch;
pub use drain::Drain;
pub use feed::Feed;
pub use gate::{Gate, OpenGate};
pub use ordered::{RunFault, run_ordered};
pub use turn::{InTurn, JobWork};
pub use work::{FrameWork, Slot};
