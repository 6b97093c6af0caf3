// A sink in memory, of a fixed capacity.
ghost use Rattle.std.specs.Prelude.{◌≡◌, ◌≤◌, [], true, Some, IfOk, length, vec_len, vec_capacity};
ghost use Rattle.dst_streams.specs.MemorySink.{sure_room};

use crate::{Failed, Sink};
use std::alloc::{AllocError, Global};

/// A sink in memory that takes at most `capacity` bytes, for tests.
///
/// Call number n, counted from 0 over `append`, `overwrite` and `finish`, fails where n is in `fails`, and so does an
/// `append` that would pass the capacity. An `append` that fails keeps the first half of its piece as far as it fits.
/// Memory is settled at any time; `finish` does no more than to be counted, or to fail.
#[derive(Drop)]
pub struct MemorySink<'a> {
    bytes: Vec<u8>,
    capacity: usize,
    fails: &'a [u64],
    calls: u64,
    appended: u64,
    faults: u64,
    ghost has_room: { capacity ≤ vec_capacity bytes },
    ghost within: { vec_len bytes ≤ capacity },
    ghost appended_within: { appended ≤ length bytes.items },
}

impl<'a> MemorySink<'a> {
    pub fn new(
        alloc: Global,
        capacity: usize,
        fails: &'a [u64],
    ) -> Result<MemorySink<'a>, AllocError>
        ensures written { IfOk result (λ s. ⟦<MemorySink<'a> as Sink>⟧.written s ≡ Some []) }
        ensures appended { IfOk result (λ s. ⟦<MemorySink<'a> as Sink>⟧.appended s ≡ 0) }
        ensures faults { IfOk result (λ s. ⟦<MemorySink<'a> as Sink>⟧.faults s ≡ 0) }
        ensures room { IfOk result (λ s. ⟦<MemorySink<'a> as Sink>⟧.room s ≡ sure_room fails.now capacity 0) }
    {
        Ok(MemorySink {
            bytes: Vec::with_capacity(alloc, capacity)?,
            capacity,
            fails,
            calls: 0,
            appended: 0,
            faults: 0,
        })
    }

    /// What is written.
    pub fn written(&self) -> &[u8]
        ensures { ⟦<MemorySink<'a> as Sink>⟧.written self.now ≡ Some result.now }
    {
        &self.bytes
    }
}

impl<'a> Sink for MemorySink<'a> {
    ghost written = { λ s. Some s.bytes.items };

    ghost appended = { λ s. s.appended };

    ghost faults = { λ s. s.faults };

    ghost room = { λ s. sure_room s.fails.now s.capacity (vec_len s.bytes) };

    ghost settled = { λ _. true };

    ghost use Rattle.dst_streams.specs.Laws.{le_of_both};

    ghost appended_within = { λ s xs told. le_of_both s.appended s.bytes.items xs s.appended_within told };

    fn append(&mut self, piece: &[u8]) -> Result<(), Failed> {
        let call = self.calls;
        self.calls = self.calls.saturating_add(1);
        let room = self.capacity - self.bytes.len();
        if piece.len() <= room && !self.fails.contains(&call) {
            if self.bytes.extend_from_slice(piece).is_ok() {
                self.appended += piece.len() as u64;
                return Ok(());
            }
        }
        let taken = room.min(piece.len() / 2);
        let _ = self.bytes.extend_from_slice(&piece[..taken]);
        self.faults = self.faults.saturating_add(1);
        Err(Failed)
    }

    fn overwrite(&mut self, place: u64, piece: &[u8]) -> Result<(), Failed> {
        let call = self.calls;
        self.calls = self.calls.saturating_add(1);
        if self.fails.contains(&call) {
            self.faults = self.faults.saturating_add(1);
            return Err(Failed);
        }
        let start = place as usize;
        self.bytes[start..start + piece.len()].copy_from_slice(piece);
        Ok(())
    }

    fn finish(&mut self) -> Result<(), Failed> {
        let call = self.calls;
        self.calls = self.calls.saturating_add(1);
        if self.fails.contains(&call) {
            self.faults = self.faults.saturating_add(1);
            return Err(Failed);
        }
        Ok(())
    }
}
