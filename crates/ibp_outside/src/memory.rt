ghost use Rattle.std.specs.Prelude.{◌≡◌, ◌+◌, ◌-◌, ◌<◌, ◌≤◌, ◌↔◌, ◌++◌, min, take, drop, length, IsErr, IfOk, OnErr, Some, true, [], ◌||◌, ◌==◌};
ghost use Rattle.std.specs.Io.{ReadsAtMost, WritesAtMost};
ghost use Rattle.std.specs.Io.KnownBytes.{ReadConsumes, WriteAppends};
ghost use Rattle.ibp_outside.specs.Causes.{HasCause, count_up};
ghost use Rattle.ibp_outside.specs.Memory.{SourceState, SinkState, is_listed, source_fails, sink_fails};

use crate::traits::{Failed, Sink, Source};
use std::marker::Model;

// Whether the call of this number fails.
fn is_call_listed(fails: &[u32], number: u64) -> bool
    ensures { result ≡ is_listed fails.now number }
{
    fails.iter().any(|listed| u64::from(*listed) == number)
}

/// A source in memory that gives its bytes in pieces of at most `chunk`, and fails at given calls.
/// Calls are numbered from 1.
#[derive(Drop)]
pub struct MemorySource {
    bytes: Vec<u8>,
    start: usize,
    chunk: usize,
    fails: Vec<u32>,
    calls: u64,
    faults: u64,
}

impl Model for MemorySource {
    ghost use Rattle.std.specs.Prelude.{◌≤◌, drop, length};
    ghost use Rattle.ibp_outside.specs.Memory.{SourceState};

    ghost Value = { SourceState };

    ghost view = { λ s. record {
      left = drop s.start s.bytes.items;
      chunk = s.chunk;
      fails = s.fails.items;
      calls = s.calls;
      faults = s.faults;
    } };

    ghost invariant = { λ s. (1 ≤ s.chunk) × (s.start ≤ length s.bytes.items) };
}

impl MemorySource {
    /// A source of these bytes, none of which is taken yet.
    pub fn new(bytes: Vec<u8>, chunk: usize, fails: Vec<u32>) -> MemorySource
        requires { 1 ≤ chunk }
        ensures { result ≡ record {
          left = bytes.items;
          chunk = chunk;
          fails = fails.items;
          calls = 0;
          faults = 0;
        } }
    {
        MemorySource {
            bytes,
            start: 0,
            chunk,
            fails,
            calls: 0,
            faults: 0,
        }
    }
}

impl Source for MemorySource {
    ghost left = { λ s. Some s.left };

    ghost faults = { λ s. s.faults };

    fn read(&mut self, buf: &mut [u8]) -> Result<usize, Failed>
        ensures bound { ReadsAtMost result buf.new }
        ensures bytes { ReadConsumes (Some self.old.left) (Some self.new.left) result buf.new }
        ensures cause { HasCause self.old.faults self.new.faults result }

        // It fails at the listed calls and at no other, and each failure is counted.
        ensures fails { IsErr result ↔ (source_fails self.old ≡ true) }
        ensures counted { OnErr result (self.new
            ≡ record self.old {
              calls = count_up self.old.calls;
              faults = count_up
                  self.old.faults;
            }) }

        ensures count { IfOk result (λ k. k
            ≡ min (min self.old.chunk (length buf.old)) (length self.old.left)) }
        ensures taken { IfOk result (λ k. self.new
            ≡ record self.old { left = drop k self.old.left; calls = count_up self.old.calls }) }
    {
        self.calls = self.calls.saturating_add(1);
        if is_call_listed(&self.fails, self.calls) {
            self.faults = self.faults.saturating_add(1);
            return Err(Failed);
        }
        let left = &self.bytes[self.start..];
        let count = self.chunk.min(buf.len()).min(left.len());
        buf[..count].copy_from_slice(&left[..count]);
        self.start += count;
        Ok(count)
    }
}

/// A sink in memory that takes pieces of at most `chunk` bytes while there is room, and fails at
/// given calls. Calls are numbered from 1.
#[derive(Drop)]
pub struct MemorySink {
    room: Vec<u8>,
    filled: usize,
    chunk: usize,
    fails: Vec<u32>,
    calls: u64,
    faults: u64,
}

impl Model for MemorySink {
    ghost use Rattle.std.specs.Prelude.{◌≤◌, take, length};
    ghost use Rattle.ibp_outside.specs.Memory.{SinkState};

    ghost Value = { SinkState };

    ghost view = { λ s. record {
      taken = take s.filled s.room.items;
      room = length s.room.items;
      chunk = s.chunk;
      fails = s.fails.items;
      calls = s.calls;
      faults = s.faults;
    } };

    ghost invariant = { λ s. (1 ≤ s.chunk) × (s.filled ≤ length s.room.items) };
}

impl MemorySink {
    /// A sink that puts what it takes into `room`, from its front. Nothing is taken yet.
    pub fn new(room: Vec<u8>, chunk: usize, fails: Vec<u32>) -> MemorySink
        requires { 1 ≤ chunk }
        ensures { result ≡ record {
          taken = [];
          room = length room.items;
          chunk = chunk;
          fails = fails.items;
          calls = 0;
          faults = 0;
        } }
    {
        MemorySink {
            room,
            filled: 0,
            chunk,
            fails,
            calls: 0,
            faults: 0,
        }
    }

    /// The bytes taken so far.
    pub fn taken(&self) -> &[u8]
        ensures { result.now ≡ self.now.taken }
    {
        &self.room[..self.filled]
    }
}

impl Sink for MemorySink {
    ghost taken = { λ s. Some s.taken };

    ghost faults = { λ s. s.faults };

    fn write(&mut self, piece: &[u8]) -> Result<usize, Failed>
        ensures bound { WritesAtMost result piece.now }
        ensures some { 0 < length piece.now → IfOk result (λ n. 0 < n) }
        ensures bytes { WriteAppends (Some self.old.taken) (Some self.new.taken) result piece.now }
        ensures cause { HasCause self.old.faults self.new.faults result }

        // It fails at the listed calls, where a piece finds no room, and nowhere else. Each
        // failure is counted.
        ensures fails { IsErr result ↔ (sink_fails (length piece.now) self.old ≡ true) }
        ensures counted { OnErr result (self.new
            ≡ record self.old {
              calls = count_up self.old.calls;
              faults = count_up
                  self.old.faults;
            }) }

        ensures count { IfOk result (λ k. k
            ≡ min (min self.old.chunk (length piece.now)) (self.old.room - length self.old.taken)) }
        ensures appended { IfOk result (λ k. self.new
            ≡ record self.old {
              taken = self.old.taken
                  ++ take k piece.now;
              calls = count_up self.old.calls;
            }) }
    {
        self.calls = self.calls.saturating_add(1);
        let free = self.room.len() - self.filled;
        let fails = !piece.is_empty() && (free == 0 || is_call_listed(&self.fails, self.calls));
        if fails {
            self.faults = self.faults.saturating_add(1);
            return Err(Failed);
        }
        let count = self.chunk.min(piece.len()).min(free);
        self.room[self.filled..self.filled + count].copy_from_slice(&piece[..count]);
        self.filled += count;
        Ok(count)
    }
}
