// A sink in memory.
ghost use Rattle.std.specs.Prelude.{◌≡◌, ◌≤◌, ◌<◌, ◌+◌, ◌-◌, ◌^◌, ◌++◌, ◌⊎◌, min, [], length, take, Some, OnOk, OnErr, IfOk, Contains};
ghost use Rattle.outside.specs.Counts.{Rose, raised};
ghost use Rattle.outside.specs.Memory.{SinkState};

use crate::count::raise;
use crate::numbers::Numbers;
use crate::sink::{Failed, Sink};
use std::alloc::{AllocError, Global};
use std::marker::Model;

/// A sink that tells the bytes that it took, with room for so many. The puts whose numbers are listed
/// fail; they are counted from 1. A put of a piece that is longer than the room left fails too. A put
/// of an empty piece never fails.
#[derive(Debug, Drop)]
pub struct MemSink {
    text: Vec<u8>,
    room: usize,
    most: usize,
    failing: Numbers,
    calls: u64,
    faults: u64,
}

impl Model for MemSink {
    ghost use Rattle.std.specs.Prelude.{◌≤◌, vec_len, vec_capacity};
    ghost use Rattle.outside.specs.Memory.{SinkState};

    ghost Value = { SinkState };

    ghost view = { λ sink. record {
      taken = sink.text.items;
      room = sink.room;
      most = sink.most;
      failing = sink.failing;
      calls = sink.calls;
      faults = sink.faults;
    } };

    // The room is reserved, what was taken is within it, and a put can take a byte.
    ghost invariant = { λ sink. (sink.room ≤ vec_capacity sink.text) × (vec_len sink.text ≤ sink.room) × (1 ≤ sink.most) };
}

impl MemSink {
    /// An empty sink that reserves `room` bytes, and whose puts with the numbers `failing` fail.
    /// `AllocError` only where memory was refused.
    pub fn new(alloc: Global, room: u64, failing: Numbers) -> Result<MemSink, AllocError>
        ensures made { IfOk result (λ sink. sink ≡ record {
          taken = [];
          room = room;
          most = 2 ^ 64 - 1;
          failing = failing;
          calls = 0;
          faults = 0;
        }) }
    {
        let room = room as usize;
        let text = Vec::with_capacity(alloc, room)?;
        Ok(MemSink {
            text,
            room,
            most: usize::MAX,
            failing,
            calls: 0,
            faults: 0,
        })
    }

    /// The bytes that were taken.
    pub fn text(&self) -> &[u8]
        ensures { result.now ≡ self.now.taken }
    {
        self.text.as_slice()
    }

    /// Lets each later put take at most `most` bytes. It takes no memory.
    pub fn narrow(&mut self, most: usize)
        requires { 1 ≤ most }
        ensures { self.new ≡ record self.old { most = most } }
    {
        self.most = most;
    }
}

impl Sink for MemSink {
    ghost taken = { λ sink. Some sink.taken };

    ghost faults = { λ sink. sink.faults };

    fn put(&mut self, piece: &[u8]) -> Result<usize, Failed>
        ensures call { self.new.calls ≡ raised self.old.calls 1 }
        ensures same { (self.new.room ≡ self.old.room) × (self.new.most ≡ self.old.most)
            × (self.new.failing ≡ self.old.failing) }
        ensures faults_later { self.old.faults ≤ self.new.faults }
        ensures some { 0 < self.old.most }

        // A first part of the piece was taken, as long as a put may be.
        ensures count { IfOk result (λ n. n ≡ min (length piece.now) self.old.most) }
        ensures took { IfOk result (λ n. self.new.taken ≡ self.old.taken ++ take n piece.now) }
        ensures no_fault { OnOk result (self.new.faults ≡ self.old.faults) }
        ensures listed { OnOk result (0 < length piece.now → Contains self.old.failing self.new.calls → ⊥) }
        ensures in_room { OnOk result (0 < length piece.now
            → length self.old.taken + length piece.now ≤ self.old.room) }

        // A put fails only if its piece is not empty, and its number is listed or the piece is longer
        // than the room left.
        ensures kept { OnErr result (self.new.taken ≡ self.old.taken) }
        ensures failed { OnErr result (self.new.faults ≡ raised self.old.faults 1) }
        ensures refused { OnErr result ((0 < length piece.now)
            × (Contains self.old.failing self.new.calls
            ⊎ self.old.room < length self.old.taken + length piece.now)) }
    {
        self.calls = raise(self.calls, 1);
        if piece.is_empty() {
            return Ok(0);
        }
        if self.failing.has(self.calls) || piece.len() > self.room - self.text.len() {
            self.faults = raise(self.faults, 1);
            return Err(Failed);
        }
        let count = piece.len().min(self.most);
        self.text.extend_from_slice(&piece[..count]).unwrap();
        Ok(count)
    }
}
