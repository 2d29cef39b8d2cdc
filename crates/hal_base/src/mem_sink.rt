ghost use Rattle.std.specs.Prelude.{◌≡◌, ◌↔◌, ◌<◌, ◌≤◌, [], length, Some, Ok, IsTrue, IsErr, IfOk, OnErr};
ghost use Rattle.hal_base.specs.Faults.{Rose};
ghost use Rattle.hal_base.specs.Sink.{Takes, Keeps};
ghost use Rattle.hal_base.specs.MemSink.{put_fails, put_count, after_put};

use crate::sink::{Sink, SinkFault};
use std::alloc::{AllocError, Global};
use std::marker::Model;

/// Bytes in memory, in a room taken at first, and the numbers of the puts that are to fail.
#[derive(Drop)]
pub struct MemSink {
    taken: Vec<u8>,
    room: usize,
    most: usize,
    fails: Vec<u64>,
    calls: u64,
    faults: u64,
}

impl Model for MemSink {
    ghost use Rattle.std.specs.Prelude.{◌<◌, ◌≤◌, vec_len, vec_capacity};
    ghost use Rattle.hal_base.specs.MemSink.{Collected};

    ghost Value = { Collected };

    ghost view = { λ s. record {
      taken = s.taken.items;
      room = s.room;
      most = s.most;
      fails = s.fails.items;
      calls = s.calls;
      faults = s.faults;
    } };

    ghost invariant = { λ s.
        (0 < s.most) × (vec_len s.taken ≤ s.room) × (s.room ≤ vec_capacity s.taken) };
}

impl MemSink {
    /// A sink with room for `room` bytes, taken here, that takes at most `most` bytes in one put
    /// and whose puts numbered in `fails` fail; the first is 1, and a put of an empty piece counts
    /// and never fails.
    pub fn new(
        alloc: Global,
        room: usize,
        most: usize,
        fails: Vec<u64>,
    ) -> Result<MemSink, AllocError>
        requires { 0 < most }
        ensures { IfOk result (λ sink. sink ≡ record {
          taken = [];
          room = room;
          most = most;
          fails = fails.items;
          calls = 0;
          faults = 0;
        }) }
    {
        Ok(MemSink {
            taken: Vec::with_capacity(alloc, room)?,
            room,
            most,
            fails,
            calls: 0,
            faults: 0,
        })
    }

    /// The bytes taken so far.
    pub fn taken(&self) -> &[u8]
        ensures { result.now ≡ self.now.taken }
    {
        self.taken.as_slice()
    }
}

impl Sink for MemSink {
    ghost taken = { λ s. Some s.taken };

    ghost faults = { λ s. s.faults };

    fn put(&mut self, bytes: &[u8]) -> Result<usize, SinkFault>
        ensures empty { length bytes.now ≡ 0 → result ≡ Ok 0 }
        ensures progress { IfOk result (λ count. 0 < length bytes.now → 0 < count) }
        ensures within { IfOk result (λ count. count ≤ length bytes.now) }
        ensures grown { IfOk result (λ count.
            Takes (Some self.old.taken) (Some self.new.taken) bytes.now count) }
        ensures kept { OnErr result (Keeps (Some self.old.taken) (Some self.new.taken)) }
        ensures later { self.old.faults ≤ self.new.faults }
        ensures failed { OnErr result (Rose self.old.faults self.new.faults) }
        ensures fails { IsErr result ↔ IsTrue (put_fails self.old bytes.now) }
        ensures count { IfOk result (λ count. count ≡ put_count self.old bytes.now) }
        ensures changed { self.new ≡ after_put self.old bytes.now result }
    {
        self.calls = self.calls.saturating_add(1);
        let count = bytes.len().min(self.most).min(self.room - self.taken.len());
        // The piece or the room has no byte where the count is 0, since `most` has one.
        let is_failing = count == 0 || self.fails.contains(&self.calls);
        if !bytes.is_empty() && is_failing {
            self.faults = self.faults.saturating_add(1);
            return Err(SinkFault);
        }
        match self.taken.extend_from_slice(bytes.split_at(count).0) {
            Ok(()) => Ok(count),
            Err(_) => unreachable!("the room is taken"),
        }
    }
}
