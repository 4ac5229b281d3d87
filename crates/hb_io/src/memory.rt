//! Sources and sinks in memory.
ghost use Rattle.std.specs.Prelude.{◌≡◌, ◌⊎◌, ◌↔◌, ℕ, ◌+◌, ◌<◌, ◌≤◌, min, List, [], ◌++◌, length, take, drop, Some, IfOk, OnErr, IsOk, IsErr};
ghost use Rattle.hb_io.specs.Faults.{Rose, FailsNext};
ghost use Rattle.hb_io.specs.Told.{Takes, Appends};
ghost use Rattle.hb_io.specs.Memory.{after_read, after_failed_read, after_write, after_failed_write};

use crate::plan::{Plan, fault};
use crate::{Failed, Sink, Source};
use std::alloc::{AllocError, Global};
use std::marker::Model;

/// A source of bytes in memory that never fails.
#[derive(Drop)]
pub struct SureSource {
    bytes: Vec<u8>,
    at: usize,
    piece: usize,
}

impl Model for SureSource {
    ghost use Rattle.std.specs.Prelude.{◌<◌, ◌≤◌, drop, vec_len};
    ghost use Rattle.hb_io.specs.Memory.{Stock};

    ghost Value = { Stock };

    ghost view = { λ s. record { left = drop s.at s.bytes.items; piece = s.piece } };

    ghost invariant = { λ s. (s.at ≤ vec_len s.bytes) × (0 < s.piece) };
}

impl SureSource {
    /// A source of these bytes, of which a read gives at most `piece`.
    pub fn new(bytes: Vec<u8>, piece: usize) -> Self
        requires { 0 < piece }
        ensures { result ≡ record { left = bytes.items; piece = piece } }
    {
        SureSource {
            bytes,
            at: 0,
            piece,
        }
    }

    // Takes the next bytes into the front of `buf`, and gives their number.
    fn take(&mut self, buf: &mut [u8]) -> usize
        ensures count { result ≡ min (length buf.old) (min self.old.piece (length self.old.left)) }
        ensures bytes { buf.new ≡ take result self.old.left ++ drop result buf.old }
        ensures rest { self.new ≡ record self.old { left = drop result self.old.left } }
        ensures end { result ≡ 0 → 0 < length buf.old → self.old.left ≡ [] }
    {
        let n = buf.len().min(self.piece).min(self.bytes.len() - self.at);
        buf[..n].copy_from_slice(&self.bytes[self.at..self.at + n]);
        self.at += n;
        n
    }
}

impl Source for SureSource {
    ghost left = { λ s. Some s.left };

    ghost faults = { λ _. 0 };

    /// Reads as each source does, and never fails.
    #[tactic(auto, using(crate::proofs::ToldLemmas::told))]
    fn read(&mut self, buf: &mut [u8]) -> Result<usize, Failed>
        requires { 0 < length buf.old }

        // As of each source.
        ensures within { IfOk result (λ n. n ≤ length buf.new) }
        ensures taken { IfOk result (λ n.
            Takes (Some self.old.left) (Some self.new.left) (take n buf.new)) }
        ensures end { IfOk result (λ n. n ≡ 0 → self.old.left ≡ []) }

        // Of this one.
        ensures sure { IsOk result }
        ensures count { IfOk result (λ n.
            n ≡ min (length buf.old) (min self.old.piece (length self.old.left))) }
        ensures bytes { IfOk result (λ n. buf.new ≡ take n self.old.left ++ drop n buf.old) }
        ensures rest { IfOk result (λ n.
            self.new ≡ record self.old { left = drop n self.old.left }) }
    {
        Ok(self.take(buf))
    }
}

/// A source of bytes in memory that fails at the calls that it is told to.
#[derive(Drop)]
pub struct MemSource {
    source: SureSource,
    plan: Plan,
}

impl Model for MemSource {
    ghost use Rattle.hb_io.specs.Memory.{Supply};

    ghost Value = { Supply };

    ghost view = { λ s. record {
      left = s.source.left;
      piece = s.source.piece;
      failing = s.plan.failing.items;
      calls = s.plan.calls;
      faults = s.plan.faults;
    } };
}

impl MemSource {
    /// A source of these bytes, of which a read gives at most `piece`. `failing` has the numbers, from 1,
    /// of the calls of `read` that fail. A number stays at the greatest `u64`, and so does the count of
    /// faults.
    pub fn new(bytes: Vec<u8>, piece: usize, failing: Vec<u64>) -> Self
        requires { 0 < piece }
        ensures { result ≡ record {
          left = bytes.items;
          piece = piece;
          failing = failing.items;
          calls = 0;
          faults = 0;
        } }
    {
        MemSource {
            source: SureSource::new(bytes, piece),
            plan: Plan::new(failing),
        }
    }
}

impl Source for MemSource {
    ghost left = { λ s. Some s.left };

    ghost faults = { λ s. s.faults };

    /// Reads as each source does. `Failed`: the number of this call is listed.
    #[tactic(auto, using(crate::proofs::ToldLemmas::told))]
    fn read(&mut self, buf: &mut [u8]) -> Result<usize, Failed>
        requires { 0 < length buf.old }

        // As of each source.
        ensures within { IfOk result (λ n. n ≤ length buf.new) }
        ensures taken { IfOk result (λ n.
            Takes (Some self.old.left) (Some self.new.left) (take n buf.new)) }
        ensures end { IfOk result (λ n. n ≡ 0 → self.old.left ≡ []) }
        ensures failed { OnErr result (Rose self.old.faults self.new.faults) }
        ensures counted { self.old.faults ≤ self.new.faults }

        // Of this one.
        ensures fails { IsErr result ↔ FailsNext self.old.failing self.old.calls }
        ensures count { IfOk result (λ n.
            n ≡ min (length buf.old) (min self.old.piece (length self.old.left))) }
        ensures bytes { IfOk result (λ n. buf.new ≡ take n self.old.left ++ drop n buf.old) }
        ensures ok { IfOk result (λ n. self.new ≡ after_read self.old n) }
        ensures err { OnErr result (self.new ≡ after_failed_read self.old) }
        ensures err_bytes { OnErr result (buf.new ≡ buf.old) }
    {
        if self.plan.fails_next() {
            return Err(fault(&mut self.plan.faults));
        }
        Ok(self.source.take(buf))
    }
}

/// A sink that keeps bytes in memory, and fails at the calls that it is told to.
#[derive(Drop)]
pub struct MemSink {
    bytes: Vec<u8>,
    room: usize,
    piece: usize,
    plan: Plan,
}

impl Model for MemSink {
    ghost use Rattle.std.specs.Prelude.{◌+◌, ◌<◌, ◌≤◌, vec_len, vec_capacity};
    ghost use Rattle.hb_io.specs.Memory.{Store};

    ghost Value = { Store };

    ghost view = { λ s. record {
      kept = s.bytes.items;
      room = s.room;
      piece = s.piece;
      failing = s.plan.failing.items;
      calls = s.plan.calls;
      faults = s.plan.faults;
    } };

    ghost invariant = { λ s. (vec_len s.bytes + s.room ≤ vec_capacity s.bytes) × (0 < s.piece) };
}

impl MemSink {
    /// A sink with room for `room` bytes, of which a write takes at most `piece`. `failing` has the
    /// numbers, from 1, of the calls of `write` that fail. A number stays at the greatest `u64`, and so
    /// does the count of faults. `AllocError`: there is no memory for the room.
    pub fn new(
        alloc: Global,
        room: usize,
        piece: usize,
        failing: Vec<u64>,
    ) -> Result<Self, AllocError>
        requires { 0 < piece }
        ensures { IfOk result (λ s. s ≡ record {
          kept = [];
          room = room;
          piece = piece;
          failing = failing.items;
          calls = 0;
          faults = 0;
        }) }
    {
        Ok(MemSink {
            bytes: Vec::with_capacity(alloc, room)?,
            room,
            piece,
            plan: Plan::new(failing),
        })
    }

    /// The bytes that were written.
    pub fn kept(&self) -> &[u8]
        ensures { result.now ≡ self.now.kept }
    {
        self.bytes.as_slice()
    }
}

impl Sink for MemSink {
    ghost kept = { λ s. Some s.kept };

    ghost faults = { λ s. s.faults };

    /// Writes as each sink does, and takes no memory. `Failed`: the number of this call is listed, or
    /// the room is used up.
    #[tactic(auto, using(crate::proofs::ToldLemmas::told))]
    fn write(&mut self, bytes: &[u8]) -> Result<usize, Failed>
        requires { 0 < length bytes.now }

        // As of each sink.
        ensures some { IfOk result (λ n. 0 < n) }
        ensures within { IfOk result (λ n. n ≤ length bytes.now) }
        ensures appended { IfOk result (λ n.
            Appends (Some self.old.kept) (Some self.new.kept) (take n bytes.now)) }
        ensures failed { OnErr result (Rose self.old.faults self.new.faults) }
        ensures counted { self.old.faults ≤ self.new.faults }

        // Of this one.
        ensures fails { IsErr result
            ↔ (FailsNext self.old.failing self.old.calls ⊎ (self.old.room ≡ 0)) }
        ensures count { IfOk result (λ n.
            n ≡ min (length bytes.now) (min self.old.piece self.old.room)) }
        ensures ok { IfOk result (λ n. self.new ≡ after_write self.old n bytes.now) }
        ensures err { OnErr result (self.new ≡ after_failed_write self.old) }
    {
        if self.plan.fails_next() || self.room == 0 {
            return Err(fault(&mut self.plan.faults));
        }
        let n = bytes.len().min(self.piece).min(self.room);
        self.bytes.extend_from_slice(&bytes[..n]).unwrap();
        self.room -= n;
        Ok(n)
    }
}
