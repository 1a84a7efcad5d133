//! A source and a sink in memory, which fail when they are told to.

ghost use Rattle.std.specs.Prelude.{◌≡◌, ◌<◌, ◌≤◌, ◌+◌, ◌-◌, ◌↔◌, ◌⊎◌, IsTrue, [], ◌++◌, Some, IfOk, length, take, drop, min, vec_len, vec_capacity};
ghost use Rattle.std.specs.Result.{IsErr};
ghost use Rattle.std.specs.Io.{ReadsAtMost};
ghost use Rattle.plural_bytes.specs.Causes.{one_more, HasCause};
ghost use Rattle.plural_bytes.specs.Streams.{Reads, Writes, IsPart};
ghost use Rattle.plural_bytes.specs.InMemory.{is_listed};

use crate::outside::{Failed, Sink, Source};
use plural_base::Memory;
use std::alloc::Global;
use std::marker::Model;

/// The calls of a source or a sink in memory: the numbers, from 0, of those that fail, and how many calls and failures
/// there were.
#[derive(Drop)]
struct Calls {
    fail: Vec<u32>,
    calls: u64,
    faults: u64,
}

/// Is this call one of those that fail?
fn is_listed(fail: &[u32], call: u64) -> bool
    ensures { result ≡ is_listed fail.now call }
{
    fail.iter().any(|c| u64::from(*c) == call)
}

impl Calls {
    fn new(fail: Vec<u32>) -> Calls
        ensures { result ≡ record { fail = fail; calls = 0; faults = 0 } }
    {
        Calls {
            fail,
            calls: 0,
            faults: 0,
        }
    }

    /// Counts a call that begins now, and answers whether it is one of those that fail.
    fn begin(&mut self) -> bool
        ensures fails { result ≡ is_listed self.old.fail.items self.old.calls }
        ensures counted { self.new ≡ record self.old { calls = one_more self.old.calls } }
    {
        let call = self.calls;
        self.calls = call.saturating_add(1);
        is_listed(&self.fail, call)
    }

    /// Counts a failure.
    fn failed(&mut self) -> Failed
        ensures { self.new ≡ record self.old { faults = one_more self.old.faults } }
    {
        self.faults = self.faults.saturating_add(1);
        Failed
    }
}

/// A source over bytes in memory, which gives at most so many of them in a call and fails in the
/// calls of given numbers, counted from 0.
#[derive(Drop)]
pub struct MemSource {
    bytes: Vec<u8>,
    at: usize,
    piece: usize,
    calls: Calls,
}

impl Model for MemSource {
    ghost use Rattle.std.specs.Prelude.{◌≡◌, ◌<◌, ◌≤◌, [], drop, vec_len};
    ghost use Rattle.plural_bytes.specs.InMemory.{Supply};

    ghost Value = { Supply };

    ghost view = { λ s. record {
      left = drop s.at s.bytes.items;
      piece = s.piece;
      fail = s.calls.fail.items;
      calls = s.calls.calls;
      faults = s.calls.faults;
    } };

    ghost invariant = { λ s. (s.at ≤ vec_len s.bytes) × (0 < s.piece)
        × (s.calls.fail.items ≡ [] → s.calls.faults ≡ 0) };
}

impl MemSource {
    /// A source of these bytes, which gives at most `piece` of them in a call. The calls whose
    /// numbers, from 0, stand in `fail` fail.
    pub fn new(bytes: Vec<u8>, piece: usize, fail: Vec<u32>) -> MemSource
        requires { 1 ≤ piece }
        ensures { result ≡ record { left = bytes.items; piece = piece; fail = fail.items; calls = 0; faults = 0 } }
    {
        MemSource {
            bytes,
            at: 0,
            piece,
            calls: Calls::new(fail),
        }
    }
}

/// Gives at most `piece` of the bytes from `at` on.
fn give(bytes: &[u8], at: usize, piece: usize, into: &mut [u8]) -> usize
    requires at { at ≤ length bytes.now }
    requires piece { 0 < piece }
    ensures amount { result ≡ min (min piece (length into.new)) (length bytes.now - at) }
    ensures given { drop at bytes.now ≡ take result into.new ++ drop (at + result) bytes.now }
{
    let n = piece.min(into.len()).min(bytes.len() - at);
    into[..n].copy_from_slice(&bytes[at..at + n]);
    n
}

impl Source for MemSource {
    ghost left = { λ s. Some s.left };

    ghost faults = { λ s. s.faults };

    fn read(&mut self, into: &mut [u8]) -> Result<usize, Failed>
        ensures bound { ReadsAtMost result into.new }
        ensures bytes { Reads (Some self.old.left) (Some self.new.left) result into.new }
        ensures cause { HasCause self.old.faults self.new.faults result }
        ensures fails { IsErr result ↔ IsTrue (is_listed self.old.fail self.old.calls) }
        ensures amount { IfOk result (λ n. n ≡ min (min self.old.piece (length into.new)) (length self.old.left)) }
        ensures counted { self.new.calls ≡ one_more self.old.calls }
        ensures kept { (self.new.piece ≡ self.old.piece) × (self.new.fail ≡ self.old.fail) }
        ensures never { self.new.fail ≡ [] → self.new.faults ≡ 0 }
    {
        if self.calls.begin() {
            return Err(self.calls.failed());
        }
        let n = give(&self.bytes, self.at, self.piece, into);
        self.at += n;
        Ok(n)
    }
}

/// A sink into memory, which takes at most so many bytes in all and in a call and fails in the
/// calls of given numbers, counted from 0.
#[derive(Drop)]
pub struct MemSink {
    bytes: Vec<u8>,
    room: usize,
    piece: usize,
    calls: Calls,
}

impl Model for MemSink {
    ghost use Rattle.std.specs.Prelude.{◌≡◌, ◌<◌, ◌≤◌, vec_len, vec_capacity};
    ghost use Rattle.plural_bytes.specs.InMemory.{Drain};

    ghost Value = { Drain };

    ghost view = { λ s. record {
      holds = s.bytes.items;
      room = s.room;
      piece = s.piece;
      fail = s.calls.fail.items;
      calls = s.calls.calls;
      faults = s.calls.faults;
    } };

    ghost invariant = { λ s. (vec_len s.bytes ≤ s.room) × (s.room ≤ vec_capacity s.bytes) × (0 < s.piece) };
}

impl MemSink {
    /// An empty sink for at most `room` bytes, whose memory is taken here, and of which it takes at
    /// most `piece` in a call. The calls whose numbers, from 0, stand in `fail` fail, and so does a
    /// call that finds the room full.
    pub fn new(alloc: Global, room: usize, piece: usize, fail: Vec<u32>) -> Result<MemSink, Memory>
        requires { 1 ≤ piece }
        ensures { IfOk result (λ s. s ≡
            record { holds = []; room = room; piece = piece; fail = fail.items; calls = 0; faults = 0 }) }
    {
        let bytes = Vec::with_capacity(alloc, room)?;
        Ok(MemSink {
            bytes,
            room,
            piece,
            calls: Calls::new(fail),
        })
    }

    /// The bytes taken so far.
    pub fn bytes(&self) -> &[u8]
        ensures { result.now ≡ self.now.holds }
    {
        self.bytes.as_slice()
    }
}

/// Takes at most `piece` bytes, as far as there is room.
fn take(bytes: &mut Vec<u8>, room: usize, piece: usize, from: &[u8]) -> usize
    requires len { vec_len bytes.old ≤ room }
    requires capacity { room ≤ vec_capacity bytes.old }
    ensures amount { result ≡ min (min piece (length from.now)) (room - vec_len bytes.old) }
    ensures taken { bytes.new.items ≡ bytes.old.items ++ take result from.now }
    ensures len { vec_len bytes.new ≤ room }
    ensures capacity { room ≤ vec_capacity bytes.new }
{
    let n = piece.min(from.len()).min(room - bytes.len());
    match bytes.extend_from_slice(&from[..n]) {
        Ok(()) => n,
        Err(_) => unreachable!(),
    }
}

impl Sink for MemSink {
    ghost holds = { λ s. Some s.holds };

    ghost faults = { λ s. s.faults };

    fn write(&mut self, from: &[u8]) -> Result<usize, Failed>
        ensures bound { IfOk result (λ n. IsPart n from.now) }
        ensures bytes { Writes (Some self.old.holds) (Some self.new.holds) result from.now }
        ensures cause { HasCause self.old.faults self.new.faults result }
        ensures fails { IsErr result ↔ IsTrue (is_listed self.old.fail self.old.calls)
            ⊎ (self.old.room ≤ length self.old.holds) }
        ensures amount { IfOk result (λ n. n ≡
            min (min self.old.piece (length from.now)) (self.old.room - length self.old.holds)) }
        ensures refused { IsErr result → self.new.holds ≡ self.old.holds }
        ensures counted { self.new.calls ≡ one_more self.old.calls }
        ensures kept { (self.new.room ≡ self.old.room) × (self.new.piece ≡ self.old.piece)
            × (self.new.fail ≡ self.old.fail) }
    {
        if self.calls.begin() || self.bytes.len() == self.room {
            return Err(self.calls.failed());
        }
        Ok(take(&mut self.bytes, self.room, self.piece, from))
    }
}
