//! What can fail without any fault of an input: memory, where bytes come from, where they go.

ghost use Rattle.std.specs.Prelude.{◌<◌, List, ℕ, Option, IfOk};
ghost use Rattle.std.specs.Io.{ReadsAtMost};
ghost use Rattle.plural_bytes.specs.Causes.{HasCause};
ghost use Rattle.plural_bytes.specs.Streams.{Reads, Writes, IsPart};

/// A source or a sink failed in this call.
#[derive(Clone, Copy, Debug, PartialEq, Eq)]
pub struct Failed;

/// Where bytes come from.
pub trait Source {
    /// The bytes still to come, `None` if the source doesn't tell them.
    ghost left: { Self → Option (List ℕ) };

    /// How often it has failed: a u64 that never falls and stays at its last value.
    ghost faults: { Self → ℕ };

    /// Fills a prefix of `into` with the next bytes, and answers how many. None come for an `into`
    /// that isn't empty only at the end. A call that fails takes nothing.
    fn read(&mut self, into: &mut [u8]) -> Result<usize, Failed>
        ensures bound { ReadsAtMost result into.new }
        ensures bytes { Reads (left self.old) (left self.new) result into.new }
        ensures cause { HasCause (faults self.old) (faults self.new) result };
}

/// Where bytes go.
pub trait Sink {
    /// The bytes taken so far, `None` if the sink doesn't tell them.
    ghost holds: { Self → Option (List ℕ) };

    /// How often it has failed: a u64 that never falls and stays at its last value.
    ghost faults: { Self → ℕ };

    /// Takes a prefix of `from`, and answers its length: at least 1 if `from` isn't empty. A call
    /// that fails has taken some prefix, which may be empty.
    fn write(&mut self, from: &[u8]) -> Result<usize, Failed>
        ensures bound { IfOk result (λ n. IsPart n from.now) }
        ensures bytes { Writes (holds self.old) (holds self.new) result from.now }
        ensures cause { HasCause (faults self.old) (faults self.new) result };
}
