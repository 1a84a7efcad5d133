//! Sets of task numbers.
ghost use Rattle.std.specs.Prelude.{◌≡◌, ◌<◌, ℕ, ◌==◌, ◌||◌, ◌&&◌, ◌↔◌, IsTrue, true, false};
ghost use Rattle.std.specs.Int.{bit_at};

/// A set of numbers below 256, one bit for each.
#[derive(Clone, Copy)]
pub struct TaskSet {
    low: u128,
    high: u128,
}

/// Whether two numbers have a bit in common.
fn shares(a: u128, b: u128) -> bool
    ensures some { IsTrue result → (i : ℕ) × (i < 128) × (bit_at a i ≡ 1) × (bit_at b i ≡ 1) }
    ensures all { (i : ℕ) → bit_at a i ≡ 1 → bit_at b i ≡ 1 → IsTrue result }
{
    a & b != 0
}

impl TaskSet {
    ghost use Rattle.plural_reach.specs.Sets.{has};

    /// No number.
    pub(crate) fn empty() -> TaskSet
        ensures { (u : ℕ) → has result u ≡ false }
    {
        TaskSet { low: 0, high: 0 }
    }

    /// Whether `t` is in the set.
    pub(crate) fn has(&self, t: u32) -> bool
        requires { t < 256 }
        ensures { result ≡ has self.now t }
    {
        if t < 128 {
            (self.low >> t) & 1 == 1
        } else {
            (self.high >> (t - 128)) & 1 == 1
        }
    }

    /// The set with `t`.
    pub(crate) fn with(self, t: u32) -> TaskSet
        requires { t < 256 }
        ensures { (u : ℕ) → has result u ≡ (t == u || has self u) }
    {
        if t < 128 {
            TaskSet {
                low: self.low | 1 << t,
                high: self.high,
            }
        } else {
            TaskSet {
                low: self.low,
                high: self.high | 1 << (t - 128),
            }
        }
    }

    /// The numbers of one of the sets or of both.
    pub(crate) fn or(self, other: TaskSet) -> TaskSet
        ensures { (u : ℕ) → has result u ≡ (has self u || has other u) }
    {
        TaskSet {
            low: self.low | other.low,
            high: self.high | other.high,
        }
    }

    /// The numbers of both sets.
    pub(crate) fn and(self, other: TaskSet) -> TaskSet
        ensures { (u : ℕ) → has result u ≡ (has self u && has other u) }
    {
        TaskSet {
            low: self.low & other.low,
            high: self.high & other.high,
        }
    }

    /// Whether some number is in both sets.
    pub(crate) fn meets(&self, other: &TaskSet) -> bool
        ensures { IsTrue result ↔ ((u : ℕ) × (has self.now u ≡ true) × (has other.now u ≡ true)) }
    {
        shares(self.low, other.low) || shares(self.high, other.high)
    }
}
