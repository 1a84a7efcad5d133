//! One affine region.
ghost use Rattle.std.specs.Prelude.{◌≤◌};

use crate::window::Window;
use std::default::Default;

/// What a region lets an instance do.
#[derive(Clone, Copy, Debug, PartialEq, Eq)]
pub enum Mode {
    /// Load its words.
    Read,
    /// Load and store its words.
    Write,
}

/// A run of words for each instance of a task, in words from 0: instance k has the words from
/// `base + stride * k` up to `base + stride * k + count - 1`.
///
/// Base and stride are at most 1,048,575, and the count is from 1 to 1,048,576.
#[derive(Clone, Copy, Debug, PartialEq, Eq)]
pub struct Region {
    /// What an instance may do with the words.
    pub mode: Mode,
    /// The first word of instance 0.
    pub base: u32,
    /// How many words lie from the first word of one instance to that of the next.
    pub stride: u32,
    /// How many words each instance has.
    pub count: u32,
    pub ghost base_limit: { base ≤ 1048575 },
    pub ghost stride_limit: { stride ≤ 1048575 },
    pub ghost nonempty: { 1 ≤ count },
    pub ghost count_limit: { count ≤ 1048576 },
}

/// The region of the one word 0 for every instance, read alone: the blank of a fixed list.
impl Default for Region {
    ghost use Rattle.std.specs.Prelude.{◌≡◌};
    ghost use Rattle.plural_regions.specs.declared.region.Mode.TheVariants as mode;

    fn default() -> Region
        ensures mode { result.mode ≡ mode.Read }
        ensures base { result.base ≡ 0 }
        ensures stride { result.stride ≡ 0 }
        ensures count { result.count ≡ 1 }
    {
        Region {
            mode: Mode::Read,
            base: 0,
            stride: 0,
            count: 1,
        }
    }
}

/// The least instance that has a word past the memory.
#[derive(Clone, Copy, Debug, PartialEq, Eq)]
pub struct Outside {
    /// The instance's number, from 0.
    pub k: u32,
}

impl Region {
    ghost use Rattle.std.specs.Prelude.{◌≡◌, ◌+◌, ◌*◌, ◌<◌, ◌↔◌, ℕ, IsTrue, IfOk, IfErr, IfSome, IfNone};
    ghost use Rattle.plural_regions.specs.Rights.{IsIn, is_in};
    ghost use Rattle.plural_regions.specs.Windows.{window_of};
    ghost use Rattle.plural_regions.specs.Bounds.{IsInside, IsOutside, AllInside, IsLeastOutside};

    /// Whether word `a` is a word of instance `k`.
    #[inline(always)]
    pub fn contains(&self, k: u32, a: u32) -> bool
        ensures member { IsTrue result ↔ IsIn self.now k a }
        ensures test { result ≡ is_in self.now k a }
    {
        self.spans(k, a)
    }

    /// The first word of instance `k`.
    #[inline(always)]
    pub(crate) fn start(&self, k: u32) -> u64
        ensures { result ≡ self.now.base + self.now.stride * k }
    {
        u64::from(self.base) + u64::from(self.stride) * u64::from(k)
    }

    /// The words of instance `k`.
    #[inline(always)]
    pub fn window(&self, k: u32) -> Window
        ensures { result ≡ window_of k self.now }
    {
        let first = self.start(k);
        Window {
            first,
            past: first + u64::from(self.count),
        }
    }

    /// Whether word `a` lies from the first word of instance `k` to the last.
    #[inline(always)]
    fn spans(&self, k: u32, a: u32) -> bool
        ensures { result ≡ is_in self.now k a }
    {
        let start = self.start(k);
        start <= u64::from(a) && u64::from(a) < start + u64::from(self.count)
    }

    /// Whether all words of the instances below `q` lie in a memory of `w` words; if not, the least
    /// instance that has a word at `w` or above.
    pub fn inside(&self, q: u32, w: u32) -> Result<(), Outside>
        ensures inside { IfOk result (λ _. AllInside self.now q w) }
        ensures outside { IfErr result (λ o. IsLeastOutside self.now q w o.k) }
    {
        match self.first_outside(w) {
            Some(k) if k < q => Err(Outside { k }),
            _ => Ok(()),
        }
    }

    /// The least of all instances that has a word at `w` or above.
    pub(crate) fn first_outside(&self, w: u32) -> Option<u32>
        ensures outside { IfSome result (λ k. IsOutside self.now k w × AllInside self.now k w) }
        ensures inside { IfNone result ((k : ℕ) → IsInside self.now k w) }
    {
        let end = self.base + self.count;
        if w < end {
            Some(0)
        } else if self.stride == 0 {
            None
        } else {
            Some((w - end) / self.stride + 1)
        }
    }
}
