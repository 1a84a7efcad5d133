//! A region as one instance has it.
ghost use Rattle.std.specs.Prelude.{◌≡◌};
ghost use Rattle.plural_regions.specs.Windows.{has};

/// The words from `first` up to, and without, `past`, in words from 0.
#[derive(Clone, Copy, Debug, PartialEq, Eq)]
pub struct Window {
    /// The first word.
    pub first: u64,
    /// The word after the last.
    pub past: u64,
}

impl Window {
    /// Whether word `a` is one of them.
    #[inline(always)]
    pub fn has(&self, a: u32) -> bool
        ensures { result ≡ has self.now a }
    {
        self.first <= u64::from(a) && u64::from(a) < self.past
    }
}
