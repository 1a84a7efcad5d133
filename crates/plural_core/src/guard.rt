//! The guard of loads and stores.
ghost use Rattle.std.specs.Prelude.{◌≡◌, ◌<◌, ◌&&◌, ℕ, true, false, is_some, IfSome};
ghost use Rattle.plural_regions.specs.Rights.{may_read, may_write};
ghost use Rattle.plural_core.specs.Recent.{Passes, IsRecent};

use plural_regions::{Mode, Region, Window};

/// The words that an instance has of the regions that its last accesses used: of the last two that it loaded from, and
/// of the last that it stored to. They are tried before the regions.
#[derive(Clone, Copy)]
pub struct Recent {
    pub read: Window,
    pub other: Window,
    pub write: Window,
}

impl Recent {
    /// No region was used yet: windows without a word.
    #[inline(always)]
    pub(crate) fn none() -> Recent
        ensures { (regions : _) (k : ℕ) → IsRecent regions k result }
    {
        let window = Window { first: 0, past: 0 };
        Recent {
            read: window,
            other: window,
            write: window,
        }
    }
}

/// The first region that has word `a`.
fn readable(regions: &[Region], k: u32, a: u32) -> Option<Window>
    ensures window { IfSome result (Passes (may_read regions.now k)) }
    ensures found { is_some result ≡ may_read regions.now k a }
{
    for i in 0..regions.len() {
        if regions[i].contains(k, a) {
            return Some(regions[i].window(k));
        }
    }
    None
}

/// The first write region that has word `a`.
fn writable(regions: &[Region], k: u32, a: u32) -> Option<Window>
    ensures window { IfSome result (Passes (may_write regions.now k)) }
    ensures found { is_some result ≡ may_write regions.now k a }
{
    for i in 0..regions.len() {
        if regions[i].mode == Mode::Write && regions[i].contains(k, a) {
            return Some(regions[i].window(k));
        }
    }
    None
}

/// The guard of a load: whether some region has the word.
#[inline(always)]
pub(crate) fn may_read(regions: &[Region], recent: &mut Recent, k: u32, a: u32) -> bool
    requires recent { IsRecent regions.now k recent.old }
    ensures test { result ≡ may_read regions.now k a }
    ensures recent { IsRecent regions.now k recent.new }
{
    if recent.read.has(a) {
        return true;
    }
    if recent.other.has(a) {
        return true;
    }
    match readable(regions, k, a) {
        Some(window) => {
            recent.other = recent.read;
            recent.read = window;
            true
        }
        None => false,
    }
}

/// The guard of a store: whether some write region has the word.
#[inline(always)]
pub(crate) fn may_write(regions: &[Region], recent: &mut Recent, k: u32, a: u32) -> bool
    requires recent { IsRecent regions.now k recent.old }
    ensures test { result ≡ may_write regions.now k a }
    ensures recent { IsRecent regions.now k recent.new }
{
    if recent.write.has(a) {
        return true;
    }
    match writable(regions, k, a) {
        Some(window) => {
            recent.write = window;
            true
        }
        None => false,
    }
}
