//! Rule 5: rising starts.
ghost use Rattle.std.specs.Prelude.{◌≡◌, ◌<◌, length, IfSome};
ghost use Rattle.plural_trace.specs.Least.{least};
ghost use Rattle.plural_trace.specs.Rules.{breaks_rise};

use crate::entry::Entry;

/// Whether the entry doesn't start after the one before it.
fn is_early(entries: &[Entry], i: usize) -> bool
    requires { i < length entries.now }
    ensures { result ≡ breaks_rise entries.now i }
{
    if i == 0 {
        return false;
    }
    entries[i - 1].start >= entries[i].start
}

/// The first entry that doesn't start after the one before it.
pub(crate) fn rise_fault(entries: &[Entry]) -> Option<usize>
    ensures least { result ≡ least (breaks_rise entries.now) (length entries.now) }
    ensures within { IfSome result (λ i. i < length entries.now) }
{
    for i in 0..entries.len() {
        if is_early(entries, i) {
            return Some(i);
        }
    }
    None
}
