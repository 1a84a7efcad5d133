//! Rule 2: tickets.
ghost use Rattle.std.specs.Prelude.{◌≡◌, ◌*◌, ◌<◌, ◌^◌, length, IfOk, IfSome};
ghost use Rattle.plural_trace.specs.Least.{least};
ghost use Rattle.plural_trace.specs.Marks.{is_misdrawn};
ghost use Rattle.plural_trace.specs.Rules.{breaks_tickets};

use crate::entry::Entry;
use plural_base::Memory;
use std::alloc::Global;

/// Whether the tickets are no interval below the limit, or one is marked.
fn is_fault(drawn: &[bool], entry: &Entry, limit: usize) -> bool
    requires { length drawn.now ≡ limit }
    ensures { result ≡ is_misdrawn drawn.now entry.now limit }
{
    let start = entry.start as usize;
    let end_at = entry.end_at as usize;
    if start >= end_at {
        return true;
    }
    if end_at >= limit {
        return true;
    }
    if drawn[start] {
        return true;
    }
    drawn[end_at]
}

/// The first entry whose tickets are no interval below twice the number of entries, or were drawn before.
pub(crate) fn ticket_fault(alloc: Global, entries: &[Entry]) -> Result<Option<usize>, Memory>
    requires few { length entries.now < 2 ^ 31 }
    ensures least { IfOk result (λ o. o ≡ least (breaks_tickets entries.now) (length entries.now)) }
    ensures within { IfOk result (λ o. IfSome o (λ i. i < length entries.now)) }
{
    let n = entries.len();
    let mut drawn = vec![in alloc; false; 2 * n]?;
    for i in 0..n {
        if is_fault(&drawn, &entries[i], 2 * n) {
            return Ok(Some(i));
        }
        drawn[entries[i].start as usize] = true;
        drawn[entries[i].end_at as usize] = true;
    }
    Ok(None)
}
