//! Rule 4: cores, and the intervals of each.
ghost use Rattle.std.specs.Prelude.{◌≡◌, ℕ, ◌*◌, ◌^◌, ◌<◌, ◌≤◌, None, length, slice_index_or, IfOk, IfSome};
ghost use Rattle.plural_trace.specs.declared.entry.Entry.{Entry};
ghost use Rattle.plural_trace.specs.Least.{least};
ghost use Rattle.plural_trace.specs.Rules.{breaks_cores, breaks_tickets, entry_at};
ghost use Rattle.plural_trace.specs.Busy.{is_busy_at, AreStarts, HasStarts};

use crate::entry::Entry;
use plural_base::Memory;
use std::alloc::Global;

/// At each ticket the entry, of the first m, that starts there; m if none does.
fn starts(alloc: Global, entries: &[Entry], m: usize) -> Result<Vec<usize>, Memory>
    requires few { length entries.now < 2 ^ 31 }
    requires m { m ≤ length entries.now }
    requires tickets { least (breaks_tickets entries.now) (length entries.now) ≡ None }
    ensures long { IfOk result (λ v. length v.items ≡ 2 * length entries.now) }
    ensures there { IfOk result (λ v. AreStarts entries.now m v.items) }
    ensures each { IfOk result (λ v. HasStarts entries.now m v.items) }
{
    let mut starts = vec![in alloc; m; 2 * entries.len()]?;
    for i in 0..m {
        starts[entries[i].start as usize] = i;
    }
    Ok(starts)
}

/// The first of the first m entries whose interval overlaps an earlier one of its core.
///
/// Of each core the entry that started last is known, by rising tickets. Entries that aren't before the first found no
/// longer count, and of the others no two of a core overlap, so that a new one can only meet the last.
fn busy_fault(
    alloc: Global,
    entries: &[Entry],
    m: usize,
    cores: usize,
) -> Result<Option<usize>, Memory>
    requires few { length entries.now < 2 ^ 31 }
    requires m { m ≤ length entries.now }
    requires tickets { least (breaks_tickets entries.now) (length entries.now) ≡ None }
    requires cores { (k : ℕ) (d : Entry) → k < m → (slice_index_or entries.now k d).core < cores }
    ensures least { IfOk result (λ o. o ≡ least (is_busy_at entries.now) m) }
    ensures within { IfOk result (λ o. IfSome o (λ i. i < m)) }
{
    let starts = starts(alloc, entries, m)?;
    let mut last = vec![in alloc; m; cores]?;
    let mut first = m;
    for ticket in 0..starts.len() {
        let i = starts[ticket];
        if i >= first {
            continue;
        }
        let core = entries[i].core as usize;
        let j = last[core];
        if j < first && entries[j].end_at >= entries[i].start {
            first = i.max(j);
            last[core] = i.min(j);
        } else {
            last[core] = i;
        }
    }
    if first < m { Ok(Some(first)) } else { Ok(None) }
}

/// The first entry whose core is no core, or the number of entries.
fn first_foreign(entries: &[Entry], cores: usize) -> usize
    ensures within { result ≤ length entries.now }
    ensures own { (k : ℕ) (d : Entry) → k < result → (slice_index_or entries.now k d).core < cores }
    ensures foreign { result < length entries.now → cores ≤ (entry_at entries.now result).core }
{
    for i in 0..entries.len() {
        if entries[i].core as usize >= cores {
            return i;
        }
    }
    entries.len()
}

/// The first entry whose core is no core, or whose interval overlaps an earlier one of its core.
pub(crate) fn core_fault(
    alloc: Global,
    entries: &[Entry],
    cores: usize,
) -> Result<Option<usize>, Memory>
    requires few { length entries.now < 2 ^ 31 }
    requires tickets { least (breaks_tickets entries.now) (length entries.now) ≡ None }
    ensures least { IfOk result (λ o. o ≡ least (breaks_cores cores entries.now) (length entries.now)) }
    ensures within { IfOk result (λ o. IfSome o (λ i. i < length entries.now)) }
{
    let m = first_foreign(entries, cores);
    if let Some(at) = busy_fault(alloc, entries, m, cores)? {
        return Ok(Some(at));
    }
    if m < entries.len() {
        return Ok(Some(m));
    }
    Ok(None)
}
