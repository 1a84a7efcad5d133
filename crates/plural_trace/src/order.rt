//! Rule 3: the order of tasks.
ghost use Rattle.std.specs.Prelude.{◌≡◌, ℕ, ◌+◌, ◌<◌, ◌≤◌, All, slice_index, length, IfOk, IfSome};
ghost use Rattle.plural_reach.specs.Tables.{says_before};
ghost use Rattle.plural_trace.specs.declared.entry.Entry.{Entry};
ghost use Rattle.plural_trace.specs.Least.{IsLeast};
ghost use Rattle.plural_trace.specs.Rules.{BreaksOrder};
ghost use Rattle.plural_trace.specs.Ends.{latest_end, latest_before, AreLatestBefore, AreLeastStarts};

use crate::entry::Entry;
use plural_base::Memory;
use plural_map::Map;
use plural_reach::{Reach, reach};
use std::alloc::Global;

/// Of each task the latest end of its entries, plus one.
fn latest_ends(alloc: Global, entries: &[Entry], tasks: usize) -> Result<Vec<u64>, Memory>
    requires tasks { All (λ (e : Entry). e.rec.t < tasks) entries.now }
    ensures long { IfOk result (λ v. length v.items ≡ tasks) }
    ensures ends { IfOk result (λ v. (t : ℕ) → t < tasks → slice_index v.items t ≡ latest_end t entries.now) }
{
    let mut ends = vec![in alloc; 0u64; tasks]?;
    for i in 0..entries.len() {
        let t = entries[i].rec.t as usize;
        let end = entries[i].end_at as u64 + 1;
        ends[t] = ends[t].max(end);
    }
    Ok(ends)
}

/// The latest end, plus one, of the tasks before u.
fn bound(reach: &Reach, ends: &[u64], u: u32) -> u64
    requires u { u < 256 }
    requires few { length ends.now ≤ 256 }
    ensures { result ≡ latest_before (says_before reach.now) u ends.now (length ends.now) }
{
    let mut latest = 0u64;
    for t in 0..ends.len() {
        if reach.before(t as u32, u) {
            latest = latest.max(ends[t]);
        }
    }
    latest
}

/// The bound of each task.
fn bounds(alloc: Global, reach: &Reach, ends: &[u64]) -> Result<Vec<u64>, Memory>
    requires few { length ends.now ≤ 256 }
    ensures long { IfOk result (λ v. length v.items ≡ length ends.now) }
    ensures bounds { IfOk result (λ v. AreLatestBefore (says_before reach.now) ends.now v.items) }
{
    let mut bounds = vec![in alloc; 0u64; ends.len()]?;
    for u in 0..ends.len() {
        bounds[u] = bound(reach, ends, u as u32);
    }
    Ok(bounds)
}

/// Of each task the least start that its entries may have.
fn least_starts(alloc: Global, entries: &[Entry], map: &Map) -> Result<Vec<u64>, Memory>
    requires tasks { All (λ (e : Entry). e.rec.t < length map.now.tasks) entries.now }
    ensures long { IfOk result (λ v. length v.items ≡ length map.now.tasks) }
    ensures exact { IfOk result (λ v. AreLeastStarts map.now.tasks entries.now v.items) }
{
    let ends = latest_ends(alloc, entries, map.tasks().len())?;
    bounds(alloc, &reach(map), &ends)
}

/// The first entry that doesn't start after each end of the tasks that come before its own.
pub(crate) fn order_fault(
    alloc: Global,
    entries: &[Entry],
    map: &Map,
) -> Result<Option<usize>, Memory>
    requires { All (λ (e : Entry). e.rec.t < length map.now.tasks) entries.now }
    ensures least { IfOk result (λ o. IsLeast (BreaksOrder map.now.tasks entries.now) (length entries.now) o) }
    ensures within { IfOk result (λ o. IfSome o (λ i. i < length entries.now)) }
{
    let least = least_starts(alloc, entries, map)?;
    for i in 0..entries.len() {
        if (entries[i].start as u64) < least[entries[i].rec.t as usize] {
            return Ok(Some(i));
        }
    }
    Ok(None)
}
