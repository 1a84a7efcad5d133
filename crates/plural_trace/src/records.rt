//! Rule 1: the instances of the serial run and their records.
ghost use Rattle.std.specs.Prelude.{◌≡◌, ◌+◌, ◌<◌, ◌≤◌, ◌^◌, All, length, true, false, slice_index, IfOk, IfNone, IfSome};
ghost use Rattle.std.specs.List.{list_all};
ghost use Rattle.plural_serial.specs.declared.record_.Record.{Record};
ghost use Rattle.plural_trace.specs.Least.{least};
ghost use Rattle.plural_trace.specs.Rules.{is_same_record, is_recorded, breaks_records};
ghost use Rattle.plural_trace.specs.Instances.{record_at, StandFrom, StandByInstance};

use crate::entry::Entry;
use plural_base::Memory;
use plural_serial::Record;
use std::alloc::Global;

fn is_same_record(a: &Record, b: &Record) -> bool
    ensures { result ≡ is_same_record a.now b.now }
{
    a == b
}

/// Where the records of each task begin; 0 for a task that has none.
fn begins(alloc: Global, records: &[Record], tasks: usize) -> Result<Vec<usize>, Memory>
    requires tasks { All (λ (r : Record). r.t < tasks) records.now }
    requires by_instance { StandByInstance records.now }
    ensures long { IfOk result (λ v. length v.items ≡ tasks) }
    ensures within { IfOk result (λ v. All (λ b. b ≤ length records.now) v.items) }
    ensures begins { IfOk result (λ v. StandFrom (λ t. slice_index v.items t) records.now) }
{
    let mut begins = vec![in alloc; 0usize; tasks]?;
    for i in 0..records.len() {
        begins[records[i].t as usize] = i - records[i].k as usize;
    }
    Ok(begins)
}

/// The place of a record among these, if it is one of them.
fn place_of(records: &[Record], begins: &[usize], rec: &Record) -> Option<usize>
    requires few { length records.now ≤ 65536 }
    requires tasks { All (λ (r : Record). r.t < length begins.now) records.now }
    requires within { All (λ b. b ≤ length records.now) begins.now }
    requires begins { StandFrom (λ t. slice_index begins.now t) records.now }
    ensures within { IfSome result (λ p. p < length records.now) }
    ensures same { IfSome result (λ p. is_same_record rec.now (record_at records.now p) ≡ true) }
    ensures none { IfNone result (is_recorded records.now rec.now ≡ false) }
{
    if rec.t as usize >= begins.len() {
        return None;
    }
    let place = begins[rec.t as usize] + rec.k as usize;
    if place < records.len() && is_same_record(rec, &records[place]) {
        Some(place)
    } else {
        None
    }
}

fn all_seen(seen: &[bool]) -> bool
    ensures { result ≡ list_all (λ s. s) seen.now }
{
    seen.iter().all(|s| *s)
}

/// The first entry that is of no instance of these records, or whose record differs, or whose instance an earlier
/// entry has; or the number of entries, if an instance is missing.
pub(crate) fn record_fault(
    alloc: Global,
    records: &[Record],
    entries: &[Entry],
    tasks: usize,
) -> Result<Option<usize>, Memory>
    requires few { length records.now ≤ 65536 }
    requires tasks { All (λ (r : Record). r.t < tasks) records.now }
    requires by_instance { StandByInstance records.now }
    requires few_entries { length entries.now < 2 ^ 31 }
    ensures least { IfOk result (λ o. o ≡ least (breaks_records records.now entries.now) (length entries.now + 1)) }
    ensures within { IfOk result (λ o. IfSome o (λ i. i ≤ length entries.now)) }
{
    let begins = begins(alloc, records, tasks)?;
    let mut seen = vec![in alloc; false; records.len()]?;
    for i in 0..entries.len() {
        match place_of(records, &begins, &entries[i].rec) {
            Some(place) if !seen[place] => seen[place] = true,
            _ => return Ok(Some(i)),
        }
    }
    if !all_seen(&seen) {
        return Ok(Some(entries.len()));
    }
    Ok(None)
}
