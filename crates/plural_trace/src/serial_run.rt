//! The log of a serial run.
ghost use Rattle.std.specs.Prelude.{◌≡◌, ◌<◌, ◌≤◌, ◌*◌, ◌+◌, ◌^◌, length, IfOk};
ghost use Rattle.plural_trace.specs.SerialLog.{serial_entry, serial_entries, serial_log};

use crate::entry::Entry;
use crate::log::Log;
use plural_base::Memory;
use plural_serial::{Answer, Record};
use std::alloc::Global;

fn serial_entry(i: u32, rec: &Record) -> Entry
    requires { i < 2 ^ 31 }
    ensures { result ≡ serial_entry i rec.now }
{
    Entry {
        rec: *rec,
        core: 0,
        start: 2 * i,
        end_at: 2 * i + 1,
    }
}

fn serial_entries(alloc: Global, records: &[Record]) -> Result<Vec<Entry>, Memory>
    requires { length records.now ≤ 65536 }
    ensures { IfOk result (λ v. v.items ≡ serial_entries 0 records.now) }
{
    let mut entries = Vec::new(alloc);
    for (i, rec) in records.iter().enumerate() {
        entries.push(serial_entry(i as u32, rec))?;
    }
    Ok(entries)
}

/// The log of a serial run: one core, the outcomes, and for the i-th record from 0 an entry on core 0 with the tickets
/// 2i and 2i + 1.
pub fn serial_log(alloc: Global, answer: &Answer) -> Result<Log, Memory>
    requires { length answer.now.records ≤ 65536 }
    ensures { IfOk result (λ log. log ≡ serial_log answer.now) }
{
    let outcomes = Vec::from_slice(alloc, answer.outcomes())?;
    let entries = serial_entries(alloc, answer.records())?;
    Ok(Log::of(1, outcomes, entries))
}
