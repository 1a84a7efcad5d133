//! The text of an output.
ghost use Rattle.std.specs.Prelude.{◌≡◌, ◌<◌, ◌≤◌, ◌%◌, length, IfOk};
ghost use Rattle.std.specs.List.{All};
ghost use Rattle.plural_trace.specs.declared.entry.Entry.{Entry};
ghost use Rattle.plural_output.specs.Text.{output_text};

use plural_bytes::{Memory, put};
use plural_image::print_image;
use plural_log::print_log;
use plural_map::Map;
use plural_trace::Log;
use std::alloc::Global;

/// The output of a run of the map: its log, which has one outcome for each task and whose entries are of its tasks, and
/// the memory's words after it.
pub fn print_output(alloc: Global, map: &Map, log: &Log, image: &[u32]) -> Result<Vec<u8>, Memory>
    requires one_each { length log.now.outcomes ≡ length map.now.tasks }
    requires tasks { All (λ (e : Entry). e.rec.t < length map.now.tasks) log.now.entries }
    requires whole { length image.now % 8 ≡ 0 }
    requires small { length image.now ≤ 1048576 }
    ensures { IfOk result (λ v. v.items ≡ output_text map.now log.now image.now) }
{
    let mut out = print_log(alloc, map, log)?;
    let words = print_image(alloc, image)?;
    put(&mut out, b"[image]\n")?;
    put(&mut out, &words)?;
    put(&mut out, b"[end]\n")?;
    Ok(out)
}
