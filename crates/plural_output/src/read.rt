//! Reading an output.

ghost use Rattle.std.specs.Prelude.{◌≡◌, ◌<◌, ◌≤◌, length, MatchResult, IfOk};
ghost use Rattle.std.specs.List.{All};
ghost use Rattle.plural_bytes.specs.Spelled.{text_lines};
ghost use Rattle.plural_trace.specs.declared.entry.Entry.{Entry};
ghost use Rattle.plural_output.specs.Value.{output_of};
ghost use Rattle.plural_output.specs.Answer.{IsOutput, Faults};

use crate::fault::OutputError;
use crate::output::Output;
use plural_bytes::Line;
use plural_image::read_image;
use plural_log::read_log;
use plural_map::Map;
use plural_sections::{after_header, first_number, next_section, nothing_after, renamed};
use std::alloc::Global;

/// The log and the memory that the content lines of an output of a run of the map spell, or their first fault. `end` is
/// the number of the line that a text which ends too early is charged to.
pub fn read_output(
    alloc: Global,
    map: &Map,
    lines: &[Line<'_>],
    end: u32,
) -> Result<Output, OutputError>
    ensures answer { MatchResult result
        (λ o. IsOutput map.now.tasks map.now.words (text_lines lines.now) end
        × (o ≡ output_of map.now.tasks map.now.words (text_lines lines.now)))
        (Faults map.now.tasks map.now.words (text_lines lines.now) end) }
    ensures image { IfOk result (λ o. length o.image ≡ map.now.words) }
    ensures one_each { IfOk result (λ o. length o.log.outcomes ≡ length map.now.tasks) }
    ensures few { IfOk result (λ o. length o.log.entries ≤ 65536) }
    ensures tasks { IfOk result (λ o. All (λ (e : Entry). e.rec.t < length map.now.tasks) o.log.entries) }
{
    let section = next_section(lines);
    let closing = first_number(section.rest, end);
    let log = renamed(read_log(alloc, map, section.lines, closing))?;
    let section = next_section(after_header(section.rest, b"[image]", end)?);
    let image = renamed(read_image(alloc, section.lines, map.words()))?;
    let rest = after_header(section.rest, b"[end]", end)?;
    nothing_after(rest)?;
    Ok(Output { log, image })
}
