//! Reading a bundle.

ghost use Rattle.std.specs.Prelude.{◌≡◌, ◌≤◌, ◌%◌, ◌⊎◌, length, Ok, MatchResult, IsErrAnd, IfOk};
ghost use Rattle.plural_sections.specs.declared.line_error.LineError.TheVariants.{At};
ghost use Rattle.plural_map_text.specs.declared.fault.MapKind.TheVariants.{Cycle};
ghost use Rattle.plural_map_text.specs.Rules as map_rules;
ghost use Rattle.plural_map_text.specs.Parts.{map_of};
ghost use Rattle.plural_asm.specs.Labels.{names_of};
ghost use Rattle.plural_bytes.specs.Spelled.{text_lines};
ghost use Rattle.plural_serial.specs.Program.{IsProgram};
ghost use Rattle.plural_bundle.specs.Value.{bundle_of};
ghost use Rattle.plural_bundle.specs.Answer.{IsBundle, Faults, IsMapTold};

use crate::bundle::Bundle;
use crate::fault::BundleError;
use crate::first_line::after_first_line;
use crate::program::program;
use plural_asm::{assemble, names};
use plural_bytes::Line;
use plural_image::read_image;
use plural_map::{Map, Names};
use plural_map_text::{MapError, MapKind, parse};
use plural_sections::{
    Fault, after_header, first_number, next_section, nothing_after, renamed, section_of,
};
use std::alloc::Global;

fn cycle_error(line: u32, names: Names, rest: &[Line<'_>], end: u32) -> BundleError
    ensures { IsMapTold (text_lines rest.now) end (At line (Cycle names)) result }
{
    match after_header(rest, b"[kernels]", end) {
        Err(missing) => missing,
        Ok(_) => BundleError::At {
            line,
            kind: Fault::Cycle { names },
        },
    }
}

/// What an error of the map lines is in the bundle: where the map has a cycle and another line stands in the place of
/// the header of the kernels, this line has a fault of form, which is told.
fn map_error(error: MapError, rest: &[Line<'_>], end: u32) -> BundleError
    ensures { IsMapTold (text_lines rest.now) end error result }
{
    match error {
        MapError::Memory => BundleError::Memory,
        MapError::At { line, kind } => match kind {
            MapKind::Cycle { names } => cycle_error(line, names, rest, end),
            other => BundleError::At {
                line,
                kind: Fault::from(other),
            },
        },
    }
}

/// The map that map lines spell whose entries are labels of kernel lines, or their first fault. The list of
/// these labels is dropped with the answer.
fn parse_map(
    alloc: Global,
    lines: &[Line<'_>],
    kernels: &[Line<'_>],
    end: u32,
    version: u32,
) -> Result<Map, MapError>
    requires { (version ≡ 1) ⊎ (version ≡ 2) }
    ensures { MatchResult result
        (λ m. map_rules.IsMapText version (names_of (text_lines kernels.now)) (text_lines lines.now) end
        × (m ≡ map_of (text_lines lines.now)))
        (λ e. map_rules.Faults version (names_of (text_lines kernels.now)) (text_lines lines.now) end e) }
{
    let labels = names(alloc, kernels)?;
    parse(alloc, lines, &labels, end, version)
}

/// The map that was read, or what its error is in the bundle.
fn map_read(given: Result<Map, MapError>, rest: &[Line<'_>], end: u32) -> Result<Map, BundleError>
    ensures { MatchResult result (λ m. given ≡ Ok m)
        (λ error. IsErrAnd given (λ e. IsMapTold (text_lines rest.now) end e error)) }
{
    match given {
        Ok(map) => Ok(map),
        Err(error) => Err(map_error(error, rest, end)),
    }
}

/// The program and the image that the content lines of a bundle spell, or their first fault. The
/// names that an entry may be are those at the label positions of the kernel lines of `input`, which
/// are the content lines of the whole text that the bundle stands in: its own if nothing follows it.
/// `end` is the number of the line that a text which ends too early is charged to.
pub fn read_bundle(
    alloc: Global,
    input: &[Line<'_>],
    lines: &[Line<'_>],
    end: u32,
) -> Result<Bundle, BundleError>
    ensures answer { MatchResult result
        (λ b. IsBundle (text_lines input.now) (text_lines lines.now) end × (b ≡ bundle_of (text_lines lines.now)))
        (Faults (text_lines input.now) (text_lines lines.now) end) }
    ensures program { IfOk result (λ b. IsProgram b.program) }
    ensures image { IfOk result (λ b. length b.image ≡ b.program.map.words) }
    ensures whole { IfOk result (λ b. length b.image % 8 ≡ 0) }
    ensures small { IfOk result (λ b. length b.image ≤ 1048576) }
{
    let begun = after_first_line(lines, end)?;
    let map = next_section(after_header(begun.rest, b"[map]", end)?);
    let closing = first_number(map.rest, end);
    let labelled = section_of(input, b"[kernels]");
    let parsed = parse_map(alloc, map.lines, labelled, closing, begun.version);
    let tasks = map_read(parsed, map.rest, end)?;
    let kernels = next_section(after_header(map.rest, b"[kernels]", end)?);
    let object = renamed(assemble(alloc, kernels.lines))?;
    let image = next_section(after_header(kernels.rest, b"[image]", end)?);
    let words = renamed(read_image(alloc, image.lines, tasks.words()))?;
    nothing_after(after_header(image.rest, b"[end]", end)?)?;
    let program = program(alloc, tasks, object)?;
    Ok(Bundle {
        program,
        image: words,
    })
}
