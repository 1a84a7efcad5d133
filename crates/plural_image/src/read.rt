//! Reading an image.

ghost use Rattle.std.specs.Prelude.{◌≡◌, ◌+◌, ◌<◌, ◌≤◌, ◌↔◌, length, IsTrue, MatchResult};
ghost use Rattle.plural_sections.specs.Faults.{IsFaultless};
ghost use Rattle.plural_bytes.specs.Spelled.{text_lines};
ghost use Rattle.plural_image.specs.Image.{IsMisplaced, Breaks, overwritten, image_of};
ghost use Rattle.plural_image.specs.Answer.{Faults};

use crate::fault::{ImageError, ImageKind};
use crate::shape::{ImageLine, line_of};
use plural_bytes::Line;
use std::alloc::Global;

/// Does a word of the line lie at `w` or above, or its first word below `floor`?
fn is_misplaced(line: &ImageLine, w: u32, floor: u32) -> bool
    ensures { IsTrue result ↔ IsMisplaced w floor (line.now.address, line.now.words.items) }
{
    line.address < floor || u64::from(line.address) + line.words.len() as u64 > u64::from(w)
}

/// Overwrites the words from an address on.
fn place(words: &mut [u32], address: u32, new: &[u32])
    requires { address + length new.now ≤ length words.old }
    ensures { words.new ≡ overwritten words.old address new.now }
{
    let start = address as usize;
    words[start..start + new.len()].copy_from_slice(new);
}

/// The image of `w` words that image lines spell, or their first fault. Words that no line names
/// are 0. The numbers of faulty lines are those of the lines that are handed in.
pub fn read_image(alloc: Global, lines: &[Line<'_>], w: u32) -> Result<Vec<u32>, ImageError>
    requires { w ≤ 1048576 }
    ensures { MatchResult result
        (λ v. IsFaultless (Breaks w) (text_lines lines.now) × (v.items ≡ image_of w (text_lines lines.now)))
        (λ e. Faults w (text_lines lines.now) e) }
{
    let mut words = vec![in alloc; 0; w as usize]?;
    let mut floor: u32 = 0;
    for line in lines {
        let found = match line_of(line.text) {
            Some(found) => found,
            None => {
                return Err(ImageError::At {
                    line: line.number,
                    kind: ImageKind::Form,
                });
            }
        };
        if is_misplaced(&found, w, floor) {
            return Err(ImageError::At {
                line: line.number,
                kind: ImageKind::Address,
            });
        }
        place(&mut words, found.address, &found.words);
        floor = found.address + found.words.len() as u32;
    }
    Ok(words)
}
