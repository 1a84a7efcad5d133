//! Printing an image.

ghost use Rattle.std.specs.Prelude.{◌≡◌, ◌<◌, ◌≤◌, ◌%◌, ◌++◌, ◌∷◌, length, flat_map, OnOk, IfOk, ◌==◌};
ghost use Rattle.std.specs.List.{list_all};
ghost use Rattle.plural_bytes.specs.Hexadecimal.{hex_text};
ghost use Rattle.plural_image.specs.Print.{row_lines, image_text};

use plural_bytes::{Memory, hex};
use std::alloc::Global;

/// Puts a space and the digits of each word after the text.
fn put_words(out: &mut Vec<u8>, words: &[u32]) -> Result<(), Memory>
    ensures { OnOk result (out.new.items ≡ out.old.items ++ flat_map (λ w. 32 ∷ hex_text 8 w) words.now) }
{
    for w in words {
        out.push(b' ')?;
        out.extend_from_slice(&hex(*w))?;
    }
    Ok(())
}

fn is_zero(words: &[u32]) -> bool
    ensures { result ≡ list_all (λ w. w == 0) words.now }
{
    words.iter().all(|w| *w == 0)
}

/// Puts the line of a row after the text, if one of its words isn't 0.
fn put_row(out: &mut Vec<u8>, address: u32, words: &[u32]) -> Result<(), Memory>
    ensures { OnOk result (out.new.items ≡ out.old.items ++ row_lines address words.now) }
{
    if is_zero(words) {
        return Ok(());
    }
    out.extend_from_slice(&hex(address))?;
    out.push(b':')?;
    put_words(out, words)?;
    out.push(b'\n')?;
    Ok(())
}

/// The lines of an image: eight words each, at rising addresses that are multiples of 8, counted in
/// words. Rows whose eight words are all 0 are left out.
pub fn print_image(alloc: Global, image: &[u32]) -> Result<Vec<u8>, Memory>
    requires whole { length image.now % 8 ≡ 0 }
    requires small { length image.now ≤ 1048576 }
    ensures { IfOk result (λ v. v.items ≡ image_text image.now) }
{
    let mut out = Vec::new(alloc);
    for r in 0..image.len() / 8 {
        put_row(&mut out, 8 * r as u32, &image[8 * r..8 * r + 8])?;
    }
    Ok(out)
}
