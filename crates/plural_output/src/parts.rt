//! The parts of a verifier's input.

ghost use Rattle.std.specs.Prelude.{◌≡◌, ◌+◌, ◌≤◌, drop, take, length, codes, position, bytes_eq};
ghost use Rattle.std.specs.List.{position_or_len, after_first};
ghost use Rattle.plural_bytes.specs.Spelled.{text_lines};
ghost use Rattle.plural_output.specs.Parts.{bundle_part, output_part};

use plural_bytes::{Line, is_word};

/// The content lines of a bundle, up to its `[end]`, and those of the output of a run after it.
#[derive(Clone, Copy)]
pub struct Parts<'a, 'b> {
    pub bundle: &'a [Line<'b>],
    pub output: &'a [Line<'b>],
}

fn find_end(lines: &[Line<'_>]) -> Option<usize>
    ensures { result ≡ position (λ l. bytes_eq l.text.now (codes "[end]")) lines.now }
{
    lines.iter().position(|l| is_word(l.text, b"[end]"))
}

/// How many lines stand up to the first that is the end of a bundle, with it; all if none is.
fn bundle_len(lines: &[Line<'_>]) -> usize
    ensures bundle { take result lines.now
        ≡ take (position_or_len (λ l. bytes_eq l.text.now (codes "[end]")) lines.now + 1) lines.now }
    ensures output { drop result lines.now ≡ after_first (λ l. bytes_eq l.text.now (codes "[end]")) lines.now }
    ensures few { result ≤ length lines.now }
{
    match find_end(lines) {
        Some(n) => n + 1,
        None => lines.len(),
    }
}

/// Cuts the content lines of a verifier's input after the first that is `[end]`. If none is, all are the bundle's.
pub fn split_parts<'a, 'b>(lines: &'a [Line<'b>]) -> Parts<'a, 'b>
    ensures bundle { text_lines result.bundle.now ≡ bundle_part (text_lines lines.now) }
    ensures output { text_lines result.output.now ≡ output_part (text_lines lines.now) }
{
    let n = bundle_len(lines);
    Parts {
        bundle: &lines[..n],
        output: &lines[n..],
    }
}
