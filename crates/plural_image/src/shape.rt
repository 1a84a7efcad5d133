//! The shape of an image line.

ghost use Rattle.std.specs.Prelude.{◌≡◌, ◌<◌, option_map};
ghost use Rattle.plural_bytes.specs.Lines.{tokens};
ghost use Rattle.plural_image.specs.Shape.{address_token, one_to_eight, image_line};

use arrayvec::ArrayVec;
use plural_bytes::next_token;
use plural_sections::word_of;

/// What an image line says.
#[derive(Drop)]
pub(crate) struct ImageLine {
    /// The address of the first word, counted in words.
    pub address: u32,
    /// The words from there on, one to eight.
    pub words: ArrayVec<u32, 8>,
}

/// The address that a token of eight hexadecimal digits and a colon spells.
pub(crate) fn address_of(token: &[u8]) -> Option<u32>
    ensures { result ≡ address_token token.now }
{
    if token.len() == 9 && token[8] == b':' {
        word_of(&token[..8])
    } else {
        None
    }
}

/// The words that the tokens of a text spell, if they are one to eight.
pub(crate) fn words_of(text: &[u8]) -> Option<ArrayVec<u32, 8>>
    ensures { option_map (λ v. v.items) result ≡ one_to_eight (tokens text.now) }
{
    let mut words = ArrayVec::new();
    let mut rest = text;
    while let Some((token, after)) = next_token(rest) {
        if words.is_full() {
            return None;
        }
        match word_of(token) {
            None => return None,
            Some(word) => words.push(word),
        }
        rest = after;
    }
    if words.is_empty() { None } else { Some(words) }
}

/// What the content of a line says, if it is an image line.
pub(crate) fn line_of(text: &[u8]) -> Option<ImageLine>
    ensures { option_map (λ l. (l.address, l.words.items)) result ≡ image_line text.now }
{
    let (token, rest) = next_token(text)?;
    let address = address_of(token)?;
    let words = words_of(rest)?;
    Some(ImageLine { address, words })
}
