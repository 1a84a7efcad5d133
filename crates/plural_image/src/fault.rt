//! What is wrong with image lines.

ghost use Rattle.std.specs.Prelude.{◌≡◌};
ghost use Rattle.plural_image.specs.Kinds.{image_fault};

use plural_sections::{Fault, LineError};

/// What is wrong with an image line. Of two kinds on one line the first is told.
#[derive(Clone, Copy, Debug, PartialEq, Eq)]
pub enum ImageKind {
    /// It isn't an address of eight hexadecimal digits and a colon, followed by 1 to 8 words of
    /// eight hexadecimal digits.
    Form,
    /// A word of it lies past the end of the image, or its address isn't above that of the last word
    /// of the image line before.
    Address,
}

/// Why lines are no image.
pub type ImageError = LineError<ImageKind>;

impl From<ImageKind> for Fault {
    ghost from_gives = { λ kind fault. fault ≡ image_fault kind };

    fn from(kind: ImageKind) -> Fault {
        match kind {
            ImageKind::Form => Fault::Form,
            ImageKind::Address => Fault::Address,
        }
    }
}
