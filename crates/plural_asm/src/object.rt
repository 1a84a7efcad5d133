//! What assembling gives: the code with its labels, or the first fault.

ghost use Rattle.std.specs.Prelude.{◌≡◌};
ghost use Rattle.plural_asm.specs.Kinds.{kernel_fault};

use plural_bytes::Name;
use plural_isa::Code;
use plural_sections::{Fault, LineError};
use std::marker::Model;

/// A label and its pc in bytes, four times the number of words before it.
#[derive(Clone, Copy, Debug)]
pub struct Label {
    pub name: Name,
    pub pc: u32,
}

/// The code of kernel lines, and their labels in the order of their lines; seen by contracts as the
/// pair of these lists.
#[derive(Drop)]
pub struct Object {
    pub code: Code,
    pub labels: Vec<Label>,
}

impl Model for Object {
    ghost use Rattle.std.specs.Prelude.{ℕ, List};
    ghost use Rattle.plural_asm.specs.declared.object.Label.{Label};

    ghost Value = { List ℕ × List Label };

    ghost view = { λ o. (o.code, o.labels.items) };
}

/// The kinds of a fault, the least first.
#[derive(Clone, Copy, Debug, PartialEq, Eq)]
pub enum AsmKind {
    /// The line has no shape of a kernel line: an unknown mnemonic or register, or a wrong number of
    /// operands.
    Form,
    /// An immediate, the number of `.word` or the value of `li` is out of its range.
    Number,
    /// The label was defined on an earlier line, or a target's name is no label.
    Name,
    /// A word of the line would be the 16,385th, or its label the 16,385th.
    Count,
    /// A target's offset is out of its range, or odd.
    Reach,
}

/// Why lines can't be assembled.
pub type AsmError = LineError<AsmKind>;

impl From<AsmKind> for Fault {
    ghost from_gives = { λ kind fault. fault ≡ kernel_fault kind };

    fn from(kind: AsmKind) -> Fault {
        match kind {
            AsmKind::Form => Fault::Form,
            AsmKind::Number => Fault::Number,
            AsmKind::Name => Fault::Name,
            AsmKind::Count => Fault::Count,
            AsmKind::Reach => Fault::Reach,
        }
    }
}
