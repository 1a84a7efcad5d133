//! What a kernel line says before its labels are known.

use plural_bytes::Name;
use plural_isa::{BranchOp, Reg};

/// The target of a jump or of a branch.
#[derive(Clone, Copy, Debug)]
pub enum Target {
    /// An offset in bytes; none if it lies beyond the reach of every instruction.
    Offset { bytes: Option<i32> },
    /// A label's place.
    Label { name: Name },
}

/// The instruction of a line. A number out of its range is no number.
#[derive(Clone, Copy, Debug)]
pub enum Statement {
    /// A label alone.
    Nothing,
    /// An instruction whose word the line alone gives.
    Known {
        word: Option<u32>,
    },
    /// `li rd, value`, the value modulo 2^32.
    Li {
        rd: Reg,
        value: Option<u32>,
    },
    /// A jump to a target.
    Jump {
        rd: Reg,
        target: Target,
    },
    /// A branch to a target.
    Branch {
        op: BranchOp,
        rs1: Reg,
        rs2: Reg,
        target: Target,
    },
}

/// A kernel line: its label, and its instruction if it has the shape of one.
#[derive(Clone, Copy, Debug)]
pub struct KernelLine {
    pub label: Option<Name>,
    pub statement: Option<Statement>,
}
