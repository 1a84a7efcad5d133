//! Where an instance stands, beside its registers.

/// The pc, the count of completed instructions, the instance's number and its budget.
#[derive(Clone, Copy, Debug, PartialEq, Eq)]
pub struct Progress {
    /// The byte address of the next instruction.
    pub pc: u32,
    /// How many instructions have completed.
    pub count: u32,
    /// The instance's number, from 0.
    pub k: u32,
    /// How many instructions may complete.
    pub budget: u32,
}

/// How an instruction leaves its instance, before it is counted.
#[derive(Clone, Copy, Debug)]
pub enum Next {
    /// It completes, and the instruction at this byte address follows.
    Go { pc: u32 },
    /// It can't complete.
    Trap { cause: u8 },
    /// It is `ecall`.
    Finish,
}
