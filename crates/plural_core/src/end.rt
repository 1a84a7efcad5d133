//! How an instance ended.

/// The end of an instance.
#[derive(Clone, Copy, Debug, PartialEq, Eq)]
pub enum End {
    /// `ecall` with x10 = 0.
    Code0,
    /// `ecall` with x10 = 1.
    Code1,
    /// An instruction that couldn't complete.
    Trap {
        /// 1 fetch outside the code, 2 no instruction, 3 target not aligned, 4 load not aligned,
        /// 5 load outside the regions, 6 store not aligned, 7 store outside the write regions,
        /// 8 `ebreak`, 9 `ecall` with x10 above 1.
        cause: u8,
        /// The byte address of that instruction, or the one that couldn't be fetched.
        pc: u32,
    },
    /// The count of completed instructions has reached the budget.
    Exhausted,
}
