//! Words laid out for execution.

ghost use Rattle.std.specs.Prelude.{◌≡◌};
ghost use Rattle.plural_isa.specs.FlatInstrs.{flat_of, mnemonic_of, branch_mnemonic, load_mnemonic, store_mnemonic, imm_mnemonic, reg_mnemonic, flat_imm};

use crate::fields::{imm_b, imm_i, imm_j, imm_s, rd, rs1, rs2};
use crate::instr::{BranchOp, ImmOp, LoadOp, RegOp, StoreOp};
use crate::reg::Reg;
use crate::table::{Operation, operation_of};

/// The instructions of RV32IM by their mnemonics, and that a word is none of them.
#[derive(Clone, Copy, Debug, PartialEq, Eq)]
pub enum Mnemonic {
    Lui,
    Auipc,
    Jal,
    Jalr,
    Beq,
    Bne,
    Blt,
    Bge,
    Bltu,
    Bgeu,
    Lb,
    Lh,
    Lw,
    Lbu,
    Lhu,
    Sb,
    Sh,
    Sw,
    Addi,
    Slti,
    Sltiu,
    Xori,
    Ori,
    Andi,
    Slli,
    Srli,
    Srai,
    Add,
    Sub,
    Sll,
    Slt,
    Sltu,
    Xor,
    Srl,
    Sra,
    Or,
    And,
    Mul,
    Mulh,
    Mulhsu,
    Mulhu,
    Div,
    Divu,
    Rem,
    Remu,
    Fence,
    Ecall,
    Ebreak,
    /// The word is no instruction.
    Illegal,
}

/// A word with its mnemonic and its fields side by side, so that one test of the mnemonic tells all that an instruction
/// does. Each register is read from its place in every word, whether the instruction has it or not; the amount of a
/// shift stands in the place of `rs2`. The immediate is the one of the instruction's format, and 0 if there is none.
#[derive(Clone, Copy, Debug, PartialEq, Eq)]
pub struct FlatInstr {
    pub mnemonic: Mnemonic,
    pub rd: Reg,
    pub rs1: Reg,
    pub rs2: Reg,
    pub imm: i32,
}

impl FlatInstr {
    /// A copy that is read field by field, so that each field stands in a register of its own.
    #[inline(always)]
    pub fn by_fields(&self) -> FlatInstr
        ensures { result ≡ self.now }
    {
        FlatInstr {
            mnemonic: self.mnemonic,
            rd: self.rd,
            rs1: self.rs1,
            rs2: self.rs2,
            imm: self.imm,
        }
    }
}

/// The mnemonic of a conditional branch.
fn branch_mnemonic(op: BranchOp) -> Mnemonic
    ensures { result ≡ branch_mnemonic op }
{
    match op {
        BranchOp::Beq => Mnemonic::Beq,
        BranchOp::Bne => Mnemonic::Bne,
        BranchOp::Blt => Mnemonic::Blt,
        BranchOp::Bge => Mnemonic::Bge,
        BranchOp::Bltu => Mnemonic::Bltu,
        BranchOp::Bgeu => Mnemonic::Bgeu,
    }
}

/// The mnemonic of a load.
fn load_mnemonic(op: LoadOp) -> Mnemonic
    ensures { result ≡ load_mnemonic op }
{
    match op {
        LoadOp::Lb => Mnemonic::Lb,
        LoadOp::Lh => Mnemonic::Lh,
        LoadOp::Lw => Mnemonic::Lw,
        LoadOp::Lbu => Mnemonic::Lbu,
        LoadOp::Lhu => Mnemonic::Lhu,
    }
}

/// The mnemonic of a store.
fn store_mnemonic(op: StoreOp) -> Mnemonic
    ensures { result ≡ store_mnemonic op }
{
    match op {
        StoreOp::Sb => Mnemonic::Sb,
        StoreOp::Sh => Mnemonic::Sh,
        StoreOp::Sw => Mnemonic::Sw,
    }
}

/// The mnemonic of an operation of a register and an immediate.
fn imm_mnemonic(op: ImmOp) -> Mnemonic
    ensures { result ≡ imm_mnemonic op }
{
    match op {
        ImmOp::Addi => Mnemonic::Addi,
        ImmOp::Slti => Mnemonic::Slti,
        ImmOp::Sltiu => Mnemonic::Sltiu,
        ImmOp::Xori => Mnemonic::Xori,
        ImmOp::Ori => Mnemonic::Ori,
        ImmOp::Andi => Mnemonic::Andi,
        ImmOp::Slli => Mnemonic::Slli,
        ImmOp::Srli => Mnemonic::Srli,
        ImmOp::Srai => Mnemonic::Srai,
    }
}

/// The mnemonic of an operation of two registers.
fn reg_mnemonic(op: RegOp) -> Mnemonic
    ensures { result ≡ reg_mnemonic op }
{
    match op {
        RegOp::Add => Mnemonic::Add,
        RegOp::Sub => Mnemonic::Sub,
        RegOp::Sll => Mnemonic::Sll,
        RegOp::Slt => Mnemonic::Slt,
        RegOp::Sltu => Mnemonic::Sltu,
        RegOp::Xor => Mnemonic::Xor,
        RegOp::Srl => Mnemonic::Srl,
        RegOp::Sra => Mnemonic::Sra,
        RegOp::Or => Mnemonic::Or,
        RegOp::And => Mnemonic::And,
        RegOp::Mul => Mnemonic::Mul,
        RegOp::Mulh => Mnemonic::Mulh,
        RegOp::Mulhsu => Mnemonic::Mulhsu,
        RegOp::Mulhu => Mnemonic::Mulhu,
        RegOp::Div => Mnemonic::Div,
        RegOp::Divu => Mnemonic::Divu,
        RegOp::Rem => Mnemonic::Rem,
        RegOp::Remu => Mnemonic::Remu,
    }
}

/// The mnemonic of an operation.
fn mnemonic_of(operation: Operation) -> Mnemonic
    ensures { result ≡ mnemonic_of operation }
{
    match operation {
        Operation::Lui => Mnemonic::Lui,
        Operation::Auipc => Mnemonic::Auipc,
        Operation::Jal => Mnemonic::Jal,
        Operation::Jalr => Mnemonic::Jalr,
        Operation::Branch { op } => branch_mnemonic(op),
        Operation::Load { op } => load_mnemonic(op),
        Operation::Store { op } => store_mnemonic(op),
        Operation::Imm { op } => imm_mnemonic(op),
        Operation::Reg { op } => reg_mnemonic(op),
        Operation::Fence => Mnemonic::Fence,
        Operation::Ecall => Mnemonic::Ecall,
        Operation::Ebreak => Mnemonic::Ebreak,
    }
}

/// The immediate of an operation's format.
fn flat_imm(operation: Operation, word: u32) -> i32
    ensures { result ≡ flat_imm operation word }
{
    match operation {
        Operation::Lui | Operation::Auipc => (word >> 12) as i32,
        Operation::Jal => imm_j(word),
        Operation::Branch { .. } => imm_b(word),
        Operation::Store { .. } => imm_s(word),
        Operation::Jalr | Operation::Load { .. } | Operation::Imm { .. } => imm_i(word),
        Operation::Reg { .. } | Operation::Fence | Operation::Ecall | Operation::Ebreak => 0,
    }
}

/// The word laid out for execution.
pub(crate) fn flat_instr(word: u32) -> FlatInstr
    ensures { result ≡ flat_of word }
{
    let (mnemonic, imm) = match operation_of(word) {
        Some(operation) => (mnemonic_of(operation), flat_imm(operation, word)),
        None => (Mnemonic::Illegal, 0),
    };
    FlatInstr {
        mnemonic,
        rd: rd(word),
        rs1: rs1(word),
        rs2: rs2(word),
        imm,
    }
}
