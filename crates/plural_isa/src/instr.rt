use crate::reg::Reg;

/// The conditional branches (RV32I 2.1, "Conditional Branches").
#[derive(Clone, Copy, Debug, PartialEq, Eq)]
pub enum BranchOp {
    Beq,
    Bne,
    Blt,
    Bge,
    Bltu,
    Bgeu,
}

/// The loads (RV32I 2.1, "Load and Store Instructions").
#[derive(Clone, Copy, Debug, PartialEq, Eq)]
pub enum LoadOp {
    Lb,
    Lh,
    Lw,
    Lbu,
    Lhu,
}

/// The stores (RV32I 2.1, "Load and Store Instructions").
#[derive(Clone, Copy, Debug, PartialEq, Eq)]
pub enum StoreOp {
    Sb,
    Sh,
    Sw,
}

/// The operations of a register and an immediate (RV32I 2.1, "Integer Register-Immediate
/// Instructions"). The immediate of `Slli`, `Srli` and `Srai` is the shift amount, 0 to 31.
#[derive(Clone, Copy, Debug, PartialEq, Eq)]
pub enum ImmOp {
    Addi,
    Slti,
    Sltiu,
    Xori,
    Ori,
    Andi,
    Slli,
    Srli,
    Srai,
}

/// The operations of two registers (RV32I 2.1, "Integer Register-Register Operations"; `Mul` to
/// `Remu`: M 2.0).
#[derive(Clone, Copy, Debug, PartialEq, Eq)]
pub enum RegOp {
    Add,
    Sub,
    Sll,
    Slt,
    Sltu,
    Xor,
    Srl,
    Sra,
    Or,
    And,
    Mul,
    Mulh,
    Mulhsu,
    Mulhu,
    Div,
    Divu,
    Rem,
    Remu,
}

/// An instruction of RV32IM. Immediates and offsets are in the instruction's own units: `imm` of `Lui`
/// and `Auipc` is the field of 20 bits, 0 to 1,048,575; an `offset` counts bytes and is even; every
/// other `imm` is -2,048 to 2,047, or a shift amount. `fields` of `Fence` has the word's bits 31:15 in
/// its bits 21:5 and the word's bits 11:7 in its bits 4:0. `fits` tests these ranges.
#[derive(Clone, Copy, Debug, PartialEq, Eq)]
pub enum Instr {
    Lui {
        rd: Reg,
        imm: u32,
    },
    Auipc {
        rd: Reg,
        imm: u32,
    },
    Jal {
        rd: Reg,
        offset: i32,
    },
    Jalr {
        rd: Reg,
        rs1: Reg,
        imm: i32,
    },
    Branch {
        op: BranchOp,
        rs1: Reg,
        rs2: Reg,
        offset: i32,
    },
    Load {
        op: LoadOp,
        rd: Reg,
        rs1: Reg,
        imm: i32,
    },
    Store {
        op: StoreOp,
        rs1: Reg,
        rs2: Reg,
        imm: i32,
    },
    OpImm {
        op: ImmOp,
        rd: Reg,
        rs1: Reg,
        imm: i32,
    },
    Op {
        op: RegOp,
        rd: Reg,
        rs1: Reg,
        rs2: Reg,
    },
    Fence {
        fields: u32,
    },
    Ecall,
    Ebreak,
}
