//! The instruction table, as the code reads it.

ghost use Rattle.std.specs.Prelude.{◌≡◌, ◌<◌, bytes_eq};
ghost use Rattle.plural_isa.specs.Fields.{funct3, funct7};
ghost use Rattle.plural_isa.specs.Table.{row_of, has_fixed, is_row_of, operation_of, operation_named, code_of, fixed_funct3, fixed_funct7, funct3_of, funct7_of, whole_of, text_of, is_shift};
ghost use Rattle.plural_isa.specs.declared.table.Operation.TheVariants.{Branch, Load, Store, Imm, Reg};
ghost use Rattle.plural_isa.specs.declared.table.Fixed.TheVariants.{OpcodeOnly, Funct3, Funct3And7, WholeWord};

use crate::fields::{funct3, funct7};
use crate::instr::{BranchOp, ImmOp, LoadOp, RegOp, StoreOp};

/// An operation of the instruction table: an instruction without its operands.
#[derive(Clone, Copy, Debug, PartialEq, Eq)]
pub enum Operation {
    Lui,
    Auipc,
    Jal,
    Jalr,
    Branch { op: BranchOp },
    Load { op: LoadOp },
    Store { op: StoreOp },
    Imm { op: ImmOp },
    Reg { op: RegOp },
    Fence,
    Ecall,
    Ebreak,
}

/// What a row fixes beside its opcode.
#[derive(Clone, Copy, Debug)]
pub enum Fixed {
    /// Nothing.
    OpcodeOnly,
    /// Bits 14:12.
    Funct3 { f3: u32 },
    /// Bits 14:12 and 31:25.
    Funct3And7 { f3: u32, f7: u32 },
    /// All bits.
    WholeWord { word: u32 },
}

/// A row of the table: its opcode, bits 6:0, and what is fixed beside it.
#[derive(Clone, Copy, Debug)]
pub struct Row {
    pub code: u32,
    pub fixed: Fixed,
}

/// The operations, in the order of their rows.
const OPERATIONS: [Operation; 48] = [
    Operation::Lui,
    Operation::Auipc,
    Operation::Jal,
    Operation::Jalr,
    Operation::Branch { op: BranchOp::Beq },
    Operation::Branch { op: BranchOp::Bne },
    Operation::Branch { op: BranchOp::Blt },
    Operation::Branch { op: BranchOp::Bge },
    Operation::Branch { op: BranchOp::Bltu },
    Operation::Branch { op: BranchOp::Bgeu },
    Operation::Load { op: LoadOp::Lb },
    Operation::Load { op: LoadOp::Lh },
    Operation::Load { op: LoadOp::Lw },
    Operation::Load { op: LoadOp::Lbu },
    Operation::Load { op: LoadOp::Lhu },
    Operation::Store { op: StoreOp::Sb },
    Operation::Store { op: StoreOp::Sh },
    Operation::Store { op: StoreOp::Sw },
    Operation::Imm { op: ImmOp::Addi },
    Operation::Imm { op: ImmOp::Slti },
    Operation::Imm { op: ImmOp::Sltiu },
    Operation::Imm { op: ImmOp::Xori },
    Operation::Imm { op: ImmOp::Ori },
    Operation::Imm { op: ImmOp::Andi },
    Operation::Imm { op: ImmOp::Slli },
    Operation::Imm { op: ImmOp::Srli },
    Operation::Imm { op: ImmOp::Srai },
    Operation::Reg { op: RegOp::Add },
    Operation::Reg { op: RegOp::Sub },
    Operation::Reg { op: RegOp::Sll },
    Operation::Reg { op: RegOp::Slt },
    Operation::Reg { op: RegOp::Sltu },
    Operation::Reg { op: RegOp::Xor },
    Operation::Reg { op: RegOp::Srl },
    Operation::Reg { op: RegOp::Sra },
    Operation::Reg { op: RegOp::Or },
    Operation::Reg { op: RegOp::And },
    Operation::Reg { op: RegOp::Mul },
    Operation::Reg { op: RegOp::Mulh },
    Operation::Reg { op: RegOp::Mulhsu },
    Operation::Reg { op: RegOp::Mulhu },
    Operation::Reg { op: RegOp::Div },
    Operation::Reg { op: RegOp::Divu },
    Operation::Reg { op: RegOp::Rem },
    Operation::Reg { op: RegOp::Remu },
    Operation::Fence,
    Operation::Ecall,
    Operation::Ebreak,
];

fn opcode_only(code: u32) -> Row
    ensures code { result.code ≡ code }
    ensures fixed { result.fixed ≡ OpcodeOnly }
{
    Row {
        code,
        fixed: Fixed::OpcodeOnly,
    }
}

fn with_funct3(code: u32, f3: u32) -> Row
    ensures code { result.code ≡ code }
    ensures fixed { result.fixed ≡ Funct3 f3 }
{
    Row {
        code,
        fixed: Fixed::Funct3 { f3 },
    }
}

fn with_functs(code: u32, f3: u32, f7: u32) -> Row
    ensures code { result.code ≡ code }
    ensures fixed { result.fixed ≡ Funct3And7 f3 f7 }
{
    Row {
        code,
        fixed: Fixed::Funct3And7 { f3, f7 },
    }
}

fn fixed_word(code: u32, word: u32) -> Row
    ensures code { result.code ≡ code }
    ensures fixed { result.fixed ≡ WholeWord word }
{
    Row {
        code,
        fixed: Fixed::WholeWord { word },
    }
}

fn branch_row(op: BranchOp) -> Row
    ensures code { result.code ≡ code_of (Branch op) }
    ensures fixed { result.fixed ≡ (row_of (Branch op)).fixed }
{
    match op {
        BranchOp::Beq => with_funct3(0x63, 0),
        BranchOp::Bne => with_funct3(0x63, 1),
        BranchOp::Blt => with_funct3(0x63, 4),
        BranchOp::Bge => with_funct3(0x63, 5),
        BranchOp::Bltu => with_funct3(0x63, 6),
        BranchOp::Bgeu => with_funct3(0x63, 7),
    }
}

fn load_row(op: LoadOp) -> Row
    ensures code { result.code ≡ code_of (Load op) }
    ensures fixed { result.fixed ≡ (row_of (Load op)).fixed }
{
    match op {
        LoadOp::Lb => with_funct3(0x03, 0),
        LoadOp::Lh => with_funct3(0x03, 1),
        LoadOp::Lw => with_funct3(0x03, 2),
        LoadOp::Lbu => with_funct3(0x03, 4),
        LoadOp::Lhu => with_funct3(0x03, 5),
    }
}

fn store_row(op: StoreOp) -> Row
    ensures code { result.code ≡ code_of (Store op) }
    ensures fixed { result.fixed ≡ (row_of (Store op)).fixed }
{
    match op {
        StoreOp::Sb => with_funct3(0x23, 0),
        StoreOp::Sh => with_funct3(0x23, 1),
        StoreOp::Sw => with_funct3(0x23, 2),
    }
}

fn imm_row(op: ImmOp) -> Row
    ensures code { result.code ≡ code_of (Imm op) }
    ensures fixed { result.fixed ≡ (row_of (Imm op)).fixed }
{
    match op {
        ImmOp::Addi => with_funct3(0x13, 0),
        ImmOp::Slti => with_funct3(0x13, 2),
        ImmOp::Sltiu => with_funct3(0x13, 3),
        ImmOp::Xori => with_funct3(0x13, 4),
        ImmOp::Ori => with_funct3(0x13, 6),
        ImmOp::Andi => with_funct3(0x13, 7),
        ImmOp::Slli => with_functs(0x13, 1, 0x00),
        ImmOp::Srli => with_functs(0x13, 5, 0x00),
        ImmOp::Srai => with_functs(0x13, 5, 0x20),
    }
}

fn reg_row(op: RegOp) -> Row
    ensures code { result.code ≡ code_of (Reg op) }
    ensures fixed { result.fixed ≡ (row_of (Reg op)).fixed }
{
    match op {
        RegOp::Add => with_functs(0x33, 0, 0x00),
        RegOp::Sub => with_functs(0x33, 0, 0x20),
        RegOp::Sll => with_functs(0x33, 1, 0x00),
        RegOp::Slt => with_functs(0x33, 2, 0x00),
        RegOp::Sltu => with_functs(0x33, 3, 0x00),
        RegOp::Xor => with_functs(0x33, 4, 0x00),
        RegOp::Srl => with_functs(0x33, 5, 0x00),
        RegOp::Sra => with_functs(0x33, 5, 0x20),
        RegOp::Or => with_functs(0x33, 6, 0x00),
        RegOp::And => with_functs(0x33, 7, 0x00),
        RegOp::Mul => with_functs(0x33, 0, 0x01),
        RegOp::Mulh => with_functs(0x33, 1, 0x01),
        RegOp::Mulhsu => with_functs(0x33, 2, 0x01),
        RegOp::Mulhu => with_functs(0x33, 3, 0x01),
        RegOp::Div => with_functs(0x33, 4, 0x01),
        RegOp::Divu => with_functs(0x33, 5, 0x01),
        RegOp::Rem => with_functs(0x33, 6, 0x01),
        RegOp::Remu => with_functs(0x33, 7, 0x01),
    }
}

/// The row of an operation.
fn table_row(operation: Operation) -> Row
    ensures code { result.code ≡ code_of operation }
    ensures fixed { result.fixed ≡ (row_of operation).fixed }
{
    match operation {
        Operation::Lui => opcode_only(0x37),
        Operation::Auipc => opcode_only(0x17),
        Operation::Jal => opcode_only(0x6f),
        Operation::Jalr => with_funct3(0x67, 0),
        Operation::Fence => with_funct3(0x0f, 0),
        Operation::Ecall => fixed_word(0x73, 0x0000_0073),
        Operation::Ebreak => fixed_word(0x73, 0x0010_0073),
        Operation::Branch { op } => branch_row(op),
        Operation::Load { op } => load_row(op),
        Operation::Store { op } => store_row(op),
        Operation::Imm { op } => imm_row(op),
        Operation::Reg { op } => reg_row(op),
    }
}

fn branch_text(op: BranchOp) -> &'static str
    ensures { result.now ≡ text_of (Branch op) }
{
    match op {
        BranchOp::Beq => "beq",
        BranchOp::Bne => "bne",
        BranchOp::Blt => "blt",
        BranchOp::Bge => "bge",
        BranchOp::Bltu => "bltu",
        BranchOp::Bgeu => "bgeu",
    }
}

fn load_text(op: LoadOp) -> &'static str
    ensures { result.now ≡ text_of (Load op) }
{
    match op {
        LoadOp::Lb => "lb",
        LoadOp::Lh => "lh",
        LoadOp::Lw => "lw",
        LoadOp::Lbu => "lbu",
        LoadOp::Lhu => "lhu",
    }
}

fn store_text(op: StoreOp) -> &'static str
    ensures { result.now ≡ text_of (Store op) }
{
    match op {
        StoreOp::Sb => "sb",
        StoreOp::Sh => "sh",
        StoreOp::Sw => "sw",
    }
}

fn imm_text(op: ImmOp) -> &'static str
    ensures { result.now ≡ text_of (Imm op) }
{
    match op {
        ImmOp::Addi => "addi",
        ImmOp::Slti => "slti",
        ImmOp::Sltiu => "sltiu",
        ImmOp::Xori => "xori",
        ImmOp::Ori => "ori",
        ImmOp::Andi => "andi",
        ImmOp::Slli => "slli",
        ImmOp::Srli => "srli",
        ImmOp::Srai => "srai",
    }
}

fn reg_text(op: RegOp) -> &'static str
    ensures { result.now ≡ text_of (Reg op) }
{
    match op {
        RegOp::Add => "add",
        RegOp::Sub => "sub",
        RegOp::Sll => "sll",
        RegOp::Slt => "slt",
        RegOp::Sltu => "sltu",
        RegOp::Xor => "xor",
        RegOp::Srl => "srl",
        RegOp::Sra => "sra",
        RegOp::Or => "or",
        RegOp::And => "and",
        RegOp::Mul => "mul",
        RegOp::Mulh => "mulh",
        RegOp::Mulhsu => "mulhsu",
        RegOp::Mulhu => "mulhu",
        RegOp::Div => "div",
        RegOp::Divu => "divu",
        RegOp::Rem => "rem",
        RegOp::Remu => "remu",
    }
}

/// The mnemonic of an operation.
pub fn operation_text(operation: Operation) -> &'static str
    ensures { result.now ≡ text_of operation }
{
    match operation {
        Operation::Lui => "lui",
        Operation::Auipc => "auipc",
        Operation::Jal => "jal",
        Operation::Jalr => "jalr",
        Operation::Fence => "fence",
        Operation::Ecall => "ecall",
        Operation::Ebreak => "ebreak",
        Operation::Branch { op } => branch_text(op),
        Operation::Load { op } => load_text(op),
        Operation::Store { op } => store_text(op),
        Operation::Imm { op } => imm_text(op),
        Operation::Reg { op } => reg_text(op),
    }
}

fn is_named(text: &[u8], operation: Operation) -> bool
    ensures { result ≡ bytes_eq text.now (text_of operation) }
{
    text == operation_text(operation).as_bytes()
}

/// The operation that has this mnemonic, in lower case.
pub fn operation_named(text: &[u8]) -> Option<Operation>
    ensures { result ≡ operation_named text.now }
{
    OPERATIONS
        .iter()
        .copied()
        .find(|operation| is_named(text, *operation))
}

fn is_fixed(fixed: Fixed, word: u32) -> bool
    ensures { result ≡ has_fixed (funct3 word) (funct7 word) word fixed }
{
    match fixed {
        Fixed::OpcodeOnly => true,
        Fixed::Funct3 { f3 } => funct3(word) == f3,
        Fixed::Funct3And7 { f3, f7 } => funct3(word) == f3 && funct7(word) == f7,
        Fixed::WholeWord { word: whole } => word == whole,
    }
}

/// Whether a word has the row of an operation.
fn is_row_of(operation: Operation, word: u32) -> bool
    ensures { result ≡ is_row_of operation word }
{
    let row = table_row(operation);
    word & 0x7f == row.code && is_fixed(row.fixed, word)
}

/// What an operation's row fixes of its words.
#[derive(Clone, Copy)]
pub(crate) struct Fields {
    pub(crate) code: u32,
    pub(crate) funct3: u32,
    pub(crate) funct7: u32,
}

fn fixed_funct3(fixed: Fixed) -> u32
    ensures { result ≡ fixed_funct3 fixed }
{
    match fixed {
        Fixed::OpcodeOnly => 0,
        Fixed::Funct3 { f3 } | Fixed::Funct3And7 { f3, .. } => f3,
        Fixed::WholeWord { word } => funct3(word),
    }
}

fn fixed_funct7(fixed: Fixed) -> u32
    ensures { result ≡ fixed_funct7 fixed }
{
    match fixed {
        Fixed::OpcodeOnly | Fixed::Funct3 { .. } => 0,
        Fixed::Funct3And7 { f7, .. } => f7,
        Fixed::WholeWord { word } => funct7(word),
    }
}

/// The opcode of an operation, and the funct3 and funct7 that its row fixes, else 0.
#[tactic(auto, using(crate::proofs::Rows::rows_fit))]
pub(crate) fn fixed_fields(operation: Operation) -> Fields
    ensures code { result.code ≡ code_of operation }
    ensures funct3 { result.funct3 ≡ funct3_of operation }
    ensures funct7 { result.funct7 ≡ funct7_of operation }
    ensures code_bound { result.code < 128 }
    ensures funct3_bound { result.funct3 < 8 }
    ensures funct7_bound { result.funct7 < 128 }
{
    let row = table_row(operation);
    Fields {
        code: row.code,
        funct3: fixed_funct3(row.fixed),
        funct7: fixed_funct7(row.fixed),
    }
}

/// The whole word that an operation's row fixes, else 0.
pub(crate) fn whole_word(operation: Operation) -> u32
    ensures { result ≡ whole_of operation }
{
    match table_row(operation).fixed {
        Fixed::WholeWord { word } => word,
        _ => 0,
    }
}

/// Whether an operation on an immediate shifts by an amount, 0 to 31.
pub fn is_shift(op: ImmOp) -> bool
    ensures { result ≡ is_shift op }
{
    matches!(imm_row(op).fixed, Fixed::Funct3And7 { .. })
}

/// The operation whose row a word has, if the table has one for it.
#[tactic(auto, unfolding(crate::specs::Table::operation_of))]
pub(crate) fn operation_of(word: u32) -> Option<Operation>
    ensures { result ≡ operation_of word }
{
    OPERATIONS
        .iter()
        .copied()
        .find(|operation| is_row_of(*operation, word))
}
