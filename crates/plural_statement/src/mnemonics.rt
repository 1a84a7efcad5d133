//! The mnemonics of kernel lines.

ghost use Rattle.std.specs.Prelude.{◌≡◌, find, bytes_eq};
ghost use Rattle.plural_statement.specs.Mnemonics.{of_table, mnemonic_text, own_mnemonics, mnemonic_of};

use plural_isa::{
    BranchOp, ImmOp, LoadOp, Operation, RegOp, StoreOp, operation_named, operation_text,
};

/// A mnemonic: an operation of the instruction table, `.word`, or a pseudo-instruction.
#[derive(Clone, Copy, Debug, PartialEq, Eq)]
pub enum Mnemonic {
    Branch { op: BranchOp },
    Load { op: LoadOp },
    Store { op: StoreOp },
    Imm { op: ImmOp },
    Reg { op: RegOp },
    Lui,
    Auipc,
    Jal,
    Jalr,
    Fence,
    Ecall,
    Ebreak,
    Word,
    Nop,
    Mv,
    Not,
    Neg,
    J,
    Beqz,
    Bnez,
    Li,
}

/// This assembler's own mnemonics.
const OWN_MNEMONICS: [Mnemonic; 9] = [
    Mnemonic::Word,
    Mnemonic::Nop,
    Mnemonic::Mv,
    Mnemonic::Not,
    Mnemonic::Neg,
    Mnemonic::J,
    Mnemonic::Beqz,
    Mnemonic::Bnez,
    Mnemonic::Li,
];

/// The mnemonic of an operation of the table.
fn of_table(operation: Operation) -> Mnemonic
    ensures { result ≡ of_table operation }
{
    match operation {
        Operation::Branch { op } => Mnemonic::Branch { op },
        Operation::Load { op } => Mnemonic::Load { op },
        Operation::Store { op } => Mnemonic::Store { op },
        Operation::Imm { op } => Mnemonic::Imm { op },
        Operation::Reg { op } => Mnemonic::Reg { op },
        Operation::Lui => Mnemonic::Lui,
        Operation::Auipc => Mnemonic::Auipc,
        Operation::Jal => Mnemonic::Jal,
        Operation::Jalr => Mnemonic::Jalr,
        Operation::Fence => Mnemonic::Fence,
        Operation::Ecall => Mnemonic::Ecall,
        Operation::Ebreak => Mnemonic::Ebreak,
    }
}

/// The text of a mnemonic.
pub fn mnemonic_text(mnemonic: Mnemonic) -> &'static str
    ensures { result.now ≡ mnemonic_text mnemonic }
{
    match mnemonic {
        Mnemonic::Branch { op } => operation_text(Operation::Branch { op }),
        Mnemonic::Load { op } => operation_text(Operation::Load { op }),
        Mnemonic::Store { op } => operation_text(Operation::Store { op }),
        Mnemonic::Imm { op } => operation_text(Operation::Imm { op }),
        Mnemonic::Reg { op } => operation_text(Operation::Reg { op }),
        Mnemonic::Lui => operation_text(Operation::Lui),
        Mnemonic::Auipc => operation_text(Operation::Auipc),
        Mnemonic::Jal => operation_text(Operation::Jal),
        Mnemonic::Jalr => operation_text(Operation::Jalr),
        Mnemonic::Fence => operation_text(Operation::Fence),
        Mnemonic::Ecall => operation_text(Operation::Ecall),
        Mnemonic::Ebreak => operation_text(Operation::Ebreak),
        Mnemonic::Word => ".word",
        Mnemonic::Nop => "nop",
        Mnemonic::Mv => "mv",
        Mnemonic::Not => "not",
        Mnemonic::Neg => "neg",
        Mnemonic::J => "j",
        Mnemonic::Beqz => "beqz",
        Mnemonic::Bnez => "bnez",
        Mnemonic::Li => "li",
    }
}

fn is_mnemonic(text: &[u8], mnemonic: Mnemonic) -> bool
    ensures { result ≡ bytes_eq text.now (mnemonic_text mnemonic) }
{
    text == mnemonic_text(mnemonic).as_bytes()
}

/// This assembler's own mnemonic that a text is, if it is one.
fn own_named(text: &[u8]) -> Option<Mnemonic>
    ensures { result ≡ find (λ k. bytes_eq text.now (mnemonic_text k)) own_mnemonics }
{
    OWN_MNEMONICS
        .iter()
        .copied()
        .find(|mnemonic| is_mnemonic(text, *mnemonic))
}

/// The mnemonic that a text is, if it is one.
pub(crate) fn mnemonic_of(text: &[u8]) -> Option<Mnemonic>
    ensures { result ≡ mnemonic_of text.now }
{
    match operation_named(text) {
        Some(operation) => Some(of_table(operation)),
        None => own_named(text),
    }
}
