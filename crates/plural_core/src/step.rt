//! One instruction, by its mnemonic.
ghost use Rattle.std.specs.Prelude.{◌≡◌, ◌<◌, ◌-◌, ◌/◌, ◌%◌, [], slice_index, map};
ghost use Rattle.plural_base.specs.Told.{Foresees};
ghost use Rattle.plural_isa.specs.FlatInstrs.{flat_of};
ghost use Rattle.plural_core.specs.Turn.{does_at, turn_of};
ghost use Rattle.plural_core.specs.Execution.{effect_of};
ghost use Rattle.plural_core.specs.Progress.{live, counted};
ghost use Rattle.plural_core.specs.Recent.{IsRecent};
ghost use Rattle.plural_core.specs.Port.{IsReady, Makes};

use crate::access::{Load, Store, read, write};
use crate::arithmetic::{
    difference, div, divu, is_below_signed, left, mulh, mulhsu, mulhu, product, rem, remu, right,
    signed_right, sum,
};
use crate::execute::{address, branch, jump, next, register, word};
use crate::guard::Recent;
use crate::port::DataPort;
use crate::progress::{Next, Progress};
use crate::subword::Width;
use plural_isa::{Code, FlatInstr, Mnemonic};
use plural_regions::Region;

/// What an instruction does, by its mnemonic. (RV32I 2.1, chapter 2; M 2.0.)
#[tactic(auto, unfolding(crate::specs::Execution::effect_of))]
#[inline(always)]
fn perform<P: DataPort>(
    at: Progress,
    registers: &mut [u32; 32],
    instr: FlatInstr,
    regions: &[Region],
    recent: &mut Recent,
    port: &mut P,
) -> Next
    requires zero { slice_index registers.old 0 ≡ 0 }
    requires recent { IsRecent regions.now at.k recent.old }
    requires ready { IsReady P.told P.counts P.is_sound regions.now at.k at.count port.old }
    requires room { at.count < 100000000 }
    requires expected { Foresees (P.told port.old).expects
        (does_at regions.now (live at registers.old) (P.told port.old).words
        (effect_of instr registers.old at.pc)).stores }
    ensures state { counted (live at registers.old) result registers.new
        ≡ (does_at regions.now (live at registers.old) (P.told port.old).words
        (effect_of instr registers.old at.pc)).state }
    ensures zero { slice_index registers.new 0 ≡ 0 }
    ensures recent { IsRecent regions.now at.k recent.new }
    ensures port { Makes P.told P.counts P.stands_for P.keeps P.is_sound port.old port.new
        (does_at regions.now (live at registers.old) (P.told port.old).words (effect_of instr registers.old at.pc)) }
{
    let FlatInstr { rd, rs1, rs2, .. } = instr;
    let imm = word(instr.imm);
    let x = register(registers, rs1);
    let y = register(registers, rs2);
    match instr.mnemonic {
        Mnemonic::Lui => next(at, registers, rd, imm << 12),
        Mnemonic::Auipc => next(at, registers, rd, sum(at.pc, imm << 12)),
        Mnemonic::Jal => jump(at, registers, rd, sum(at.pc, imm)),
        Mnemonic::Jalr => {
            let target = address(registers, rs1, instr.imm);
            jump(at, registers, rd, target - target % 2)
        }
        Mnemonic::Beq => branch(at, x == y, instr.imm),
        Mnemonic::Bne => branch(at, x != y, instr.imm),
        Mnemonic::Blt => branch(at, is_below_signed(x, y), instr.imm),
        Mnemonic::Bge => branch(at, !is_below_signed(x, y), instr.imm),
        Mnemonic::Bltu => branch(at, x < y, instr.imm),
        Mnemonic::Bgeu => branch(at, !(x < y), instr.imm),
        Mnemonic::Lb => read(
            at,
            registers,
            regions,
            recent,
            port,
            Load {
                width: Width::Byte,
                sign: true,
                address: address(registers, rs1, instr.imm),
                rd,
            },
        ),
        Mnemonic::Lh => read(
            at,
            registers,
            regions,
            recent,
            port,
            Load {
                width: Width::Half,
                sign: true,
                address: address(registers, rs1, instr.imm),
                rd,
            },
        ),
        Mnemonic::Lw => read(
            at,
            registers,
            regions,
            recent,
            port,
            Load {
                width: Width::Word,
                sign: true,
                address: address(registers, rs1, instr.imm),
                rd,
            },
        ),
        Mnemonic::Lbu => read(
            at,
            registers,
            regions,
            recent,
            port,
            Load {
                width: Width::Byte,
                sign: false,
                address: address(registers, rs1, instr.imm),
                rd,
            },
        ),
        Mnemonic::Lhu => read(
            at,
            registers,
            regions,
            recent,
            port,
            Load {
                width: Width::Half,
                sign: false,
                address: address(registers, rs1, instr.imm),
                rd,
            },
        ),
        Mnemonic::Sb => write(
            at,
            registers,
            regions,
            recent,
            port,
            Store {
                width: Width::Byte,
                address: address(registers, rs1, instr.imm),
                value: y,
            },
        ),
        Mnemonic::Sh => write(
            at,
            registers,
            regions,
            recent,
            port,
            Store {
                width: Width::Half,
                address: address(registers, rs1, instr.imm),
                value: y,
            },
        ),
        Mnemonic::Sw => write(
            at,
            registers,
            regions,
            recent,
            port,
            Store {
                width: Width::Word,
                address: address(registers, rs1, instr.imm),
                value: y,
            },
        ),
        Mnemonic::Addi => next(at, registers, rd, sum(x, imm)),
        Mnemonic::Slti => next(at, registers, rd, u32::from(is_below_signed(x, imm))),
        Mnemonic::Sltiu => next(at, registers, rd, u32::from(x < imm)),
        Mnemonic::Xori => next(at, registers, rd, x ^ imm),
        Mnemonic::Ori => next(at, registers, rd, x | imm),
        Mnemonic::Andi => next(at, registers, rd, x & imm),
        Mnemonic::Slli => next(at, registers, rd, left(x, rs2.number())),
        Mnemonic::Srli => next(at, registers, rd, right(x, rs2.number())),
        Mnemonic::Srai => next(at, registers, rd, signed_right(x, rs2.number())),
        Mnemonic::Add => next(at, registers, rd, sum(x, y)),
        Mnemonic::Sub => next(at, registers, rd, difference(x, y)),
        Mnemonic::Sll => next(at, registers, rd, left(x, y)),
        Mnemonic::Slt => next(at, registers, rd, u32::from(is_below_signed(x, y))),
        Mnemonic::Sltu => next(at, registers, rd, u32::from(x < y)),
        Mnemonic::Xor => next(at, registers, rd, x ^ y),
        Mnemonic::Srl => next(at, registers, rd, right(x, y)),
        Mnemonic::Sra => next(at, registers, rd, signed_right(x, y)),
        Mnemonic::Or => next(at, registers, rd, x | y),
        Mnemonic::And => next(at, registers, rd, x & y),
        Mnemonic::Mul => next(at, registers, rd, product(x, y)),
        Mnemonic::Mulh => next(at, registers, rd, mulh(x, y)),
        Mnemonic::Mulhsu => next(at, registers, rd, mulhsu(x, y)),
        Mnemonic::Mulhu => next(at, registers, rd, mulhu(x, y)),
        Mnemonic::Div => next(at, registers, rd, div(x, y)),
        Mnemonic::Divu => next(at, registers, rd, divu(x, y)),
        Mnemonic::Rem => next(at, registers, rd, rem(x, y)),
        Mnemonic::Remu => next(at, registers, rd, remu(x, y)),
        Mnemonic::Fence => Next::Go {
            pc: at.pc.wrapping_add(4),
        },
        Mnemonic::Ecall => Next::Finish,
        Mnemonic::Ebreak => Next::Trap { cause: 8 },
        Mnemonic::Illegal => Next::Trap { cause: 2 },
    }
}

/// The instruction at the pc, of the code's words laid out for execution. The word is read for its range
/// alone.
#[tactic(auto, unfolding(crate::specs::Turn::turn, crate::specs::Act::act))]
#[inline(always)]
pub(crate) fn step<P: DataPort>(
    at: Progress,
    registers: &mut [u32; 32],
    code: &Code,
    flat: &[FlatInstr],
    regions: &[Region],
    recent: &mut Recent,
    port: &mut P,
) -> Next
    requires zero { slice_index registers.old 0 ≡ 0 }
    requires flat { flat.now ≡ map flat_of code.now }
    requires recent { IsRecent regions.now at.k recent.old }
    requires ready { IsReady P.told P.counts P.is_sound regions.now at.k at.count port.old }
    requires room { at.count < 100000000 }
    requires expected { Foresees (P.told port.old).expects
        (turn_of code.now regions.now (live at registers.old) (P.told port.old).words).stores }
    ensures state { counted (live at registers.old) result registers.new
        ≡ (turn_of code.now regions.now (live at registers.old) (P.told port.old).words).state }
    ensures zero { slice_index registers.new 0 ≡ 0 }
    ensures recent { IsRecent regions.now at.k recent.new }
    ensures port { Makes P.told P.counts P.stands_for P.keeps P.is_sound port.old port.new
        (turn_of code.now regions.now (live at registers.old) (P.told port.old).words) }
{
    let i = at.pc / 4;
    if i as usize >= flat.len() {
        return Next::Trap { cause: 1 };
    }
    code.word(i);
    let instr = flat[i as usize].by_fields();
    perform(at, registers, instr, regions, recent, port)
}
