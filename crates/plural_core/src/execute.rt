//! What an instruction does to the registers and the pc.
ghost use Rattle.std.specs.Prelude.{◌≡◌, slice_index, []};
ghost use Rattle.plural_core.specs.Arithmetic.{word, sum_of};
ghost use Rattle.plural_core.specs.Act.{get, put, address_of, jump, branch};
ghost use Rattle.plural_core.specs.Turn.{does, place_of};
ghost use Rattle.plural_core.specs.Progress.{live, counted};
ghost use Rattle.plural_core.specs.declared.progress.Next.TheVariants.{Go};

use crate::arithmetic;
use crate::progress::{Next, Progress};
use plural_isa::Reg;

/// What a register reads; the word of x0 is kept 0.
#[inline(always)]
pub(crate) fn register(registers: &[u32; 32], reg: Reg) -> u32
    requires zero { slice_index registers.now 0 ≡ 0 }
    ensures { result ≡ get registers.now reg }
{
    registers[reg.number() as usize]
}

/// The bits of a signed number.
#[inline(always)]
pub(crate) fn word(number: i32) -> u32
    ensures { result ≡ word number }
{
    number.cast_unsigned()
}

/// The byte address that a base register and an offset give. (RV32I 2.1, section 2.6.)
#[inline(always)]
pub(crate) fn address(registers: &[u32; 32], rs1: Reg, imm: i32) -> u32
    requires zero { slice_index registers.now 0 ≡ 0 }
    ensures { result ≡ address_of registers.now rs1 imm }
{
    arithmetic::sum(register(registers, rs1), word(imm))
}

/// Writes a register, and goes to a pc.
#[inline(always)]
pub(crate) fn go(registers: &mut [u32; 32], rd: Reg, value: u32, pc: u32) -> Next
    requires zero { slice_index registers.old 0 ≡ 0 }
    ensures next { result ≡ Go pc }
    ensures registers { registers.new ≡ put registers.old rd value }
    ensures zero { slice_index registers.new 0 ≡ 0 }
{
    let number = rd.number();
    if number != 0 {
        registers[number as usize] = value;
    }
    Next::Go { pc }
}

/// Writes a register, and goes on to the next instruction.
#[inline(always)]
pub(crate) fn next(at: Progress, registers: &mut [u32; 32], rd: Reg, value: u32) -> Next
    requires zero { slice_index registers.old 0 ≡ 0 }
    ensures next { result ≡ Go (sum_of at.pc 4) }
    ensures registers { registers.new ≡ put registers.old rd value }
    ensures zero { slice_index registers.new 0 ≡ 0 }
{
    go(registers, rd, value, at.pc.wrapping_add(4))
}

/// A jump that leaves the next pc in `rd`, or a trap if the target isn't aligned.
#[inline(always)]
pub(crate) fn jump(at: Progress, registers: &mut [u32; 32], rd: Reg, target: u32) -> Next
    requires zero { slice_index registers.old 0 ≡ 0 }
    ensures state { (regions : _) (m : _) → counted (live at registers.old) result registers.new
        ≡ (does (place_of [] regions (live at registers.old)) (live at registers.old).state m
        (jump registers.old at.pc rd target)).state }
    ensures zero { slice_index registers.new 0 ≡ 0 }
{
    if target % 4 == 0 {
        go(registers, rd, at.pc.wrapping_add(4), target)
    } else {
        Next::Trap { cause: 3 }
    }
}

/// On to the target or to the next instruction.
#[inline(always)]
pub(crate) fn branch(at: Progress, taken: bool, offset: i32) -> Next
    ensures state { (x : _) (regions : _) (m : _) → counted (live at x) result x
        ≡ (does (place_of [] regions (live at x)) (live at x).state m (branch x at.pc taken offset)).state }
{
    if taken {
        let target = arithmetic::sum(at.pc, word(offset));
        if target % 4 == 0 {
            Next::Go { pc: target }
        } else {
            Next::Trap { cause: 3 }
        }
    } else {
        Next::Go {
            pc: at.pc.wrapping_add(4),
        }
    }
}
