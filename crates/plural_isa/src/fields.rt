//! The fields of an instruction word, and the immediates that they spell.

ghost use Rattle.std.specs.Prelude.{◌≡◌, ◌*◌, ◌<◌, ◌≤◌};
ghost use Rattle.plural_isa.specs.Fields.{rd, rs1, rs2, funct3, funct7, signed, imm_i, imm_s, imm_b, imm_j};

use crate::reg::Reg;

/// What the number stands for in two's complement, if its sign bit counts `half`.
fn sign_extended(number: u32, half: u32) -> i32
    requires half { half ≤ 1048576 }
    requires fits { number < 2 * half }
    ensures { result ≡ signed half number }
{
    if number < half {
        number as i32
    } else {
        number as i32 - (2 * half) as i32
    }
}

pub(crate) fn rd(word: u32) -> Reg
    ensures { result ≡ rd word }
{
    Reg::of((word >> 7) & 0x1f)
}

pub(crate) fn rs1(word: u32) -> Reg
    ensures { result ≡ rs1 word }
{
    Reg::of((word >> 15) & 0x1f)
}

pub(crate) fn rs2(word: u32) -> Reg
    ensures { result ≡ rs2 word }
{
    Reg::of((word >> 20) & 0x1f)
}

pub(crate) fn funct3(word: u32) -> u32
    ensures { result ≡ funct3 word }
{
    (word >> 12) & 7
}

pub(crate) fn imm_i(word: u32) -> i32
    ensures { result ≡ imm_i word }
{
    sign_extended(word >> 20, 2048)
}

pub(crate) fn imm_s(word: u32) -> i32
    ensures { result ≡ imm_s word }
{
    sign_extended((word >> 25) << 5 | (word >> 7) & 0x1f, 2048)
}

pub(crate) fn imm_b(word: u32) -> i32
    ensures { result ≡ imm_b word }
{
    let high = (word >> 31) << 12;
    let eleventh = ((word >> 7) & 1) << 11;
    let middle = ((word >> 25) & 0x3f) << 5;
    let low = ((word >> 8) & 0xf) << 1;
    sign_extended(high + eleventh + middle + low, 4096)
}

pub(crate) fn imm_j(word: u32) -> i32
    ensures { result ≡ imm_j word }
{
    let high = (word >> 31) << 20;
    let upper = ((word >> 12) & 0xff) << 12;
    let eleventh = ((word >> 20) & 1) << 11;
    let low = ((word >> 21) & 0x3ff) << 1;
    sign_extended(high + upper + eleventh + low, 1048576)
}

pub(crate) fn funct7(word: u32) -> u32
    ensures { result ≡ funct7 word }
{
    word >> 25
}
