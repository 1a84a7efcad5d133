ghost use Rattle.std.specs.Prelude.{◌≡◌};
ghost use Rattle.plural_isa.specs.RegisterNames.{named, plain_name, convention_name, is_name_of};

use crate::reg::Reg;

/// The plain name of a register, `x0` to `x31`.
pub fn reg_name(reg: Reg) -> &'static str
    ensures { result.now ≡ plain_name reg }
{
    match reg.number() {
        0 => "x0",
        1 => "x1",
        2 => "x2",
        3 => "x3",
        4 => "x4",
        5 => "x5",
        6 => "x6",
        7 => "x7",
        8 => "x8",
        9 => "x9",
        10 => "x10",
        11 => "x11",
        12 => "x12",
        13 => "x13",
        14 => "x14",
        15 => "x15",
        16 => "x16",
        17 => "x17",
        18 => "x18",
        19 => "x19",
        20 => "x20",
        21 => "x21",
        22 => "x22",
        23 => "x23",
        24 => "x24",
        25 => "x25",
        26 => "x26",
        27 => "x27",
        28 => "x28",
        29 => "x29",
        30 => "x30",
        _ => "x31",
    }
}

/// The register that has this name: `x0` to `x31`, or a name of the RISC-V calling convention
/// (`zero`, `ra`, `sp`, ..; `x8` is both `s0` and `fp`). None if the text is no such name.
pub fn reg_of(text: &[u8]) -> Option<Reg>
    ensures { result ≡ named text.now }
{
    for number in 0..32 {
        let reg = Reg::of(number);
        if is_name_of(text, reg) {
            return Some(reg);
        }
    }
    None
}

fn is_name_of(text: &[u8], reg: Reg) -> bool
    ensures { result ≡ is_name_of text.now reg }
{
    text == reg_name(reg).as_bytes()
        || text == convention_name(reg).as_bytes()
        || (reg.number() == 8 && text == b"fp".as_slice())
}

/// The name of a register in the calling convention; `s0` for `x8`.
fn convention_name(reg: Reg) -> &'static str
    ensures { result.now ≡ convention_name reg }
{
    match reg.number() {
        0 => "zero",
        1 => "ra",
        2 => "sp",
        3 => "gp",
        4 => "tp",
        5 => "t0",
        6 => "t1",
        7 => "t2",
        8 => "s0",
        9 => "s1",
        10 => "a0",
        11 => "a1",
        12 => "a2",
        13 => "a3",
        14 => "a4",
        15 => "a5",
        16 => "a6",
        17 => "a7",
        18 => "s2",
        19 => "s3",
        20 => "s4",
        21 => "s5",
        22 => "s6",
        23 => "s7",
        24 => "s8",
        25 => "s9",
        26 => "s10",
        27 => "s11",
        28 => "t3",
        29 => "t4",
        30 => "t5",
        _ => "t6",
    }
}
