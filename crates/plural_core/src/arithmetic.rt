//! The arithmetic of RV32IM on words. (RV32I 2.1, section 2.4; M 2.0.)
ghost use Rattle.std.specs.Prelude.{◌≡◌, ◌-◌, ◌*◌, ◌/◌, ◌%◌, ◌<◌};
ghost use Rattle.plural_core.specs.Arithmetic.{sum_of, difference_of, left_of, right_of, signed_right_of, is_below_signed, product_of, mulh_of, mulhsu_of, mulhu_of, div_of, rem_of, divu_of, remu_of};

/// ADD and ADDI: the sum modulo 2^32.
#[inline(always)]
pub fn sum(a: u32, b: u32) -> u32
    ensures { result ≡ sum_of a b }
{
    a.wrapping_add(b)
}

/// SUB: the difference modulo 2^32.
#[inline(always)]
pub fn difference(a: u32, b: u32) -> u32
    ensures { result ≡ difference_of a b }
{
    a.wrapping_sub(b)
}

/// SLL and SLLI: by the low five bits of `b`.
#[inline(always)]
pub fn left(a: u32, b: u32) -> u32
    ensures { result ≡ left_of a b }
{
    a << (b & 0x1f)
}

/// SRL and SRLI: by the low five bits of `b`.
#[inline(always)]
pub fn right(a: u32, b: u32) -> u32
    ensures { result ≡ right_of a b }
{
    a >> (b & 0x1f)
}

/// SRA and SRAI: by the low five bits of `b`, with copies of the sign.
#[inline(always)]
pub fn signed_right(a: u32, b: u32) -> u32
    ensures { result ≡ signed_right_of a b }
{
    (a.cast_signed() >> (b & 0x1f)).cast_unsigned()
}

/// SLT and BLT: as signed numbers.
#[inline(always)]
pub fn is_below_signed(a: u32, b: u32) -> bool
    ensures { result ≡ is_below_signed a b }
{
    a.cast_signed() < b.cast_signed()
}

/// MUL: the low 32 bits of the product.
#[inline(always)]
pub fn product(a: u32, b: u32) -> u32
    ensures { result ≡ product_of a b }
{
    a.wrapping_mul(b)
}

/// MULH: the high 32 bits, signed by signed.
#[inline(always)]
pub fn mulh(a: u32, b: u32) -> u32
    ensures { result ≡ mulh_of a b }
{
    let product = i64::from(a.cast_signed()) * i64::from(b.cast_signed());
    (product.cast_unsigned() >> 32) as u32
}

/// MULHSU: the high 32 bits, signed by unsigned.
#[inline(always)]
pub fn mulhsu(a: u32, b: u32) -> u32
    ensures { result ≡ mulhsu_of a b }
{
    let product = i64::from(a.cast_signed()) * i64::from(b);
    (product.cast_unsigned() >> 32) as u32
}

/// MULHU: the high 32 bits, unsigned by unsigned.
#[inline(always)]
pub fn mulhu(a: u32, b: u32) -> u32
    ensures { result ≡ mulhu_of a b }
{
    ((u64::from(a) * u64::from(b)) >> 32) as u32
}

/// DIV: rounded towards zero; all ones if `b` is 0.
#[inline(always)]
pub fn div(a: u32, b: u32) -> u32
    ensures { result ≡ div_of a b }
{
    if b == 0 {
        u32::MAX
    } else {
        a.cast_signed()
            .wrapping_div(b.cast_signed())
            .cast_unsigned()
    }
}

/// REM: with the sign of `a`; `a` if `b` is 0.
#[inline(always)]
pub fn rem(a: u32, b: u32) -> u32
    ensures { result ≡ rem_of a b }
{
    if b == 0 {
        a
    } else {
        a.cast_signed()
            .wrapping_rem(b.cast_signed())
            .cast_unsigned()
    }
}

/// DIVU: all ones if `b` is 0.
#[inline(always)]
pub fn divu(a: u32, b: u32) -> u32
    ensures { result ≡ divu_of a b }
{
    if b == 0 { u32::MAX } else { a / b }
}

/// REMU: `a` if `b` is 0.
#[inline(always)]
pub fn remu(a: u32, b: u32) -> u32
    ensures { result ≡ remu_of a b }
{
    if b == 0 { a } else { a % b }
}
