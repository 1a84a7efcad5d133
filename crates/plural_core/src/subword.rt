//! Bytes and halves of a word. (RV32I 2.1, section 2.6, little-endian.)
ghost use Rattle.std.specs.Prelude.{◌≡◌, ◌+◌, ◌-◌, ◌*◌, ◌/◌, ◌%◌, ◌<◌, ◌≤◌};
ghost use Rattle.plural_core.specs.Subword.{size_of, part_of, merged, byte_at, widened};

/// How much of a word an access reads or writes.
#[derive(Clone, Copy, Debug, PartialEq, Eq)]
pub enum Width {
    /// 8 bits.
    Byte,
    /// 16 bits.
    Half,
    /// 32 bits.
    Word,
}

/// The size in bytes.
#[inline(always)]
pub(crate) fn size(width: Width) -> u32
    ensures value { result ≡ size_of width }
    ensures positive { 0 < result }
{
    match width {
        Width::Byte => 1,
        Width::Half => 2,
        Width::Word => 4,
    }
}

/// The byte of the word at a byte address.
#[inline(always)]
fn byte_at(word: u32, address: u32) -> u8
    ensures { result ≡ byte_at word address }
{
    word.to_le_bytes()[(address % 4) as usize]
}

/// A number below `2 * half` as a word, with its sign or without.
#[inline(always)]
fn widened(sign: bool, half: u32, number: u32) -> u32
    requires half { half ≤ 0x8000 }
    requires number { number < 2 * half }
    ensures { result ≡ widened sign half number }
{
    if sign && number >= half {
        u32::MAX - 2 * half + 1 + number
    } else {
        number
    }
}

/// What a load at the address takes from the word.
#[inline(always)]
pub(crate) fn part(width: Width, sign: bool, word: u32, address: u32) -> u32
    requires { address % size_of width ≡ 0 }
    ensures { result ≡ part_of width sign word address }
{
    match width {
        Width::Byte => widened(sign, 0x80, u32::from(byte_at(word, address))),
        Width::Half => {
            let low = u32::from(byte_at(word, address));
            let high = u32::from(byte_at(word, address + 1));
            widened(sign, 0x8000, low + 256 * high)
        }
        Width::Word => word,
    }
}

/// The word with the bytes of a store at the address.
#[inline(always)]
pub(crate) fn merged(width: Width, word: u32, address: u32, value: u32) -> u32
    requires { address % size_of width ≡ 0 }
    ensures { result ≡ merged width word address value }
{
    match width {
        Width::Byte => {
            let mut bytes = word.to_le_bytes();
            bytes[(address % 4) as usize] = (value % 256) as u8;
            u32::from_le_bytes(bytes)
        }
        Width::Half => {
            let mut bytes = word.to_le_bytes();
            bytes[(address % 4) as usize] = (value % 256) as u8;
            bytes[((address + 1) % 4) as usize] = (value / 256 % 256) as u8;
            u32::from_le_bytes(bytes)
        }
        Width::Word => value,
    }
}
