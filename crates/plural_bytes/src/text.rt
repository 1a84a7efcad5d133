//! Texts: compared with words, and put one after the other.

ghost use Rattle.std.specs.Prelude.{◌≡◌, ◌<◌, ◌++◌, drop, bytes_eq, OnOk, OnErr};
ghost use Rattle.std.specs.Fmt.{decimal};

use plural_base::Memory;

/// Is a text this word, byte for byte?
pub fn is_word(text: &[u8], word: &[u8]) -> bool
    ensures { result ≡ bytes_eq text.now word.now }
{
    text == word
}

/// Puts a text after what `out` has.
pub fn put(out: &mut Vec<u8>, text: &[u8]) -> Result<(), Memory>
    ensures ok { OnOk result (out.new.items ≡ out.old.items ++ text.now) }
    ensures err { OnErr result (out.new.items ≡ out.old.items) }
{
    out.extend_from_slice(text)?;
    Ok(())
}

/// Writes the decimal digits of a number at the end of `text`, without leading zeros, and answers where
/// they begin.
fn write_decimal(text: &mut [u8; 10], n: u32) -> usize
    ensures digits { drop result text.new ≡ decimal n }
    ensures inside { result < 10 }
{
    let mut rest = n;
    let mut at = 10;
    while rest >= 10 {
        at -= 1;
        text[at] = b'0' + (rest % 10) as u8;
        rest /= 10;
    }
    at -= 1;
    text[at] = b'0' + rest as u8;
    at
}

/// Puts a number after what `out` has, in decimal digits without leading zeros.
pub fn put_number(out: &mut Vec<u8>, n: u32) -> Result<(), Memory>
    ensures ok { OnOk result (out.new.items ≡ out.old.items ++ decimal n) }
    ensures err { OnErr result (out.new.items ≡ out.old.items) }
{
    let mut text = [0; 10];
    let begin = write_decimal(&mut text, n);
    put(out, &text[begin..])
}
