//! Words as eight hexadecimal digits.

ghost use Rattle.std.specs.Prelude.{◌≡◌, ◌<◌};
ghost use Rattle.plural_bytes.specs.Hexadecimal.{hex_digit, hex_text};

fn hex_digit(d: u32) -> u8
    requires { d < 16 }
    ensures { result ≡ hex_digit d }
{
    if d < 10 {
        b'0' + d as u8
    } else {
        b'a' + (d as u8 - 10)
    }
}

/// A word as eight hexadecimal digits, the highest first, in lower case.
pub fn hex(word: u32) -> [u8; 8]
    ensures { result ≡ hex_text 8 word }
{
    let mut text = [0; 8];
    let mut rest = word;
    let mut at = 8;
    while at > 0 {
        at -= 1;
        text[at] = hex_digit(rest % 16);
        rest /= 16;
    }
    text
}
