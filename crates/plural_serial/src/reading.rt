//! Words that are read for their range: each that is read is known to be below 2^32.
ghost use Rattle.plural_serial.specs.Program.{AreWords};

use plural_isa::Code;

/// Reads each of these words.
pub(crate) fn read_each(words: &[u32])
    ensures { AreWords words.now }
{
    for i in 0..words.len() {
        let _word = words[i];
    }
}

/// Reads each word of the code.
pub(crate) fn read_code(code: &Code)
    ensures { AreWords code.now }
{
    for i in 0..code.len() {
        code.word(i);
    }
}
