//! The words of a program's code, each laid out for execution once.

ghost use Rattle.std.specs.Prelude.{◌≡◌, ◌<◌, ◌≤◌, length, slice_index, map, IfOk};
ghost use Rattle.plural_isa.specs.Decoding.{decoded};
ghost use Rattle.plural_isa.specs.FlatInstrs.{flat_of};

use crate::decoder::decode;
use crate::flat_instr::{FlatInstr, flat_instr};
use crate::instr::Instr;
use std::alloc::{AllocError, Global};
use std::marker::Model;

/// The words of a program's code, at most 16,384, seen by contracts as their list. Word `i` stands at
/// byte address `4 * i` of the code's own memory. Each word is laid out for execution once, when the code is made.
#[derive(Drop)]
pub struct Code {
    words: Vec<u32>,
    flat: Vec<FlatInstr>,
}

impl Model for Code {
    ghost use Rattle.std.specs.Prelude.{◌≡◌, ℕ, ◌≤◌, List, length, map};
    ghost use Rattle.plural_isa.specs.FlatInstrs.{flat_of};

    ghost Value = { List ℕ };

    ghost view = { λ c. c.words.items };

    ghost invariant = { λ c. (length c.words.items ≤ 16384) × (c.flat.items ≡ map flat_of c.words.items) };
}

/// What is kept for a word beside the word takes at most 16 bytes.
const _: () = prove!(size_of::<FlatInstr>() <= 16);

/// Each word laid out for execution.
fn flat_instrs(alloc: Global, words: &[u32]) -> Result<Vec<FlatInstr>, AllocError>
    ensures { IfOk result (λ flat. flat.items ≡ map flat_of words.now) }
{
    words.iter().map(|word| flat_instr(*word)).collect(alloc)
}

impl Code {
    /// The code of these words. `Err` if memory ran out.
    pub fn of(alloc: Global, words: Vec<u32>) -> Result<Code, AllocError>
        requires { length words.items ≤ 16384 }
        ensures { IfOk result (λ code. code ≡ words.items) }
    {
        let flat = flat_instrs(alloc, &words)?;
        Ok(Code { words, flat })
    }

    /// How many words it has, at most 16,384.
    pub fn len(&self) -> u32
        ensures value { result ≡ length self.now }
        ensures bound { result ≤ 16384 }
    {
        self.words.len() as u32
    }

    /// The word at place `i`, in words from 0.
    pub fn word(&self, i: u32) -> u32
        requires { i < length self.now }
        ensures { result ≡ slice_index self.now i }
    {
        self.words[i as usize]
    }

    /// The instruction of the word at place `i`, in words from 0, as `decode` gives it.
    pub fn instr(&self, i: u32) -> Option<Instr>
        requires { i < length self.now }
        ensures { result ≡ decoded (slice_index self.now i) }
    {
        decode(self.words[i as usize])
    }

    /// Its words laid out for execution.
    #[inline(always)]
    pub fn laid_out(&self) -> &[FlatInstr]
        ensures { result.now ≡ map flat_of self.now }
    {
        self.flat.as_slice()
    }
}
