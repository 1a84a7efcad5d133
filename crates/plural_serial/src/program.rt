use crate::reading::{read_code, read_each};
use plural_isa::Code;
use plural_map::{Map, Task};
use std::marker::Model;

/// A program: a map of tasks, the code that their instances run, and each task's entry.
#[derive(Drop)]
pub struct Program {
    map: Map,
    code: Code,
    entries: Vec<u32>,
}

impl Model for Program {
    ghost use Rattle.plural_serial.specs.Program.{ProgramValue, IsProgram};

    ghost Value = { ProgramValue };

    ghost view = { λ p. record { map = p.map; code = p.code; entries = p.entries.items } };

    ghost invariant = { λ p. IsProgram (record { map = p.map; code = p.code; entries = p.entries.items }) };
}

impl Program {
    ghost use Rattle.std.specs.Prelude.{◌≡◌, ◌<◌, ◌%◌, length, slice_index};
    ghost use Rattle.plural_map.specs.Limits.{IsTask};
    ghost use Rattle.plural_serial.specs.Program.{HasEntries, IsProgram, task_at};

    /// The program of a map, its code and the pc at which each task begins, in bytes.
    pub fn of(map: Map, code: Code, entries: Vec<u32>) -> Program
        requires { HasEntries (record { map = map; code = code; entries = entries.items }) }
        ensures value { result ≡ record { map = map; code = code; entries = entries.items } }
        ensures program { IsProgram result }
    {
        read_code(&code);
        read_each(&entries);
        Program { map, code, entries }
    }

    /// The map of tasks.
    pub fn map(&self) -> &Map
        ensures { result.now ≡ self.now.map }
    {
        &self.map
    }

    /// The task of number t, from 0.
    pub fn task(&self, t: u32) -> &Task
        requires { t < length self.now.map.tasks }
        ensures value { result.now ≡ task_at self.now t }
        ensures limits { IsTask self.now.map.words self.now.map.tasks result.now }
    {
        &self.map.tasks()[t as usize]
    }

    /// The code.
    pub fn code(&self) -> &Code
        ensures { result.now ≡ self.now.code }
    {
        &self.code
    }

    /// The pc at which the instances of task t begin, in bytes: a multiple of 4.
    pub fn entry(&self, t: u32) -> u32
        requires { t < length self.now.map.tasks }
        ensures value { result ≡ slice_index self.now.entries t }
        ensures aligned { result % 4 ≡ 0 }
    {
        self.entries[t as usize]
    }

    /// The entries of all tasks, by their numbers. That they are whole is one of the things that hold of every program.
    pub fn entries(&self) -> &[u32]
        ensures value { result.now ≡ self.now.entries }
        ensures program { IsProgram self.now }
    {
        self.entries.as_slice()
    }
}
