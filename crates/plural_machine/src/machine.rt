//! The machine whole.
use crate::drawn::advance_in_order;
use crate::seats::{send_all, take_all};
use crate::together::advance;
use plural_base::Memory;
use plural_cores::{Core, Gate};
use plural_crew::Accepted;
use plural_finished::{Finished, Room};
use plural_serial::Program;
use plural_sync::Synchroniser;
use plural_words::{Root, Words};
use std::alloc::Global;
use std::marker::Model;
use std::thread::Threads;

/// A machine of 1 to 64 cores over the words of a program. Contracts see what it was opened with, and what its root
/// knows.
#[derive(Drop)]
pub struct Machine {
    words: Words,
    root: Root,
    sync: Synchroniser,
    cores: Vec<Core>,
    room: Room,
}

impl Model for Machine {
    ghost use Rattle.plural_machine.specs.Machines.{MachineSeen, IsWhole};

    ghost Value = { MachineSeen };

    ghost view = { λ m. record { opening = m.words.opening; root = m.root.view } };

    ghost invariant = { λ m. IsWhole m.words m.root m.sync m.cores.items m.room };
}

ghost use Rattle.std.specs.Prelude.{◌≡◌, ◌≤◌, length, IfOk};
ghost use Rattle.plural_words.specs.Seen.{opening_of};
ghost use Rattle.plural_cores.specs.Cores.{IsOpened};
ghost use Rattle.plural_machine.specs.Together.{Each};

/// The cores, in the order of their numbers.
fn cores_of(alloc: Global, program: &Program, count: u32) -> Result<Vec<Core>, Memory>
    requires { count ≤ 64 }
    ensures all { IfOk result (λ v. length v.items ≡ count) }
    ensures each { IfOk result (λ v. Each (IsOpened program.now) v.items) }
{
    let mut cores = Vec::new(alloc);
    for i in 0..count {
        cores.push(Core::open(alloc, program, i)?)?;
    }
    Ok(cores)
}

impl Machine {
    ghost use Rattle.plural_rule.specs.Last.{HasTold};
    ghost use Rattle.plural_machine.specs.Machines.{HasRunInOrder};

    /// A machine for a program whose map was accepted, over an image, with this many cores. It takes all the memory
    /// that the machine ever needs.
    pub fn open(
        alloc: Global,
        program: &Program,
        accepted: &Accepted,
        image: &[u32],
        cores: u32,
    ) -> Result<Machine, Memory>
        requires map { accepted.now ≡ program.now.map }
        requires image { length image.now ≡ program.now.map.words }
        requires cores { (1 ≤ cores) × (cores ≤ 64) }
        ensures { IfOk result (λ m. m.opening ≡ opening_of program.now image.now cores) }
    {
        let _words = program.map().words();
        let _entries = program.entries();
        let _map = accepted.map();
        let sync = Synchroniser::open(alloc, program)?;
        let room = Room::open(alloc, program)?;
        let all = cores_of(alloc, program, cores)?;
        let (words, root) = Words::open(alloc, program, accepted, image, cores)?;
        Ok(Machine {
            words,
            root,
            sync,
            cores: all,
            room,
        })
    }

    /// Runs the program: all cores side by side, each in a thread of its own if one can be made, until each has left.
    pub fn run<R: Threads + Sync, G: Gate + Sync>(&mut self, rt: &R, program: &Program, gate: &G)
        requires program { program.now ≡ self.old.opening.program }
        ensures opening { self.new.opening ≡ self.old.opening }
        ensures told { HasTold self.new.opening self.new.root }
    {
        send_all(&self.words, &mut self.root, self.cores.as_mut_slice());
        advance(
            rt,
            &self.words,
            program,
            &self.sync,
            gate,
            self.cores.as_mut_slice(),
        );
        take_all(&self.words, &mut self.root, self.cores.as_mut_slice());
    }

    /// Runs the program on one thread. Of the cores that haven't left, in the order of their numbers, the one at the
    /// place that the next draw modulo their number tells has the next turn; the draws are the words of `Pcg32` made
    /// by `seed_from_u64` of this seed.
    pub fn run_in_order<G: Gate + Sync>(&mut self, program: &Program, gate: &G, seed: u64)
        requires program { program.now ≡ self.old.opening.program }
        ensures opening { self.new.opening ≡ self.old.opening }
        ensures order { HasRunInOrder self.old.opening seed self.old.root self.new.root }
        ensures told { HasTold self.new.opening self.new.root }
    {
        send_all(&self.words, &mut self.root, self.cores.as_mut_slice());
        advance_in_order(
            &self.words,
            program,
            &self.sync,
            gate,
            self.cores.as_mut_slice(),
            seed,
        );
        take_all(&self.words, &mut self.root, self.cores.as_mut_slice());
    }

    /// What the machine leaves, once every task was told. Takes no memory.
    pub fn close(self, program: &Program) -> Finished
        requires program { program.now ≡ self.opening.program }
        requires told { HasTold self.opening self.root }
        ensures { result.closed.opening ≡ self.opening }
    {
        let Machine {
            words,
            root,
            sync: _,
            cores: _,
            room,
        } = self;
        let closed = words.close(root);
        Finished::of(closed, program, room)
    }
}
