//! A turn of a core, over the seat that is lent to it.
ghost use Rattle.std.specs.Prelude.{◌≡◌, ◌⊎◌, ◌↔◌, true, IsTrue};
ghost use Rattle.plural_cores.specs.Works.{IsAtWork, HasTurned, HasRunOut, HasGone};
ghost use Rattle.plural_cores.specs.declared.answer.CoreTurn.TheVariants.{Worked};
ghost use Rattle.plural_cores.specs.declared.held.Held.TheVariants as hand;

use crate::answer::CoreTurn;
use crate::gate::Gate;
use crate::held::Held;
use crate::sweep::{Instance, Sweep, try_all};
use plural_core::End;
use plural_serial::Program;
use plural_stages::Engine;
use plural_sync::Synchroniser;
use plural_words::{Seat, Words};
use std::thread::yield_now;

/// How many turns in a row a core finds nothing before it leaves others alone.
const PATIENCE: u32 = 4096;

/// What a core has of an instance, and how many turns in a row it found nothing, 4,096 at most.
#[derive(Drop)]
pub struct Work {
    pub held: Held,
    pub engine: Engine,
    pub idle: u32,
}

// Whether a core leaves that found all that it knows as armed wholly handed out, or not, and was idle for so many
// turns.
fn leaves(whole: bool, cores: u32, idle: u32) -> bool
    ensures { IsTrue result ↔ ((whole ≡ true) × ((cores ≡ 1) ⊎ (idle ≡ 4096))) }
{
    whole && (cores == 1 || idle == PATIENCE)
}

impl Work {
    /// One turn: an instance is claimed, or the one that it holds advances by one stage.
    pub(crate) fn turn<G: Gate>(
        &mut self,
        program: &Program,
        words: &Words,
        sync: &Synchroniser,
        gate: &G,
        seat: &mut Seat,
    ) -> CoreTurn
        requires program { program.now ≡ words.now.opening.program }
        requires opened { sync.now ≡ program.now }
        requires work { IsAtWork words.now seat.old self.old }
        ensures { HasTurned words.now seat.old self.old result seat.new self.new }
    {
        match self.held {
            Held::Nothing => self.look(program, words, seat),
            Held::Claimed(instance) => {
                self.begin(program, words, gate, seat, instance);
                CoreTurn::Worked
            }
            Held::Running(instance) => {
                self.step(program, words, seat, instance);
                CoreTurn::Worked
            }
            Held::Over(instance, end) => {
                self.finish(program, words, sync, gate, seat, instance, end);
                CoreTurn::Worked
            }
        }
    }

    /// Turns until the core has left.
    pub(crate) fn until_left<G: Gate>(
        &mut self,
        program: &Program,
        words: &Words,
        sync: &Synchroniser,
        gate: &G,
        seat: &mut Seat,
    )
        requires program { program.now ≡ words.now.opening.program }
        requires opened { sync.now ≡ program.now }
        requires work { IsAtWork words.now seat.old self.old }
        ensures { HasGone words.now seat.old seat.new self.new }
    {
        loop {
            self.run_out(program, words, seat);
            match self.turn(program, words, sync, gate, seat) {
                CoreTurn::Worked => {}
                CoreTurn::Nothing => yield_now(),
                CoreTurn::Left => return,
            }
        }
    }

    // All instructions that are left of the instance under way, if there is one.
    fn run_out(&mut self, program: &Program, words: &Words, seat: &mut Seat)
        requires program { program.now ≡ words.now.opening.program }
        requires work { IsAtWork words.now seat.old self.old }
        ensures { HasRunOut words.now seat.old self.old seat.new self.new }
    {
        if let Held::Running(instance) = self.held {
            let Instance { t, k } = instance;
            let end = self.engine.run(words, program, seat, t, k);
            self.held = Held::Over(instance, end);
        }
    }

    // Tries to claim an instance.
    fn look(&mut self, program: &Program, words: &Words, seat: &mut Seat) -> CoreTurn
        requires program { program.now ≡ words.now.opening.program }
        requires work { IsAtWork words.now seat.old self.old }
        requires holds { self.old.held ≡ hand.Nothing }
        ensures { HasTurned words.now seat.old self.old result seat.new self.new }
    {
        match try_all(words, program, seat) {
            Sweep::Got(instance) => {
                self.held = Held::Claimed(instance);
                self.idle = 0;
                CoreTurn::Worked
            }
            Sweep::Spent { whole } => {
                if leaves(whole, words.cores(), self.idle) {
                    return CoreTurn::Left;
                }
                self.idle = (self.idle + 1).min(PATIENCE);
                CoreTurn::Nothing
            }
        }
    }

    // Begins the instance that was claimed.
    fn begin<G: Gate>(
        &mut self,
        program: &Program,
        words: &Words,
        gate: &G,
        seat: &mut Seat,
        instance: Instance,
    )
        requires program { program.now ≡ words.now.opening.program }
        requires work { IsAtWork words.now seat.old self.old }
        requires holds { self.old.held ≡ hand.Claimed instance }
        ensures { HasTurned words.now seat.old self.old Worked seat.new self.new }
    {
        let Instance { t, k } = instance;
        self.engine.begin(words, program, seat, t, k);
        gate.begin(seat.core(), t, k);
        self.held = Held::Running(instance);
    }

    // One instruction of the instance under way.
    fn step(&mut self, program: &Program, words: &Words, seat: &mut Seat, instance: Instance)
        requires program { program.now ≡ words.now.opening.program }
        requires work { IsAtWork words.now seat.old self.old }
        requires holds { self.old.held ≡ hand.Running instance }
        ensures { HasTurned words.now seat.old self.old Worked seat.new self.new }
    {
        let Instance { t, k } = instance;
        if let Some(end) = self.engine.turn(words, program, seat, t, k) {
            self.held = Held::Over(instance, end);
        }
    }

    // Makes the instance that has ended done, and settles what this makes due.
    fn finish<G: Gate>(
        &mut self,
        program: &Program,
        words: &Words,
        sync: &Synchroniser,
        gate: &G,
        seat: &mut Seat,
        instance: Instance,
        end: End,
    )
        requires program { program.now ≡ words.now.opening.program }
        requires opened { sync.now ≡ program.now }
        requires work { IsAtWork words.now seat.old self.old }
        requires holds { self.old.held ≡ hand.Over instance end }
        ensures { HasTurned words.now seat.old self.old Worked seat.new self.new }
    {
        let Instance { t, k } = instance;
        self.engine.drain(words, seat, t, k, end);
        gate.end(seat.core(), t, k);
        self.engine.finish(words, seat, t, k, end);
        sync.deliver(program, words, seat, t, k, end);
        self.held = Held::Nothing;
    }
}
