//! A core: its number, its seat and its work.
use crate::answer::CoreTurn;
use crate::gate::Gate;
use crate::held::Held;
use crate::work::Work;
use plural_base::Memory;
use plural_serial::Program;
use plural_stages::Engine;
use plural_sync::Synchroniser;
use plural_words::{Seat, Words};
use std::alloc::Global;
use std::marker::Model;

/// A core of a machine. Contracts see its number, its seat if it has one, and what it has of its work.
#[derive(Drop)]
pub struct Core {
    number: u32,
    seat: Option<Seat>,
    work: Work,
}

impl Model for Core {
    ghost use Rattle.plural_cores.specs.Cores.{CoreSeen};

    ghost Value = { CoreSeen };

    ghost view = { λ c. record {
      number = c.number;
      seat = c.seat;
      held = c.work.held;
      engine = c.work.engine;
      idle = c.work.idle;
    } };
}

impl Core {
    ghost use Rattle.std.specs.Prelude.{◌≡◌, ℕ, List, [], IfOk, Some, None};
    ghost use Rattle.plural_rule.specs.declared.view.Stage.TheVariants.{Free};
    ghost use Rattle.plural_cores.specs.Cores.{IsOpened, HasFreeSeat, IsReady, IsAtTurn};
    ghost use Rattle.plural_cores.specs.Cores.{IsCoreLater, HasCoreTurned, HasLeft};
    ghost use Rattle.plural_cores.specs.declared.held.Held.TheVariants as hand;

    /// A core of this number with its cache, and without a seat.
    pub fn open(alloc: Global, program: &Program, core: u32) -> Result<Core, Memory>
        ensures { IfOk result (IsOpened program.now core) }
    {
        let engine = Engine::open(alloc, program)?;
        Ok(Core {
            number: core,
            seat: None,
            work: Work {
                held: Held::Nothing,
                engine,
                idle: 0,
            },
        })
    }

    /// Its number, from 0.
    pub fn number(&self) -> u32
        ensures { result ≡ self.now.number }
    {
        self.number
    }

    /// Takes a free seat of its number.
    pub fn enter(&mut self, seat: Seat)
        requires empty { self.old.seat ≡ None }
        requires number { seat.core ≡ self.old.number }
        requires free { seat.view.stage ≡ Free }
        requires nothing { seat.view.owes ≡ [] }
        ensures { self.new ≡ record self.old { seat = Some seat; held = hand.Nothing; idle = 0 } }
    {
        self.seat = Some(seat);
        self.work.held = Held::Nothing;
        self.work.idle = 0;
    }

    /// Gives its seat back as it stands, which holds nothing and owes nothing.
    pub fn leave(&mut self) -> Seat
        requires free { HasFreeSeat self.old }
        ensures seat { self.old.seat ≡ Some result }
        ensures rest { self.new ≡ record self.old { seat = None } }
    {
        match self.seat.take() {
            Some(seat) => seat,
            None => unreachable!(),
        }
    }

    /// One turn. A core that holds nothing tries each task once, by rising number, and stops at the first instance
    /// that it gets; one with an instance advances it by one stage: its beginning, one instruction, or its end with
    /// all that this makes due. It answers `Left` if it holds nothing and got nothing, each task that it knows as
    /// armed is known as wholly handed out, and the machine has one core or this one was idle for 4,096 turns.
    pub fn turn<G: Gate>(
        &mut self,
        program: &Program,
        words: &Words,
        sync: &Synchroniser,
        gate: &G,
    ) -> CoreTurn
        requires program { program.now ≡ words.now.opening.program }
        requires opened { sync.now ≡ program.now }
        requires work { (first : List ℕ) × IsAtTurn words.now first self.old }
        ensures { HasCoreTurned words.now self.old result self.new }
    {
        match &mut self.seat {
            Some(seat) => self.work.turn(program, words, sync, gate, seat),
            None => unreachable!(),
        }
    }

    /// Turns until it has left. It lets other threads run after each turn in which it found nothing.
    pub fn work_until_left<G: Gate>(
        &mut self,
        program: &Program,
        words: &Words,
        sync: &Synchroniser,
        gate: &G,
    )
        requires program { program.now ≡ words.now.opening.program }
        requires opened { sync.now ≡ program.now }
        requires ready { (first : List ℕ) × IsReady words.now first self.old }
        ensures left { (first : List ℕ) → IsReady words.now first self.old → HasLeft words.now first self.new }
        ensures later { IsCoreLater self.old self.new }
    {
        match &mut self.seat {
            Some(seat) => self.work.until_left(program, words, sync, gate, seat),
            None => unreachable!(),
        }
    }
}
