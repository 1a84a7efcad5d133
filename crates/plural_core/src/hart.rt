//! The core: one instance's registers, pc and count, and its turn.
ghost use Rattle.std.specs.Prelude.{◌≡◌, ℕ, ◌<◌, ◌≤◌, [], None, true, slice_index, map};
ghost use Rattle.plural_regions.specs.Rights.{may_read};
ghost use Rattle.plural_base.specs.Told.{Foresees};
ghost use Rattle.plural_isa.specs.FlatInstrs.{flat_of};
ghost use Rattle.plural_core.specs.Turn.{finished, turn_of};
ghost use Rattle.plural_core.specs.Progress.{live, core_of, end_of};
ghost use Rattle.plural_core.specs.Recent.{IsRecent};
ghost use Rattle.plural_core.specs.Port.{Makes};

use crate::end::End;
use crate::execute::register;
use crate::guard::Recent;
use crate::port::DataPort;
use crate::progress::{Next, Progress};
use crate::step::step;
use plural_isa::{Code, FlatInstr, Reg};
use plural_regions::Region;
use std::marker::Model;

/// What an instance begins with.
#[derive(Clone, Copy, Debug, PartialEq, Eq)]
pub struct Job {
    /// The byte address of the first instruction, a multiple of 4.
    pub entry: u32,
    /// The instance's number, from 0: x10 at the start.
    pub k: u32,
    /// The task's quota: x11 at the start.
    pub q: u32,
    /// How many instructions may complete, 1 to 100,000,000.
    pub budget: u32,
}

/// What a turn leads to.
#[derive(Clone, Copy, Debug, PartialEq, Eq)]
pub enum Turn {
    /// The instance goes on.
    Going,
    /// The instance has ended.
    Over(End),
}

/// The end of `ecall`, which counts as completed if the instance ends with a code.
#[inline(always)]
fn finish(at: &mut Progress, registers: &[u32; 32]) -> Turn
    requires zero { slice_index registers.now 0 ≡ 0 }
    requires room { at.old.count < 100000000 }
    ensures { core_of at.new registers.now (end_of result)
        ≡ record (live at.old registers.now) { state = (finished (live at.old registers.now).state []).state } }
{
    let code = register(registers, Reg::of(10));
    if code > 1 {
        return Turn::Over(End::Trap {
            cause: 9,
            pc: at.pc,
        });
    }
    at.count += 1;
    Turn::Over(if code == 0 { End::Code0 } else { End::Code1 })
}

/// One instruction, by the regions that were used last.
#[inline(always)]
pub(crate) fn turn_by<P: DataPort>(
    at: &mut Progress,
    registers: &mut [u32; 32],
    recent: &mut Recent,
    code: &Code,
    flat: &[FlatInstr],
    regions: &[Region],
    port: &mut P,
) -> Turn
    requires zero { slice_index registers.old 0 ≡ 0 }
    requires flat { flat.now ≡ map flat_of code.now }
    requires recent { IsRecent regions.now at.old.k recent.old }
    requires sound { P.is_sound port.old }
    requires lawful { (a : ℕ) → may_read regions.now at.old.k a ≡ true → (P.told port.old).lawful a ≡ true }
    requires loads { (P.counts port.old).reads ≤ at.old.count }
    requires stores { (P.counts port.old).writes ≤ at.old.count }
    requires going { at.old.count < at.old.budget }
    requires limit { at.old.budget ≤ 100000000 }
    requires expected { Foresees (P.told port.old).expects
        (turn_of code.now regions.now (live at.old registers.old) (P.told port.old).words).stores }
    ensures state { core_of at.new registers.new (end_of result) ≡ record (live at.old registers.old)
        { state = (turn_of code.now regions.now (live at.old registers.old) (P.told port.old).words).state } }
    ensures port { Makes P.told P.counts P.stands_for P.keeps P.is_sound port.old port.new
        (turn_of code.now regions.now (live at.old registers.old) (P.told port.old).words) }
    ensures zero { slice_index registers.new 0 ≡ 0 }
    ensures recent { IsRecent regions.now at.old.k recent.new }
    ensures bound { at.new.count ≤ at.new.budget }
    ensures within { end_of result ≡ None → at.new.count < at.new.budget }
{
    match step(*at, registers, code, flat, regions, recent, port) {
        Next::Go { pc } => {
            at.pc = pc;
            at.count += 1;
            if at.count == at.budget {
                Turn::Over(End::Exhausted)
            } else {
                Turn::Going
            }
        }
        Next::Trap { cause } => Turn::Over(End::Trap { cause, pc: at.pc }),
        Next::Finish => finish(at, registers),
    }
}

/// A core that runs one instance, seen as its state, the instance's number and the budget.
#[derive(Drop)]
pub struct Hart {
    at: Progress,
    over: Option<End>,
    registers: [u32; 32],
}

impl Model for Hart {
    ghost use Rattle.std.specs.Prelude.{◌≡◌, ◌≤◌, ◌<◌, Option, None, slice_index};
    ghost use Rattle.plural_core.specs.Turn.{Core};
    ghost use Rattle.plural_core.specs.Progress.{core_of};

    ghost Value = { Core };

    ghost view = { λ h. core_of h.at h.registers h.over };

    ghost invariant = { λ h. (h.at.budget ≤ 100000000) × (h.at.count ≤ h.at.budget)
        × (h.over ≡ None → h.at.count < h.at.budget) × (slice_index h.registers 0 ≡ 0) };
}

impl Hart {
    ghost use Rattle.std.specs.Prelude.{◌≡◌, ◌<◌, ◌≤◌, ◌%◌, ℕ, true, None, Some, slice_index};
    ghost use Rattle.plural_regions.specs.Rights.{may_read};
    ghost use Rattle.plural_core.specs.Port.{Makes};
    ghost use Rattle.plural_base.specs.Told.{Foresees};
    ghost use Rattle.plural_core.specs.Turn.{outcome_of, turn_of, start_of};
    ghost use Rattle.plural_core.specs.Progress.{core_of, progress_of};

    /// The start of an instance: pc at the entry, x10 = k, x11 = q, all other registers 0.
    #[inline(always)]
    pub fn start(job: Job) -> Hart
        requires budget { 1 ≤ job.budget }
        requires limit { job.budget ≤ 100000000 }
        requires entry { job.entry % 4 ≡ 0 }
        ensures { result ≡ start_of job.entry job.k job.q job.budget }
    {
        let mut registers = [0; 32];
        registers[10] = job.k;
        registers[11] = job.q;
        Hart {
            at: Progress {
                pc: job.entry,
                count: 0,
                k: job.k,
                budget: job.budget,
            },
            over: None,
            registers,
        }
    }

    /// One instruction, as the model's turn over what the port holds. A trap changes nothing but the
    /// end.
    #[inline(always)]
    pub fn turn<P: DataPort>(&mut self, code: &Code, regions: &[Region], port: &mut P) -> Turn
        requires going { self.old.state.over ≡ None }
        requires sound { P.is_sound port.old }
        requires lawful { (a : ℕ) → may_read regions.now self.old.k a ≡ true → (P.told port.old).lawful a ≡ true }
        requires loads { (P.counts port.old).reads ≤ self.old.state.count }
        requires stores { (P.counts port.old).writes ≤ self.old.state.count }
        requires expected { Foresees (P.told port.old).expects
            (turn_of code.now regions.now self.old (P.told port.old).words).stores }
        ensures state { self.new ≡ record self.old
            { state = (turn_of code.now regions.now self.old (P.told port.old).words).state } }
        ensures port { Makes P.told P.counts P.stands_for P.keeps P.is_sound port.old port.new
            (turn_of code.now regions.now self.old (P.told port.old).words) }
        ensures outcome { result ≡ outcome_of self.new.state.over }
        ensures within { self.new.state.over ≡ None → self.new.state.count < self.new.budget }
    {
        let mut recent = Recent::none();
        let Hart { at, registers, .. } = self;
        let turn = turn_by(
            at,
            registers,
            &mut recent,
            code,
            code.laid_out(),
            regions,
            port,
        );
        if let Turn::Over(end) = turn {
            self.over = Some(end);
        }
        turn
    }

    /// How many instructions have completed.
    #[inline(always)]
    pub fn counted(&self) -> u32
        ensures { result ≡ self.now.state.count }
    {
        self.at.count
    }

    /// Where the instance stands.
    #[inline(always)]
    pub(crate) fn progress(&self) -> Progress
        ensures value { result ≡ progress_of self.now }
        ensures limit { result.budget ≤ 100000000 }
    {
        self.at
    }

    /// The registers.
    #[inline(always)]
    pub(crate) fn registers(&self) -> [u32; 32]
        ensures value { result ≡ self.now.state.registers }
        ensures zero { slice_index result 0 ≡ 0 }
    {
        self.registers
    }

    /// The core of an instance that stands here with these registers, and has this end.
    #[inline(always)]
    pub(crate) fn ended(at: Progress, registers: [u32; 32], end: End) -> Hart
        requires limit { at.budget ≤ 100000000 }
        requires bound { at.count ≤ at.budget }
        requires zero { slice_index registers 0 ≡ 0 }
        ensures { result ≡ core_of at registers (Some end) }
    {
        Hart {
            at,
            over: Some(end),
            registers,
        }
    }
}
