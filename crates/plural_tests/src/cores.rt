//! Cores that are given turns one by one, in the order that a seed draws.
ghost use Rattle.std.specs.Prelude.{◌≡◌, ◌<◌, ◌∷◌, [], OnOk};
ghost use Rattle.plural_order.specs.Sums.{times};
ghost use Rattle.plural_rule.specs.Stages.{outs_of};
ghost use Rattle.plural_words.specs.Seen.{IsRootOf};

use crate::trial::{bundle_of, call, words_of};
use plural_cli::{Gate, OpenGate};
use plural_cores::{Core, CoreTurn};
use plural_serial::Program;
use plural_sync::Synchroniser;
use plural_trace::Entry;
use plural_words::{Root, Words};
use rand_core::SeedableRng;
use rand_core::utils::NextWord;
use rand_pcg::Pcg32;
use std::alloc::Global;
use std::marker::Model;
use std::sync::atomic::{AtomicU64, Ordering};
use std::test::*;

/// A core that has entered, between two of its turns.
#[derive(Drop)]
struct Player<'w> {
    words: &'w Words,
    program: &'w Program,
    sync: &'w Synchroniser,
    core: Core,
}

impl<'w> Model for Player<'w> {
    ghost use Rattle.std.specs.Prelude.{◌≡◌, []};
    ghost use Rattle.plural_rule.specs.Opening.{Opening};
    ghost use Rattle.plural_cores.specs.Cores.{IsAtTurn};

    ghost Value = { Opening };

    ghost view = { λ p. p.words.now.opening };

    ghost invariant = { λ p. (p.program.now ≡ p.words.now.opening.program) × (p.sync.now ≡ p.program.now)
        × IsAtTurn p.words.now [] p.core };
}

impl<'w> Player<'w> {
    fn turn<G: Gate>(&mut self, gate: &G) -> CoreTurn {
        self.core.turn(self.program, self.words, self.sync, gate)
    }
}

/// Where and when an instance began and ended.
#[derive(Drop)]
struct Place {
    core: AtomicU64,
    start: AtomicU64,
    end_at: AtomicU64,
}

/// A gate that draws a ticket at each of its calls, and keeps by their numbers those of the instances of one task.
#[derive(Drop)]
struct Tickets {
    drawn: AtomicU64,
    places: Vec<Place>,
}

impl Tickets {
    fn new(alloc: Global, instances: u32) -> Result<Tickets, Fail> {
        let mut places = Vec::new(alloc);
        for _ in 0..instances {
            let place = Place {
                core: AtomicU64::new(0),
                start: AtomicU64::new(0),
                end_at: AtomicU64::new(0),
            };
            places.push(place).ok().ok_or("places")?;
        }
        Ok(Tickets {
            drawn: AtomicU64::new(0),
            places,
        })
    }

    /// Whether an entry tells where and when its instance began and ended.
    fn tells(&self, entry: &Entry) -> bool {
        match self.places.get(entry.rec.k as usize) {
            Some(place) => {
                place.core.load(Ordering::SeqCst) == entry.core as u64
                    && place.start.load(Ordering::SeqCst) == entry.start as u64
                    && place.end_at.load(Ordering::SeqCst) == entry.end_at as u64
            }
            None => false,
        }
    }
}

impl Gate for Tickets {
    fn begin(&self, core: u32, _t: u32, k: u32) {
        let ticket = self.drawn.fetch_add(1, Ordering::SeqCst);
        if let Some(place) = self.places.get(k as usize) {
            place.core.store(core as u64, Ordering::SeqCst);
            place.start.store(ticket, Ordering::SeqCst);
        }
    }

    fn end(&self, _core: u32, _t: u32, k: u32) {
        let ticket = self.drawn.fetch_add(1, Ordering::SeqCst);
        if let Some(place) = self.places.get(k as usize) {
            place.end_at.store(ticket, Ordering::SeqCst);
        }
    }
}

/// A core of this number that has entered.
fn entered<'w>(
    alloc: Global,
    words: &'w Words,
    root: &mut Root,
    program: &'w Program,
    sync: &'w Synchroniser,
    number: u32,
) -> Result<Player<'w>, Fail>
    requires program { program.now ≡ words.now.opening.program }
    requires sync { sync.now ≡ program.now }
    requires low { number < words.now.opening.cores }
    requires away { times number (outs_of root.old.view.role) ≡ 0 }
    requires of { IsRootOf words.now root.old }
    ensures of { IsRootOf words.now root.new }
    ensures out { OnOk result (outs_of root.new.view.role ≡ number ∷ outs_of root.old.view.role) }
{
    let mut core = Core::open(alloc, program, number)?;
    let seat = words.split(root, number);
    core.enter(seat);
    Ok(Player {
        words,
        program,
        sync,
        core,
    })
}

/// Gives turns until each core has left: of those that stay, by rising number, the one at place (next word modulo their
/// number) has the next turn.
fn play<G: Gate>(
    alloc: Global,
    players: &mut [Player<'_>],
    gate: &G,
    seed: u64,
) -> Result<(), Fail> {
    let mut words = Pcg32::seed_from_u64(seed);
    let mut staying: Vec<usize> = Vec::new(alloc);
    for i in 0..players.len() {
        staying.push(i)?;
    }
    for _ in 0..1_000_000 {
        if staying.is_empty() {
            return Ok(());
        }
        let place = words.next_word() as usize % staying.len();
        let player = players.get_mut(staying[place]).ok_or("a core")?;
        if player.turn(gate) == CoreTurn::Left {
            staying.remove(place);
        }
    }
    Err("a core that stays".into())
}

/// The tickets of three cores that play a program of one task, which are given turns in the order of a seed.
fn played(
    alloc: Global,
    words: &Words,
    root: &mut Root,
    program: &Program,
    sync: &Synchroniser,
    seed: u64,
) -> Result<Tickets, Fail>
    requires program { program.now ≡ words.now.opening.program }
    requires sync { sync.now ≡ program.now }
    requires three { words.now.opening.cores ≡ 3 }
    requires alone { outs_of root.old.view.role ≡ [] }
    requires of { IsRootOf words.now root.old }
{
    let mut players = [
        entered(alloc, words, root, program, sync, 0)?,
        entered(alloc, words, root, program, sync, 1)?,
        entered(alloc, words, root, program, sync, 2)?,
    ];
    let tickets = Tickets::new(alloc, 4)?;
    play(alloc, &mut players, &tickets, seed)?;
    Ok(tickets)
}

/// The tickets of three cores over the words of a bundle of one task.
fn tickets_of(alloc: Global, text: &str, seed: u64) -> Result<Tickets, Fail> {
    let bundle = bundle_of(alloc, text)?;
    let sync = Synchroniser::open(alloc, &bundle.program)?;
    let (words, mut root) = words_of(alloc, &bundle, 3)?;
    played(alloc, &words, &mut root, &bundle.program, &sync, seed)
}

/// One task each, of four and of two instances.
const BUNDLES: [(&str, usize); 2] = [
    (
        "plural 1\n[map]\nmemory 8\ncache 1 1\n\
        task put dup 4 entry put budget 9\nwrite 0 1 1\n\
        [kernels]\nput: slli x5, x10, 2\nsw x10, 0(x5)\nli x10, 0\necall\n[image]\n[end]\n",
        4,
    ),
    (
        "plural 1\n[map]\nmemory 8\ncache 1 1\n\
        task inc dup 2 entry inc budget 9\nwrite 0 1 1\n\
        [kernels]\ninc: slli x5, x10, 2\nlw x6, 0(x5)\naddi x6, x6, 1\nsw x6, 0(x5)\nli x10, 0\necall\n\
        [image]\n00000000: 0000000a 00000014\n[end]\n",
        2,
    ),
];

#[test]
fn draws(rt: HostRuntime) -> Result<(), Fail> {
    let alloc = rt.alloc();
    for (text, instances) in BUNDLES {
        for seed in 0..20 {
            let tickets = tickets_of(alloc, text, seed)?;
            let word = format!(in alloc; "{seed}")?;
            let command = ["run", "--cores", "3", "--order", word.as_str()];
            let left = call(&rt, alloc, &command, text.as_bytes(), &OpenGate)?;
            let kept = left.kept.ok_or("a machine")?;
            assert_eq!(rt; kept.entries().len(), instances);
            for entry in kept.entries() {
                assert!(rt; tickets.tells(entry), "seed {seed}");
            }
        }
    }
    Ok(())
}
