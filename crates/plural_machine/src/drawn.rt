//! All cores on one thread, in an order that is drawn.
ghost use Rattle.std.specs.Prelude.{◌≡◌, ◌<◌, ◌≤◌, List, ℕ, length};
ghost use Rattle.std.specs.List.{range_with_len};
ghost use Rattle.rand_pcg.specs.Pcg.{pcg32};
ghost use Rattle.plural_machine.specs.Drawn.{drawn_place, AreRising, AreStaying, HasHadTurn, HaveHadTurns};
ghost use Rattle.plural_machine.specs.Together.{Each, IsSent, HaveComeBack};

use arrayvec::ArrayVec;
use plural_cores::{Core, CoreTurn, Gate};
use plural_serial::Program;
use plural_sync::Synchroniser;
use plural_words::Words;
use rand_core::SeedableRng;
use rand_core::utils::NextWord;
use rand_pcg::Pcg32;

// The numbers of so many cores, by rising number.
fn all_numbers(count: u32) -> ArrayVec<u32, 64>
    requires few { count ≤ 64 }
    ensures { result.items ≡ range_with_len 0 count }
{
    let mut numbers = ArrayVec::new();
    for i in 0..count {
        numbers.push(i);
    }
    numbers
}

// The place of the next turn, of so many: the generator's next word, modulo their count.
fn draw_place(rng: &mut Pcg32, count: usize) -> usize
    requires some { 0 < count }
    ensures place { result ≡ drawn_place rng.old count }
    ensures within { result < count }
    ensures rest { rng.new ≡ (pcg32 rng.old).1 }
{
    rng.next_word() as usize % count
}

// The turn of a core that is drawn among those that stay. One that leaves stays no longer.
fn next_turn<G: Gate>(
    words: &Words,
    program: &Program,
    sync: &Synchroniser,
    gate: &G,
    cores: &mut [Core],
    staying: &mut ArrayVec<u32, 64>,
    rng: &mut Pcg32,
)
    requires program { program.now ≡ words.now.opening.program }
    requires sync { sync.now ≡ program.now }
    requires some { 0 < length staying.old.items }
    requires rising { AreRising (length cores.old) staying.old.items }
    requires between { (first : List ℕ) × AreStaying words.now first staying.old.items cores.old }
    ensures turn { HasHadTurn words.now (drawn_place rng.old (length staying.old.items)) staying.old.items cores.old
        staying.new.items cores.new }
    ensures rest { rng.new ≡ (pcg32 rng.old).1 }
{
    let place = draw_place(rng, staying.len());
    let i = staying[place] as usize;
    let answer = cores[i].turn(program, words, sync, gate);
    match answer {
        CoreTurn::Left => {
            staying.remove(place);
        }
        CoreTurn::Worked | CoreTurn::Nothing => {}
    }
}

/// Lets each core work until it leaves, all on this thread. Of the m cores that haven't left, by rising number, the
/// one at place (next word modulo m) has the next turn; the words are those of a `Pcg32` of this seed. No memory is
/// taken.
pub(crate) fn advance_in_order<G: Gate>(
    words: &Words,
    program: &Program,
    sync: &Synchroniser,
    gate: &G,
    cores: &mut [Core],
    seed: u64,
)
    requires program { program.now ≡ words.now.opening.program }
    requires sync { sync.now ≡ program.now }
    requires few { length cores.old ≤ 64 }
    requires sent { (first : List ℕ) × Each (IsSent words.now first) cores.old }
    ensures turns { HaveHadTurns words.now seed cores.old cores.new }
    ensures back { HaveComeBack words.now cores.old cores.new }
    ensures all { length cores.new ≡ length cores.old }
{
    let mut rng = Pcg32::seed_from_u64(seed);
    let mut staying = all_numbers(cores.len() as u32);
    while !staying.is_empty() {
        next_turn(words, program, sync, gate, cores, &mut staying, &mut rng);
    }
}
