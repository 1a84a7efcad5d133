//! All cores side by side.
ghost use Rattle.std.specs.Prelude.{◌≡◌, List, ℕ, length};
ghost use Rattle.plural_machine.specs.Together.{Each, IsSent, HaveComeBack, IsAway, ComesBack};

use plural_cores::{Core, Gate};
use plural_serial::Program;
use plural_sync::Synchroniser;
use plural_words::Words;
use std::thread;
use std::thread::Threads;

/// Lets each core work until it leaves, each in a thread of its own if one can be made.
pub(crate) fn advance<R: Threads + Sync, G: Gate + Sync>(
    rt: &R,
    words: &Words,
    program: &Program,
    sync: &Synchroniser,
    gate: &G,
    cores: &mut [Core],
)
    requires program { program.now ≡ words.now.opening.program }
    requires sync { sync.now ≡ program.now }
    requires sent { (first : List ℕ) × Each (IsSent words.now first) cores.old }
    ensures back { HaveComeBack words.now cores.old cores.new }
    ensures all { length cores.new ≡ length cores.old }
{
    let all = cores.len().max(1);
    thread::for_each_mut(
        rt,
        cores,
        all,
        &|_, core: &mut Core|
            requires { (program.now ≡ words.now.opening.program) × (sync.now ≡ program.now)
                × IsAway words.now core.now }
            ensures { ComesBack words.entry.now core.entry.now core.exit.now }
        { core.work_until_left(program, words, sync, gate) },
    );
}
