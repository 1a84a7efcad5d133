//! A hart over a cache over a store buffer over any bus.
ghost use Rattle.std.specs.Prelude.{◌≡◌, ◌≤◌, ◌<◌, ℕ, None, Some, true};
ghost use Rattle.plural_base.specs.Told.{Foresees, Expects};
ghost use Rattle.plural_cache.specs.Buffer.{told_through};
ghost use Rattle.plural_regions.specs.Rights.{may_read};
ghost use Rattle.plural_core.specs.Life.{rest_of};
ghost use Rattle.plural_core.specs.Turn.{outcome_of, turn_of};
ghost use Rattle.plural_serial.specs.Cached.{IsCacheOver};
ghost use Rattle.plural_stages.specs.Stacked.{stack, IsStacked, HasPassed, HasSunk};

use crate::lent::Lent;
use plural_cache::{Buffered, Bus, Cache, StoreBuffer};
use plural_core::{End, Hart, Turn, run};
use plural_isa::Code;
use plural_regions::Region;
use plural_serial::Cached;

/// One instruction of a hart over a cache over a bus.
#[inline(always)]
fn turn_cached<B: Bus>(
    hart: &mut Hart,
    cache: &mut Cache,
    bus: &mut B,
    code: &Code,
    regions: &[Region],
) -> Turn
    requires going { hart.old.state.over ≡ None }
    requires sound { B.is_sound bus.old }
    requires over { IsCacheOver cache.old (B.told bus.old) (B.counts bus.old) }
    requires lawful { (a : ℕ) → may_read regions.now hart.old.k a ≡ true → (B.told bus.old).lawful a ≡ true }
    requires loads { cache.old.loads ≤ hart.old.state.count }
    requires stores { cache.old.stores ≤ hart.old.state.count }
    requires expected { Foresees (B.told bus.old).expects
        (turn_of code.now regions.now hart.old (B.told bus.old).words).stores }
    ensures state { hart.new ≡ record hart.old
        { state = (turn_of code.now regions.now hart.old (B.told bus.old).words).state } }
    ensures passed { HasPassed (turn_of code.now regions.now hart.old (B.told bus.old).words) cache.old cache.new
        (B.told bus.old) (B.told bus.new) (B.counts bus.old) (B.counts bus.new) }
    ensures keeps { B.keeps bus.old bus.new }
    ensures sound { B.is_sound bus.new }
    ensures outcome { result ≡ outcome_of hart.new.state.over }
    ensures within { hart.new.state.over ≡ None → hart.new.state.count < hart.new.budget }
{
    let mut port = Cached { cache, bus };
    hart.turn(code, regions, &mut port)
}

/// One instruction of a hart over a cache over a bus that is lent.
#[inline(always)]
fn turn_lent<B: Bus>(
    hart: &mut Hart,
    cache: &mut Cache,
    bus: &mut B,
    code: &Code,
    regions: &[Region],
) -> Turn
    requires going { hart.old.state.over ≡ None }
    requires sound { B.is_sound bus.old }
    requires over { IsCacheOver cache.old (B.told bus.old) (B.counts bus.old) }
    requires lawful { (a : ℕ) → may_read regions.now hart.old.k a ≡ true → (B.told bus.old).lawful a ≡ true }
    requires loads { cache.old.loads ≤ hart.old.state.count }
    requires stores { cache.old.stores ≤ hart.old.state.count }
    requires expected { Foresees (B.told bus.old).expects
        (turn_of code.now regions.now hart.old (B.told bus.old).words).stores }
    ensures state { hart.new ≡ record hart.old
        { state = (turn_of code.now regions.now hart.old (B.told bus.old).words).state } }
    ensures passed { HasPassed (turn_of code.now regions.now hart.old (B.told bus.old).words) cache.old cache.new
        (B.told bus.old) (B.told bus.new) (B.counts bus.old) (B.counts bus.new) }
    ensures keeps { B.keeps bus.old bus.new }
    ensures sound { B.is_sound bus.new }
    ensures outcome { result ≡ outcome_of hart.new.state.over }
    ensures within { hart.new.state.over ≡ None → hart.new.state.count < hart.new.budget }
{
    let mut lent = Lent { bus };
    turn_cached(hart, cache, &mut lent, code, regions)
}

/// One instruction of a hart over a cache over a store buffer over a bus.
#[inline(always)]
pub(crate) fn turn_through<B: Bus>(
    hart: &mut Hart,
    cache: &mut Cache,
    buffer: &mut StoreBuffer,
    bus: &mut B,
    code: &Code,
    regions: &[Region],
) -> Turn
    requires going { hart.old.state.over ≡ None }
    requires sound { B.is_sound bus.old }
    requires stacked { IsStacked (stack cache.old buffer.old (B.told bus.old) (B.counts bus.old)) }
    requires lawful { (a : ℕ) → may_read regions.now hart.old.k a ≡ true → (B.told bus.old).lawful a ≡ true }
    requires loads { cache.old.loads ≤ hart.old.state.count }
    requires stores { cache.old.stores ≤ hart.old.state.count }
    requires expected { Foresees (told_through buffer.old (B.told bus.old)).expects
        (turn_of code.now regions.now hart.old (told_through buffer.old (B.told bus.old)).words).stores }
    ensures state { hart.new ≡ record hart.old
        { state = (turn_of code.now regions.now hart.old (told_through buffer.old (B.told bus.old)).words).state } }
    ensures sunk { HasSunk (turn_of code.now regions.now hart.old (told_through buffer.old (B.told bus.old)).words)
        (stack cache.old buffer.old (B.told bus.old) (B.counts bus.old))
        (stack cache.new buffer.new (B.told bus.new) (B.counts bus.new)) }
    ensures keeps { B.keeps bus.old bus.new }
    ensures sound { B.is_sound bus.new }
    ensures outcome { result ≡ outcome_of hart.new.state.over }
    ensures within { hart.new.state.over ≡ None → hart.new.state.count < hart.new.budget }
{
    let mut buffered = Buffered { buffer, bus };
    turn_lent(hart, cache, &mut buffered, code, regions)
}

/// All instructions that a hart has still to make, and its end, over a cache over a bus.
#[inline(always)]
fn run_cached<B: Bus>(
    hart: &mut Hart,
    cache: &mut Cache,
    bus: &mut B,
    code: &Code,
    regions: &[Region],
) -> End
    requires going { hart.old.state.over ≡ None }
    requires room { hart.old.state.count < hart.old.budget }
    requires sound { B.is_sound bus.old }
    requires over { IsCacheOver cache.old (B.told bus.old) (B.counts bus.old) }
    requires lawful { (a : ℕ) → may_read regions.now hart.old.k a ≡ true → (B.told bus.old).lawful a ≡ true }
    requires loads { cache.old.loads ≤ hart.old.state.count }
    requires stores { cache.old.stores ≤ hart.old.state.count }
    requires expected { Expects (B.told bus.old).expects
        (rest_of code.now regions.now hart.old (B.told bus.old).words).stores }
    ensures state { hart.new ≡ record hart.old
        { state = (rest_of code.now regions.now hart.old (B.told bus.old).words).state } }
    ensures passed { HasPassed (rest_of code.now regions.now hart.old (B.told bus.old).words) cache.old cache.new
        (B.told bus.old) (B.told bus.new) (B.counts bus.old) (B.counts bus.new) }
    ensures keeps { B.keeps bus.old bus.new }
    ensures sound { B.is_sound bus.new }
    ensures end { hart.new.state.over ≡ Some result }
{
    let mut port = Cached { cache, bus };
    run(hart, code, regions, &mut port)
}

/// All instructions that a hart has still to make, and its end, over a cache over a store buffer over a bus.
#[inline(always)]
pub(crate) fn run_through<B: Bus>(
    hart: &mut Hart,
    cache: &mut Cache,
    buffer: &mut StoreBuffer,
    bus: &mut B,
    code: &Code,
    regions: &[Region],
) -> End
    requires going { hart.old.state.over ≡ None }
    requires room { hart.old.state.count < hart.old.budget }
    requires sound { B.is_sound bus.old }
    requires stacked { IsStacked (stack cache.old buffer.old (B.told bus.old) (B.counts bus.old)) }
    requires lawful { (a : ℕ) → may_read regions.now hart.old.k a ≡ true → (B.told bus.old).lawful a ≡ true }
    requires loads { cache.old.loads ≤ hart.old.state.count }
    requires stores { cache.old.stores ≤ hart.old.state.count }
    requires expected { Expects (told_through buffer.old (B.told bus.old)).expects
        (rest_of code.now regions.now hart.old (told_through buffer.old (B.told bus.old)).words).stores }
    ensures state { hart.new ≡ record hart.old
        { state = (rest_of code.now regions.now hart.old (told_through buffer.old (B.told bus.old)).words).state } }
    ensures sunk { HasSunk (rest_of code.now regions.now hart.old (told_through buffer.old (B.told bus.old)).words)
        (stack cache.old buffer.old (B.told bus.old) (B.counts bus.old))
        (stack cache.new buffer.new (B.told bus.new) (B.counts bus.new)) }
    ensures keeps { B.keeps bus.old bus.new }
    ensures sound { B.is_sound bus.new }
    ensures end { hart.new.state.over ≡ Some result }
{
    let mut buffered = Buffered { buffer, bus };
    run_cached(hart, cache, &mut buffered, code, regions)
}
