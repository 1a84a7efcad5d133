//! The rule of the table, and what each kind of step tells.
ghost use Rattle.std.specs.Prelude.{ℕ};
ghost use Rattle.plural_map.specs.declared.outcome.Outcome.{Outcome};
ghost use Rattle.plural_map.specs.declared.outcome.Outcome.TheVariants.{Failed};
ghost use Rattle.plural_rule.specs.Steps.{first_view, root_after, new_seat, joined, spent};
ghost use Rattle.plural_words.specs.Tells.{Holds, TellsLook, TellsExchange, TellsBegin, TellsRead, TellsStore, TellsEnd, TellsNote, TellsFinish, TellsAll};
ghost use Rattle.plural_words.specs.Tells.{TellsMark, TellsCount, TellsFlags, TellsMarkEdge, TellsCountEdge, TellsState, TellsArm};
ghost use Rattle.plural_words.specs.Seen.{no_opening};

use crate::key::Key;
use atomic_table::{Join, Play, Split, TableRule};
use plural_rule::View;
use std::marker::{Brand, PhantomData};

/// The rule over the words and all views.
pub struct Law;

impl TableRule<(), View, Key> for Law {
    ghost holds = { Holds };

    ghost first = { first_view };
}

/// A load of an alloc word.
pub struct Look;

impl Play<(), View> for Look {
    ghost then = { TellsLook };
}

/// An exchange of an alloc word.
pub struct Exchange;

impl Play<(), View> for Exchange {
    ghost then = { TellsExchange };
}

/// The start ticket of an instance is drawn.
pub struct Begin;

impl Play<(), View> for Begin {
    ghost then = { TellsBegin };
}

/// A load of a word of the memory.
pub struct Read;

impl Play<(), View> for Read {
    ghost then = { TellsRead };
}

/// A store to a word of the memory.
pub struct Store;

impl Play<(), View> for Store {
    ghost then = { TellsStore };
}

/// The end ticket of an instance is drawn.
pub struct End;

impl Play<(), View> for End {
    ghost then = { TellsEnd };
}

/// A store to a field of a record.
pub struct Note;

impl Play<(), View> for Note {
    ghost then = { TellsNote };
}

/// The store that makes an instance done.
pub struct Finish;

impl Play<(), View> for Finish {
    ghost then = { TellsFinish };
}

/// A load by the root.
pub struct All;

impl Play<(), View> for All {
    ghost then = { TellsAll };
}

/// Names the core of a seat at the call that splits it.
pub trait Naming {
    ghost core: { ℕ };
}

impl Naming for Brand {
    ghost core = { 0 };
}

/// A seat is split off the root.
pub struct Parting<N> {
    naming: PhantomData<N>,
}

impl<N: Naming> Split<View> for Parting<N> {
    ghost left = { λ v. root_after v N.core };

    ghost right = { λ v. new_seat v N.core };
}

/// A seat comes back to the root.
pub struct Joining;

impl Join<View> for Joining {
    ghost both = { joined };

    ghost spent = { spent no_opening };
}

/// Names the duty that a step does, at the call that takes it: its task; its instance, or the place of the successor
/// that is told; and the outcome that is told.
pub trait Owed {
    ghost task: { ℕ };

    ghost number: { ℕ };

    ghost outcome: { Outcome };
}

impl Owed for Brand {
    ghost task = { 0 };

    ghost number = { 0 };

    ghost outcome = { Failed };
}

/// The bits of an end join the flags of its task.
pub struct MarkEnd<N> {
    naming: PhantomData<N>,
}

impl<N: Owed> Play<(), View> for MarkEnd<N> {
    ghost then = { TellsMark N.task N.number };
}

/// An instance is counted off its task.
pub struct CountInstance<N> {
    naming: PhantomData<N>,
}

impl<N: Owed> Play<(), View> for CountInstance<N> {
    ghost then = { TellsCount N.task N.number };
}

/// A load of the flags of a task that is to be closed.
pub struct LoadFlags<N> {
    naming: PhantomData<N>,
}

impl<N: Owed> Play<(), View> for LoadFlags<N> {
    ghost then = { TellsFlags N.task };
}

/// The bits of a dependency join the state of a task.
pub struct MarkEdge<N> {
    naming: PhantomData<N>,
}

impl<N: Owed> Play<(), View> for MarkEdge<N> {
    ghost then = { TellsMarkEdge N.task N.outcome N.number };
}

/// A dependency is counted off a task.
pub struct CountEdge<N> {
    naming: PhantomData<N>,
}

impl<N: Owed> Play<(), View> for CountEdge<N> {
    ghost then = { TellsCountEdge N.task N.outcome N.number };
}

/// A load of the state of a task that is to be decided.
pub struct LoadState<N> {
    naming: PhantomData<N>,
}

impl<N: Owed> Play<(), View> for LoadState<N> {
    ghost then = { TellsState N.task };
}

/// A task is armed.
pub struct ArmTask<N> {
    naming: PhantomData<N>,
}

impl<N: Owed> Play<(), View> for ArmTask<N> {
    ghost then = { TellsArm N.task };
}
