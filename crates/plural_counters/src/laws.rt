//! Laws of the rule over counters and duties: what each step keeps, and what follows.
ghost use Rattle.plural_counters.specs.Laws.{Stays, HandsOut, Finishes, Marks, CountsOff, LoadsFlags};
ghost use Rattle.plural_counters.specs.Laws.{MarksEdge, CountsEdge, LoadsState, Arms, PendingDone};
ghost use Rattle.plural_counters.specs.Laws.{OneViewReplaces, OneDutyReplaces, SplitKeepsDuties, JoinKeepsDuties};
ghost use Rattle.plural_counters.specs.Laws.{ViewsAreSound, RoomForPhases, ProgressBounded, FirstCounted};
ghost use Rattle.plural_counters.specs.Laws.{ProgramCounted, AllTold, ToldOutcome, CountersTell, EachDutyOwed};

/// A step on another word that changes no duty keeps the rule.
pub fn stay()
    ensures { Stays }
{}

/// To hand out an instance of an armed task keeps the rule.
pub fn hand_out()
    ensures { HandsOut }
{}

/// To finish an instance keeps the rule; it is then to be flagged.
pub fn finish()
    ensures { Finishes }
{}

/// To flag an instance keeps the rule; it is then to be counted.
pub fn mark()
    ensures { Marks }
{}

/// To count an instance keeps the rule; after the last one the task is to be closed.
pub fn count()
    ensures { CountsOff }
{}

/// The flags of a task to be closed say its outcome, and to close it keeps the rule.
pub fn load_flags()
    ensures { LoadsFlags }
{}

/// To mark a dependency keeps the rule.
pub fn mark_edge()
    ensures { MarksEdge }
{}

/// To count a dependency keeps the rule; after the last one the successor is to be decided.
pub fn count_edge()
    ensures { CountsEdge }
{}

/// The state of a task to be decided says what is decided of it, and to decide it keeps the rule.
pub fn load_state()
    ensures { LoadsState }
{}

/// A task to be armed wasn't and may run, and to arm it keeps the rule.
pub fn arm()
    ensures { Arms }
{}

/// An instance that is to be flagged or counted is done.
pub fn pending_done()
    ensures { PendingDone }
{}

/// If one view replaces duties by others, they are replaced in the duties of all views.
pub fn one_view_replaces<V>()
    ensures { OneViewReplaces V }
{}

/// So it is for a view with two lists, of what it owes and what it was told.
pub fn one_duty_replaces<V>()
    ensures { OneDutyReplaces V }
{}

/// To split a view changes no duty.
pub fn split_keeps_duties<V>()
    ensures { SplitKeepsDuties V }
{}

/// To join two views changes no duty.
pub fn join_keeps_duties<V>()
    ensures { JoinKeepsDuties V }
{}

/// The duties of each view are sound.
pub fn views_are_sound<V>()
    ensures { ViewsAreSound V }
{}

/// There is room for the phases that sound duties say.
pub fn room_for_phases()
    ensures { RoomForPhases }
{}

/// The progress of sound duties is bounded.
pub fn progress_bounded()
    ensures { ProgressBounded }
{}

/// The first counters meet the rule.
pub fn first_counted<V>()
    ensures { FirstCounted V }
{}

/// So do those of each program.
pub fn program_counted()
    ensures { ProgramCounted }
{}

/// Once nothing is owed and all that was armed is done, each task was told its outcome.
pub fn all_told()
    ensures { AllTold }
{}

/// A task that was told was told its outcome.
pub fn told_outcome()
    ensures { ToldOutcome }
{}

/// The counters of a task that was told say its outcome.
pub fn counters_tell()
    ensures { CountersTell }
{}

/// Each kind of duty can be owed under the rule, with what its step wants besides: no law of a step is empty.
pub fn each_duty_owed()
    ensures { EachDutyOwed }
{}
