//! What each step keeps and tells: for every opening, whatever the words are and whatever the other views.
ghost use Rattle.plural_rule.specs.Laws.{LoadsAlloc, TakesInstance, LosesInstance, BeginsInstance, LoadsMemory};
ghost use Rattle.plural_rule.specs.Laws.{StoresMemory, EndsInstance, NotesField, FinishesInstance, MarksEnd};
ghost use Rattle.plural_rule.specs.Laws.{CountsInstance, LoadsFlags, MarksDependency, CountsDependency, LoadsState};
ghost use Rattle.plural_rule.specs.Laws.{ArmsTask, DutiesSound, SplitsSeat, JoinsSeat, OpensWords, AllTold};
ghost use Rattle.plural_rule.specs.Laws.{ToldOutcome, ClosesWords};
ghost use Rattle.plural_rule.specs.Laws.{PlacesWithin};
ghost use Rattle.plural_rule.specs.Laws.{ClockCounts};
ghost use Rattle.plural_rule.specs.Named.{SerialRunNamed};

/// A load of an alloc word keeps the rule, and finds no less than the seat had found.
pub fn load_alloc()
    ensures { LoadsAlloc }
{}

/// An exchange of an alloc word that goes through hands out one instance, and keeps the rule.
pub fn take_instance()
    ensures { TakesInstance }
{}

/// One that doesn't finds more than the seat had found.
pub fn lose_instance()
    ensures { LosesInstance }
{}

/// To draw the start ticket of an instance keeps the rule.
pub fn begin_instance()
    ensures { BeginsInstance }
{}

/// A load of a word that the instance may read finds what it has there in the serial run.
pub fn load_memory()
    ensures { LoadsMemory }
{}

/// The next store of an instance keeps the rule.
pub fn store_memory()
    ensures { StoresMemory }
{}

/// To draw the end ticket of an instance that has made all its stores keeps the rule.
pub fn end_instance()
    ensures { EndsInstance }
{}

/// To note a field of the record of an ended instance keeps the rule.
pub fn note_field()
    ensures { NotesField }
{}

/// To set the done word of an instance whose record is noted keeps the rule.
pub fn finish_instance()
    ensures { FinishesInstance }
{}

/// To flag the end of a done instance keeps the rule.
pub fn mark_end()
    ensures { MarksEnd }
{}

/// To count an instance keeps the rule; after the last one its task is to be closed.
pub fn count_instance()
    ensures { CountsInstance }
{}

/// The flags of a task to be closed say its outcome, and to close it keeps the rule.
pub fn load_flags()
    ensures { LoadsFlags }
{}

/// To mark a dependency keeps the rule.
pub fn mark_dependency()
    ensures { MarksDependency }
{}

/// To count a dependency keeps the rule; after the last one the successor is to be decided.
pub fn count_dependency()
    ensures { CountsDependency }
{}

/// The state of a task to be decided says what is decided of it, and to decide it keeps the rule.
pub fn load_state()
    ensures { LoadsState }
{}

/// A task to be armed wasn't, and to arm it keeps the rule.
pub fn arm_task()
    ensures { ArmsTask }
{}

/// The duties of each view are sound.
pub fn duties_sound()
    ensures { DutiesSound }
{}

/// To send out a seat keeps the rule.
pub fn split_seat()
    ensures { SplitsSeat }
{}

/// To take back a free seat that owes nothing keeps the rule.
pub fn join_seat()
    ensures { JoinsSeat }
{}

/// The first words of a program whose map has no clash meet the rule, with the root alone.
pub fn open_words()
    ensures { OpensWords }
{}

/// A lone root that knows each armed task as wholly handed out has told every task.
pub fn all_told()
    ensures { AllTold }
{}

/// A task that a view has told was told its outcome in the serial run, and its counters say it.
pub fn told_outcome()
    ensures { ToldOutcome }
{}

/// If a lone root has told every task, the memory is that of the serial run, and exactly its instances are done, each
/// with its record.
pub fn close_words()
    ensures { ClosesWords }
{}

/// All places are within the words.
pub fn places_within()
    ensures { PlacesWithin }
{}

/// The clock is twice the number of done instances, plus what the others have drawn.
pub fn clock_counts()
    ensures { ClockCounts }
{}

/// What the names of this crate say of the serial run.
pub fn serial_run_named()
    ensures { SerialRunNamed }
{}
