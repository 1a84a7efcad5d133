//! Laws of worlds, and of the serial run of a program as one.
ghost use Rattle.plural_order.specs.Laws.{AnyOrder, ValueAlong, LoneWriter, WritersFirst, ValueAtStart, ValueAtEnd};
ghost use Rattle.plural_order.specs.Laws.{ValueOfAll, StoreByStore};
ghost use Rattle.plural_order.specs.ProgramLaws.{WorldOfProgram, OneBranch, MemoriesOfProgram, RecordsOfProgram};
ghost use Rattle.plural_order.specs.ProgramLaws.{AnyOrderOfProgram};
ghost use Rattle.plural_order.specs.TaskGraph.{RootsRun};
ghost use Rattle.plural_order.specs.ProgramGraph.{GraphOfProgram, OutcomesOfProgram};

/// Any order of a world's instances that keeps what comes before leaves the serial memory, and each instance lives in
/// it as in the serial run: the same end, instructions, loads and stores.
pub fn any_order<E>()
    ensures { AnyOrder E }
{}

/// After the first instances of an order, however many, each word of the memory has the value that the last of them to
/// write it, in the serial order, leaves there in the serial run.
pub fn value_along<E>()
    ensures { ValueAlong E }
{}

/// Two instances under way share no word that one of them may write.
pub fn lone_writer<E>()
    ensures { LoneWriter E }
{}

/// The done writers of a word are the first of its writers.
pub fn writers_first<E>()
    ensures { WritersFirst E }
{}

/// The value of each word that an instance under way may read is that at its start in the serial run.
pub fn value_at_start<E>()
    ensures { ValueAtStart E }
{}

/// While an instance is done and nothing after it is, the value of each word that it may write is what it leaves in the
/// serial run.
pub fn value_at_end<E>()
    ensures { ValueAtEnd E }
{}

/// Once all instances are done, the value of each word is that of the serial memory.
pub fn value_of_all<E>()
    ensures { ValueOfAll E }
{}

/// The memory of an instance in the serial run, store by store.
pub fn store_by_store<E>()
    ensures { StoreByStore E }
{}

/// The serial run of a program whose map has no clash is a world.
pub fn world_of_program()
    ensures { WorldOfProgram }
{}

/// Of two exclusive tasks one has no instance that runs.
pub fn one_branch()
    ensures { OneBranch }
{}

/// The memories of the serial run are those of its world.
pub fn memories_of_program()
    ensures { MemoriesOfProgram }
{}

/// The records of the serial run are those of the instances of its world.
pub fn records_of_program()
    ensures { RecordsOfProgram }
{}

/// In a map without a clash the instances may run in any order that the dependencies allow: the last memory is that of
/// the serial run, and each instance has its record there.
pub fn any_order_of_program()
    ensures { AnyOrderOfProgram }
{}

/// A task without dependencies runs, and no task comes before it.
pub fn roots_run()
    ensures { RootsRun }
{}

/// The serial run of a program is a task graph.
pub fn graph_of_program()
    ensures { GraphOfProgram }
{}

/// The outcomes and the decisions of the serial run are those of its task graph.
pub fn outcomes_of_program()
    ensures { OutcomesOfProgram }
{}
