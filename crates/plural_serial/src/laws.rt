//! Laws over the definitions.
ghost use Rattle.plural_serial.specs.Footprint.{Footprint};
ghost use Rattle.plural_serial.specs.Few.{FewRecords};
ghost use Rattle.plural_serial.specs.Records.{SerialRecords};
ghost use Rattle.plural_serial.specs.Laws.{SerialChained, SerialInstances, WhoRan, SerialSettled, WholeLives};

/// An instance of a program depends on the words that it may read alone, and stores where it may write.
pub fn footprint()
    ensures { Footprint }
{}

/// A serial run has at most 65,536 records: each task runs at most once, and their quotas sum to no more.
pub fn few_records()
    ensures { FewRecords }
{}

/// The first instance of a serial run starts from the opening image, each next one from what the one before left, and
/// the last leaves the last memory; all these memories have as many words as the image.
pub fn serial_chained()
    ensures { SerialChained }
{}

/// The instances that run are those of the tasks that the outcomes decide to run: along the map's order, all instances
/// of each by rising number.
pub fn serial_instances()
    ensures { SerialInstances }
{}

/// An instance runs exactly if it is one of a task of the map that the outcomes decide to run.
pub fn who_ran()
    ensures { WhoRan }
{}

/// Each task has an outcome, which is that of the decision over all outcomes.
pub fn serial_settled()
    ensures { SerialSettled }
{}

/// The life of an instance has an end of a known kind and is within its budget; it stores where it may write, inside
/// the memory, and leaves the memory with its stores set in order.
pub fn whole_lives()
    ensures { WholeLives }
{}

/// Each record of a serial run is of an instance of the map, with an end of a known kind and counts within the budget.
pub fn serial_records()
    ensures { SerialRecords }
{}
