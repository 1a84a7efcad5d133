//! Laws over definitions.
ghost use Rattle.plural_map.specs.Order.{DeclaredOrder};
ghost use Rattle.plural_map.specs.WholeOrder.{WholeOrder};
ghost use Rattle.plural_map.specs.Cycle.{CycleOrWhole, OneCycle};

/// The order of a map whose tasks depend on earlier ones alone is that of declaration.
pub fn declared_order()
    ensures { DeclaredOrder }
{}

/// The order of a map has the number of each task, and of each once.
pub fn whole_order()
    ensures { WholeOrder }
{}

/// Tasks of which the order doesn't reach each have a cycle.
pub fn cycle_or_whole()
    ensures { CycleOrWhole }
{}

/// Tasks have at most one cycle, and none if the order reaches each of them.
pub fn one_cycle()
    ensures { OneCycle }
{}
