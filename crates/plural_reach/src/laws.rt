//! Laws over coming before.
ghost use Rattle.plural_reach.specs.Laws.{BeforeTest, TableTest, BeforeThrough, BeforeRises, BeforeDecided, NeverItself};

/// The test for coming before is exact.
pub fn before_test()
    ensures { BeforeTest }
{}

/// The table that `reach` makes says what the test says.
pub fn table_test()
    ensures { TableTest }
{}

/// Coming before is transitive.
pub fn before_through()
    ensures { BeforeThrough }
{}

/// No task comes before one that stands no later in the order.
pub fn before_rises()
    ensures { BeforeRises }
{}

/// Of any two tasks, either one comes before the other or it doesn't.
pub fn before_decided()
    ensures { BeforeDecided }
{}

/// No task comes before itself.
pub fn never_itself()
    ensures { NeverItself }
{}
