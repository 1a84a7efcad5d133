//! What may be wrong with a line of a text of sections.

use plural_map::Names;

/// What is wrong with a line of a text of sections. Of several kinds on one line the first that its
/// section lists is told.
#[derive(Debug, PartialEq, Eq, Drop)]
pub enum Fault {
    /// The line has no shape that may stand in its place.
    Form,
    /// A number is out of its range.
    Number,
    /// A name is defined already, or isn't defined.
    Name,
    /// There are more tasks, instances, dependencies, regions, words or labels than may be.
    Count,
    /// The target of a jump or a branch is out of its range, or odd.
    Reach,
    /// A word of the image lies past its end or not above those of the lines before.
    Address,
    /// Instance `k`, counted from 0, is the least that has a word of the region outside the memory.
    Outside { k: u32 },
    /// The order of the tasks doesn't reach each: these are the names of a cycle of tasks, each of which depends on the
    /// next, and the last on the first.
    Cycle { names: Names },
}
