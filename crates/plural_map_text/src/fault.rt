ghost use Rattle.std.specs.Prelude.{◌≡◌};
ghost use Rattle.plural_map_text.specs.Kinds.{map_fault};

use plural_map::Names;
use plural_sections::{Fault, LineError};

/// What is wrong with a map line. A line's fault is the first of these that it has.
#[derive(Debug, PartialEq, Eq, Drop)]
pub enum MapKind {
    /// The line has the shape of no map line, or stands in another line's place, or nothing precedes it that it
    /// belongs to.
    Form,
    /// A number is out of its range.
    Number,
    /// A task's name was declared before, an entry is no label, or a dependency's task is that of no task line (by
    /// version 1, of none before the current task's) or was named by the current task already.
    Name,
    /// There is a task, an instance, a dependency or a region too many.
    Count,
    /// Instance `k`, counted from 0, is the least that has a word of the region outside the memory.
    Outside { k: u32 },
    /// The order of the tasks doesn't reach each: these are the names of the tasks of the cycle, in its order.
    Cycle { names: Names },
}

/// Why there is no map.
pub type MapError = LineError<MapKind>;

impl From<MapKind> for Fault {
    ghost from_gives = { λ kind fault. fault ≡ map_fault kind };

    fn from(kind: MapKind) -> Fault {
        match kind {
            MapKind::Form => Fault::Form,
            MapKind::Number => Fault::Number,
            MapKind::Name => Fault::Name,
            MapKind::Count => Fault::Count,
            MapKind::Outside { k } => Fault::Outside { k },
            MapKind::Cycle { names } => Fault::Cycle { names },
        }
    }
}
