ghost use Rattle.std.specs.Prelude.{◌≡◌};
ghost use Rattle.plural_log.specs.Kinds.{log_fault};

use plural_sections::{Fault, LineError};

/// What is wrong with a log line. A line's fault is the first of these that it has.
#[derive(Clone, Copy, Debug, PartialEq, Eq)]
pub enum LogKind {
    /// The line has the shape of no log line, or stands in another line's place.
    Form,
    /// The number of cores isn't 1 to 64, a trap's cause isn't 1 to 9, or another number is above 4,294,967,295.
    Number,
    /// A task line's name isn't that of the task in its place, or an entry's name is no task.
    Name,
    /// It is the 65,537th entry.
    Count,
}

/// Why there is no log.
pub type LogError = LineError<LogKind>;

impl From<LogKind> for Fault {
    ghost from_gives = { λ kind fault. fault ≡ log_fault kind };

    fn from(kind: LogKind) -> Fault {
        match kind {
            LogKind::Form => Fault::Form,
            LogKind::Number => Fault::Number,
            LogKind::Name => Fault::Name,
            LogKind::Count => Fault::Count,
        }
    }
}
