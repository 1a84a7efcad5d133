//! Why lines are no output.

use plural_sections::{Fault, LineError};

/// Why lines are no output of a run.
pub type OutputError = LineError<Fault>;
