//! Why lines are no bundle.

use plural_sections::{Fault, LineError};

/// Why lines are no bundle.
pub type BundleError = LineError<Fault>;
