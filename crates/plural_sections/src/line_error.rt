//! Why lines have no value.

ghost use Rattle.std.specs.Prelude.{◌≡◌, Ok, MatchResult, IsErrAnd};
ghost use Rattle.plural_sections.specs.Errors.{IsRenamed};
ghost use Rattle.plural_sections.specs.declared.line_error.LineError.TheVariants.{Memory};

use std::alloc::{AllocError, AllocFailed};

/// Why lines have no value: the first fault of the lines, or that memory ran out. `K` has the kinds
/// of faults that a line may have.
#[derive(Clone, Copy, Debug, PartialEq, Eq, Drop)]
pub enum LineError<K> {
    /// The first line with a fault, by its number in the text from 1, and the least kind of fault that
    /// it has.
    At { line: u32, kind: K },
    /// Memory ran out.
    Memory,
}

impl<K> From<plural_base::Memory> for LineError<K> {
    ghost from_gives = { λ _ e. e ≡ Memory };

    fn from(_e: plural_base::Memory) -> LineError<K> {
        LineError::Memory
    }
}

impl<K> From<AllocError> for LineError<K> {
    ghost from_gives = { λ _ e. e ≡ Memory };

    fn from(_e: AllocError) -> LineError<K> {
        LineError::Memory
    }
}

impl<K, T: Drop> From<AllocFailed<T>> for LineError<K> {
    ghost from_gives = { λ _ e. e ≡ Memory };

    fn from(_e: AllocFailed<T>) -> LineError<K> {
        LineError::Memory
    }
}

impl<K> LineError<K> {
    /// The error with its kind under the name that it has in a whole of several sections.
    pub fn renamed<L: From<K>>(self) -> LineError<L>
        ensures { IsRenamed L.from_gives self result }
    {
        match self {
            LineError::Memory => LineError::Memory,
            LineError::At { line, kind } => LineError::At {
                line,
                kind: L::from(kind),
            },
        }
    }
}

/// The result with an error's kind under the name that it has in a whole of several sections.
pub fn renamed<V, K, L: From<K>>(given: Result<V, LineError<K>>) -> Result<V, LineError<L>>
    ensures { MatchResult result (λ v. given ≡ Ok v) (λ error. IsErrAnd given (λ e. IsRenamed L.from_gives e error)) }
{
    match given {
        Ok(value) => Ok(value),
        Err(e) => Err(e.renamed()),
    }
}
