//! Reading all that a source has left.

ghost use Rattle.std.specs.Prelude.{◌≡◌, ◌<◌, ◌≤◌, ◌↔◌, ◌⊎◌, List, ℕ, IfOk, OnOk, length};
ghost use Rattle.std.specs.Result.{IsErrOf};
ghost use Rattle.std.specs.Io.KnownBytes.{Consumes, IsAtEnd};
ghost use Rattle.plural_bytes.specs.Causes.{Rose};

use crate::outside::Source;
use std::alloc::Global;

/// Why not all of a source was read. The bytes that were taken from it are lost.
#[derive(Clone, Copy, Debug, PartialEq, Eq)]
pub enum ReadError {
    /// The source failed.
    Fault,
    /// It gave more bytes than the limit.
    TooLong,
    /// Memory ran out.
    Memory,
}

/// All that the source has left, if that is at most `limit` bytes. It is read until it gives none;
/// reading stops as soon as more than `limit` were taken, and at its first failure.
pub fn read_all<S: Source>(alloc: Global, source: &mut S, limit: u32) -> Result<Vec<u8>, ReadError>
    requires { limit ≤ 67108864 }
    ensures all { IfOk result (λ v. Consumes (S.left source.old) (S.left source.new) v.items) }
    ensures end { OnOk result (IsAtEnd (S.left source.new)) }
    ensures short { IfOk result (λ v. length v.items ≤ limit) }
    ensures too_long { (bytes : List ℕ) × Consumes (S.left source.old) (S.left source.new) bytes
        × (IsErrOf result ReadError.TooLong ↔ limit < length bytes) }
    ensures fault { IsErrOf result ReadError.Fault → Rose (S.faults source.old) (S.faults source.new) }
    ensures unfailed { IsErrOf result ReadError.Fault ⊎ (S.faults source.new ≡ S.faults source.old) }
{
    let mut bytes = Vec::new(alloc);
    let mut piece = [0; 4096];
    loop {
        match source.read(&mut piece) {
            Err(_) => return Err(ReadError::Fault),
            Ok(0) => return Ok(bytes),
            Ok(n) => {
                if n > limit as usize - bytes.len() {
                    return Err(ReadError::TooLong);
                }
                if bytes.extend_from_slice(&piece[..n]).is_err() {
                    return Err(ReadError::Memory);
                }
            }
        }
    }
}
