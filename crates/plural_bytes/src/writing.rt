//! Writing a whole text.

ghost use Rattle.std.specs.Prelude.{◌≡◌, ◌<◌, OnOk, OnErr, length};
ghost use Rattle.std.specs.Io.KnownBytes.{Appends};
ghost use Rattle.plural_bytes.specs.Causes.{HasCause};
ghost use Rattle.plural_bytes.specs.Streams.{AppendsPrefix};

use crate::outside::Sink;

/// The sink failed before it had taken the whole text.
#[derive(Clone, Copy, Debug, PartialEq, Eq)]
pub struct WriteFault;

/// Writes the whole text: each write is handed all that is left of it, until nothing is or the
/// sink fails. An empty text is no write at all. How much each write takes is the sink's choice.
pub fn write_all<K: Sink>(sink: &mut K, text: &[u8]) -> Result<(), WriteFault>
    ensures ok { OnOk result (Appends (K.holds sink.old) (K.holds sink.new) text.now) }
    ensures err { OnErr result (AppendsPrefix (K.holds sink.old) (K.holds sink.new) text.now) }
    ensures nothing { length text.now ≡ 0 → sink.new ≡ sink.old }
    ensures cause { HasCause (K.faults sink.old) (K.faults sink.new) result }
{
    let mut rest = text;
    while !rest.is_empty() {
        match sink.write(rest) {
            Ok(n) => rest = &rest[n..],
            Err(_) => return Err(WriteFault),
        }
    }
    Ok(())
}
