ghost use Rattle.std.specs.Prelude.{◌≡◌, ◌<◌, ℕ, ◌++◌, IfSome, OnErr, OnOk, length, take};
ghost use Rattle.vk_files.specs.Causes.{HasCause};

use crate::sink::{Sink, WriteFailed};
use thiserror::Error;

/// The output could not be written whole.
#[derive(Clone, Copy, Debug, PartialEq, Eq, Error)]
#[error("the output could not be written")]
pub struct SinkFailed;

/// Writes all bytes. Each `write` is handed all that is not yet taken. After a failure the sink has taken some
/// first bytes, and not all of them.
pub fn write_all<K: Sink>(sink: &mut K, bytes: &[u8]) -> Result<(), SinkFailed>
    ensures whole { IfSome (K.written sink.old) (λ w. OnOk result (K.written sink.new ≡ Some (w ++ bytes.now))) }
    ensures prefix { IfSome (K.written sink.old) (λ w. OnErr result ((n : ℕ) × (n < length bytes.now) × (K.written sink.new ≡ Some (w ++ take n bytes.now)))) }
    ensures cause { HasCause (K.faults sink.old) (K.faults sink.new) result }
{
    let mut taken = 0;
    while taken < bytes.len() {
        match sink.write(&bytes[taken..]) {
            Ok(count) => taken += count,
            Err(WriteFailed) => return Err(SinkFailed),
        }
    }
    Ok(())
}
