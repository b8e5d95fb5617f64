//! Where bytes are written.
ghost use Rattle.std.specs.Prelude.{◌≡◌, ◌≤◌, ◌<◌, ℕ, List, length, take, Option, IfOk, OnOk, OnErr};
ghost use Rattle.outside.specs.Faults.{Rose};
ghost use Rattle.outside.specs.Sink.{Appends, AppendsShorter};

use thiserror::Error;

/// A write failed, and the sink has counted it.
#[derive(Clone, Copy, Debug, PartialEq, Eq, Error)]
#[error("the output could not be written")]
pub struct SinkFault;

/// A list of bytes that grows at its end.
pub trait Sink {
    /// The bytes taken, if the sink tells them.
    ghost taken: { Self → Option (List ℕ) };

    /// How many writes have failed, up to the last value of a `u64`.
    ghost faults: { Self → ℕ };

    /// Takes the first bytes of a piece, one at least, and answers how many.
    fn put(&mut self, bytes: &[u8]) -> Result<usize, SinkFault>
        requires { 0 < length bytes.now }
        ensures some { IfOk result (λ n. 0 < n) }
        ensures bound { IfOk result (λ n. n ≤ length bytes.now) }
        ensures appended { IfOk result (λ n. Appends (taken self.old) (taken self.new) (take n bytes.now)) }
        ensures kept { OnErr result (taken self.new ≡ taken self.old) }
        ensures cause { OnErr result (Rose (faults self.old) (faults self.new)) }
        ensures never_falls { faults self.old ≤ faults self.new };
}

/// Puts one piece after another until all the bytes are taken. It takes no memory.
pub fn put_all<W: Sink>(out: &mut W, bytes: &[u8]) -> Result<(), SinkFault>
    ensures all { OnOk result (Appends (W.taken out.old) (W.taken out.new) bytes.now) }
    ensures part { OnErr result (AppendsShorter (W.taken out.old) (W.taken out.new) bytes.now) }
    ensures cause { OnErr result (Rose (W.faults out.old) (W.faults out.new)) }
    ensures never_falls { W.faults out.old ≤ W.faults out.new }
{
    let mut at = 0;
    while at < bytes.len() {
        at += out.put(&bytes[at..])?;
    }
    Ok(())
}
