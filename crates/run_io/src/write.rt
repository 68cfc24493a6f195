//! A text, written whole.
ghost use Rattle.std.specs.Prelude.{◌≡◌, ◌<◌, ◌≤◌, ℕ, length, take, OnOk, OnErr};
ghost use Rattle.mdb_ports.specs.Faults.{Rose};
ghost use Rattle.mdb_ports.specs.Sink.{Grows};

use mdb_ports::{Failed, Sink};

/// Writes a text whole, in as many calls as the sink wants. It takes no memory, and an empty text
/// makes no call.
///
/// # Errors
/// `Failed` where a call of the sink fails. It has then written the front of the text, and not all
/// of it.
#[tactic(auto, using(crate::proofs::Pieces::grows_nothing))]
pub fn write_all<S: Sink>(out: &mut S, text: &[u8]) -> Result<(), Failed>
    ensures grown { OnOk result (Grows (S.told out.old) (S.told out.new) text.now) }
    ensures front { OnErr result ((n : ℕ) × (n < length text.now)
        × Grows (S.told out.old) (S.told out.new) (take n text.now)) }
    ensures no_fault { OnOk result (S.faults out.new ≡ S.faults out.old) }
    ensures cause { OnErr result (Rose (S.faults out.old) (S.faults out.new)) }
    ensures later { S.faults out.old ≤ S.faults out.new }
{
    let mut written = 0;
    while written < text.len() {
        written += out.put(&text[written..])?;
    }
    Ok(())
}
