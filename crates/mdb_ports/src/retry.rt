//! Single reads and writes that a signal doesn't end.
ghost use Rattle.std.specs.Prelude.{◌≢◌, ◌≤◌, ◌<◌, length, take, IfOk, IfErr, OnErr};
ghost use Rattle.std.specs.Io.{ReadsAtMost};
ghost use Rattle.std.specs.Io.KnownBytes.{ReadConsumes, Appends, Keeps};
ghost use Rattle.std.specs.IoError.{error_kind};

use std::io::{self, ErrorKind, Read, Write};

/// One read into the front of a buffer, made again where a signal interrupted it. It gives how many
/// bytes it put there. After 2^64 - 1 interrupted reads it gives up.
pub(crate) fn read_retrying<R: Read>(from: &mut R, into: &mut [u8]) -> io::Result<usize>
    ensures bound { ReadsAtMost result into.new }
    ensures bytes { ReadConsumes (R.remaining from.old) (R.remaining from.new) result into.new }
    ensures retried { IfErr result (λ e. error_kind e ≢ ErrorKind.Interrupted) }
{
    for _ in 0..u64::MAX {
        match from.read(into) {
            Err(error) if error.kind() == ErrorKind::Interrupted => {}
            answer => return answer,
        }
    }
    Err(io::Error::from(ErrorKind::TimedOut))
}

/// One write of the front of a piece, made again where a signal interrupted it. It gives how many
/// bytes were taken. A stream that takes none would keep its caller trying for ever, so it has
/// failed. After 2^64 - 1 interrupted writes it gives up.
pub(crate) fn write_retrying<W: Write>(to: &mut W, piece: &[u8]) -> io::Result<usize>
    requires { 0 < length piece.now }
    ensures bound { IfOk result (λ n. (1 ≤ n) × (n ≤ length piece.now)) }
    ensures taken { IfOk result
        (λ n. Appends (W.contents to.old) (W.contents to.new) (take n piece.now)) }
    ensures kept { OnErr result (Keeps (W.contents to.old) (W.contents to.new)) }
    ensures retried { IfErr result (λ e. error_kind e ≢ ErrorKind.Interrupted) }
{
    for _ in 0..u64::MAX {
        match to.write(piece) {
            Ok(0) => return Err(io::Error::from(ErrorKind::WriteZero)),
            Err(error) if error.kind() == ErrorKind::Interrupted => {}
            answer => return answer,
        }
    }
    Err(io::Error::from(ErrorKind::TimedOut))
}
