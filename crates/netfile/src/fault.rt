// How the file layer refuses.
ghost use Rattle.std.specs.Prelude.{◌≡◌};
ghost use Rattle.netfile.specs.Records.{file_fault};

use network::{Cause, Fault, Layer};

// A fault of the file itself, in the record that begins at a byte.
pub(crate) fn file_fault(cause: Cause, byte: usize) -> Fault
    ensures { result ≡ file_fault cause byte }
{
    Fault::of_nobody(Layer::File, cause).at_byte(byte)
}
