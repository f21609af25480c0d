// From a draft to its file and back, and from a file to its draft and back.
ghost use Rattle.std.specs.Prelude.{◌≡◌};
ghost use Rattle.network.specs.Answers.{Gives};
ghost use Rattle.netfile.specs.Writes.{Written};
ghost use Rattle.netfile.specs.RoundTrips.{copy_fault, Rewritten};

use crate::counting::count;
use crate::fault::file_fault;
use crate::loading::load;
use crate::writing::write;
use network::{Cause, Draft, Fault};

// Writes a draft's file into a buffer and loads it into another draft of as many members, which then
// holds the same. Answers the length of the file.
pub fn copy(from: &Draft, to: &mut Draft, buffer: &mut [u8]) -> Result<usize, Fault>
    ensures { Gives (copy_fault from.now.figures to.old.figures buffer.old)
        (λ count. Written from.now.figures buffer.old count buffer.new
        × (to.new.figures ≡ from.now.figures))
        ((to.new ≡ to.old) × (buffer.new ≡ buffer.old)) result }
{
    if to.count() != from.count() {
        return Err(file_fault(Cause::NotDue, 0));
    }
    let length = write(from, buffer)?;
    load(to, &buffer[..length])?;
    Ok(length)
}

// Loads a file and writes it again: the same bytes. Answers their number.
pub fn rewrite(file: &[u8], buffer: &mut [u8]) -> Result<usize, Fault>
    ensures { Rewritten file.now buffer.old result buffer.new }
{
    // The draft is filled in place and not answered: in the engine no table passes through a `Result`.
    let mut draft = Draft::new(count(file)?);
    load(&mut draft, file)?;
    write(&draft, buffer)
}
