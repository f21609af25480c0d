// Loading a network file into a draft.
ghost use Rattle.netfile.specs.Loads.{Loaded, Accepts, Only};

use crate::due::Due;
use crate::fault::file_fault;
use crate::kind::BODY_LENGTHS;
use crate::reading::read;
use crate::rest::Rest;
use network::{Cause, Draft, Fault};

// Sets every entry of a draft from the file of a network of as many members. The whole file is checked
// before the draft is altered. (Whoever has no draft yet counts first and makes one of as many: in the engine no table
// passes through a `Result`, so there is no one call for the three.)
pub fn load(draft: &mut Draft, file: &[u8]) -> Result<(), Fault>
    ensures loaded { Loaded draft.old file.now result draft.new }
    ensures accepts { Accepts draft.old file.now result draft.new }
    ensures only { Only draft.old file.now result }
{
    let mut next = Draft::new(draft.count());
    let mut due = Due::Network;
    let mut byte = 0;
    // by a place and not over an iterator: how far a record reaches, only its own kind tells
    while let Some(number) = file.get(byte) {
        due = read(&mut next, Rest::of(file, byte), due)?;
        byte += 1 + BODY_LENGTHS[*number as usize];
    }
    let Due::Nothing = due else {
        return Err(file_fault(Cause::EndOfFile, byte));
    };
    *draft = next;
    Ok(())
}
