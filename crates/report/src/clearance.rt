// Clearing a network file: what is reported of any string of bytes.
ghost use Rattle.std.specs.Prelude.{◌≡◌, ◌≤◌, length, IfErr, IfOk, None, alloc_error, slice_index, string_bytes};
ghost use Rattle.netfile.specs.Records.{counted_fault};
ghost use Rattle.report.specs.declared.clearance.Halt.TheVariants.{Refused, NoMemory};
ghost use Rattle.report.specs.declared.line.Line.TheVariants.{Fault as Refusal};
ghost use Rattle.report.specs.Clearances.{Clears, Reported};
ghost use Rattle.report.specs.Halts.{Halts};

use crate::line::{Line, print};
use crate::statement::sheet_lines;
use book::Book;
use netfile::{count, load};
use network::{Draft, Fault, MemberCount};
use rules::ring_rulebook;
use std::alloc::{AllocError, Global};

// A longer input is not read as a network file.
pub const LONGEST_INPUT: usize = 65_536;

// The lines of a network that was cleared, or the one line of a refusal. (A flag beside the text, and no enum: whoever takes a
// report uses the text alike in both cases, and the flag is the exit status.)
#[derive(Drop)]
pub struct Report {
    pub text: String,
    pub cleared: bool,
}

// What ends a clearing without a text: the line that refuses the input, or a want of memory.
#[derive(Drop)]
enum Halt {
    Refused(Line),
    NoMemory(AllocError),
}

impl From<Fault> for Halt {
    ghost from_gives = { λ fault halt. halt ≡ Refused (Refusal fault) };

    fn from(fault: Fault) -> Halt {
        Halt::Refused(Line::Fault(fault))
    }
}

impl From<AllocError> for Halt {
    ghost from_gives = { λ _ halt. halt ≡ NoMemory alloc_error };

    fn from(error: AllocError) -> Halt {
        Halt::NoMemory(error)
    }
}

// The lines of the sheet with which a book on the input's network closes under the ring's rulebook.
fn sheet_text(heap: Global, input: &[u8]) -> Result<String, Halt>
    ensures cleared { IfOk result (λ text. Clears input.now (string_bytes text)) }
    ensures halted { IfErr result (Halts input.now) }
{
    if input.len() > LONGEST_INPUT {
        return Err(Halt::Refused(Line::TooLong));
    }
    let count = count(input)?;
    counted_text(heap, input, count)
}

// The same of an input whose members are counted. (A function of its own: one takes its time at entry by the size of its
// tables, and an input whose count is refused needs none.)
fn counted_text(heap: Global, input: &[u8], count: MemberCount) -> Result<String, Halt>
    requires short { length input.now ≤ 65536 }
    requires accepted { counted_fault input.now ≡ None }
    requires counted { count.n ≡ slice_index input.now 1 }
    ensures cleared { IfOk result (λ text. Clears input.now (string_bytes text)) }
    ensures halted { IfErr result (Halts input.now) }
{
    let mut draft = Draft::new(count);
    load(&mut draft, input)?;
    let rulebook = ring_rulebook(draft.figures());
    let sheet = Book::open(draft).close(&rulebook);
    let lines = sheet_lines(heap, &sheet)?;
    Ok(print(heap, lines.as_slice())?)
}

// Clears the network whose file the input is, or says why it is refused.
pub fn clear(heap: Global, input: &[u8]) -> Result<Report, AllocError>
    ensures { IfOk result (λ report. Reported input.now report.cleared (string_bytes report.text)) }
{
    match sheet_text(heap, input) {
        Ok(text) => Ok(Report {
            text,
            cleared: true,
        }),
        Err(Halt::Refused(line)) => Ok(Report {
            text: print(heap, &[line])?,
            cleared: false,
        }),
        Err(Halt::NoMemory(error)) => Err(error),
    }
}
