// The engine for callers in other languages: what clear prints, and the awards of the ring's rulebook.
// A slice is passed as a pointer and a length, and nothing is passed for a `Global`.
#![tactic(auto)]

ghost use Rattle.std.specs.Prelude.{◌≡◌, length};
ghost use Rattle.engine.specs.Exports.{put_front, Told, Divided, Numbered};

use netfile::{count, load};
use network::{Draft, Fault};
use report::clear;
use rules::{Rulebook, ring_rulebook};
use std::alloc::Global;

// Stands for the length of a text that there was no memory to make. (A number, since C takes no `Option`.)
pub const NO_MEMORY: usize = usize::MAX;

// Puts what clear prints for the input at the front of a buffer and answers its length. A buffer that is
// too short for it stays as it was.
#[unsafe(no_mangle)]
pub extern "C" fn engine_clear(heap: Global, input: &[u8], buffer: &mut [u8]) -> usize
    ensures { Told input.now buffer.old result buffer.new }
{
    match clear(heap, input) {
        Ok(report) => put(report.text.as_bytes(), buffer),
        Err(_) => NO_MEMORY,
    }
}

// Divides an estate by the rule that a house has in the ring's rulebook of the network whose file is
// given. Answers 0, or the number of the fault by which the file or the list is refused. (A number, since C
// takes no `Result`.)
#[unsafe(no_mangle)]
pub extern "C" fn engine_awards(
    network: &[u8],
    house: u8,
    estate: u32,
    claims: &[u32],
    awards: &mut [u32],
) -> u8
    ensures { Numbered network.now house estate claims.now awards.old result awards.new }
{
    match divide(network, house, estate, claims, awards) {
        Ok(()) => 0,
        Err(fault) => fault.cause.number(),
    }
}

fn put(text: &[u8], buffer: &mut [u8]) -> usize
    ensures long { result ≡ length text.now }
    ensures bytes { buffer.new ≡ put_front text.now buffer.old }
{
    // By an index: of what `get_mut` lends, a proof knows only the length.
    if text.len() <= buffer.len() {
        buffer[..text.len()].copy_from_slice(text);
    }
    text.len()
}

fn divide(
    network: &[u8],
    house: u8,
    estate: u32,
    claims: &[u32],
    awards: &mut [u32],
) -> Result<(), Fault>
    ensures { Divided network.now house estate claims.now awards.old result awards.new }
{
    // The draft is filled in place and not answered: in the engine no table passes through a `Result`.
    let mut draft = Draft::new(count(network)?);
    load(&mut draft, network)?;
    let rulebook = ring_rulebook(draft.figures());
    rulebook.awards(house, estate, claims, awards)
}
