// A network as both sides have it, and its life as the second implementation has it.
use crate::engine::draft_of;
use crate::tally::Tally;
use network::Draft;
use second::{Halt, Ledger, Network, Payments, Request, read, sheet_text};
use std::alloc::{AllocError, Global};

// What the second implementation answers; a want of memory is an error of its own.
pub fn answered<T: Drop>(answer: Result<T, Halt>) -> Result<Result<T, Halt>, AllocError> {
    match answer {
        Err(Halt::NoMemory(error)) => Err(error),
        answer => Ok(answer),
    }
}

// The network of a file; a file that is not one to both sides counts as a difference.
pub fn read_both(tally: &mut Tally, file: &[u8]) -> Option<(Network, Draft)> {
    match (read(file), draft_of(file)) {
        (Ok(network), Some(draft)) => Some((network, draft)),
        _ => {
            let text = String::from_str(tally.heap, "not a network to both sides");
            tally.compare(file, text, Ok(String::new(tally.heap)));
            None
        }
    }
}

// A ledger that is worked, and each request so far with its answer.
#[derive(Drop)]
pub struct Life<'a> {
    network: &'a Network,
    ledger: Ledger,
    text: String,
}

impl<'a> Life<'a> {
    pub fn open(heap: Global, network: &'a Network) -> Life<'a> {
        Life {
            network,
            ledger: Ledger::open(network),
            text: String::new(heap),
        }
    }

    pub fn perform(&mut self, queues: &[Vec<u8>], request: Request) -> Result<(), AllocError> {
        let answer = self.ledger.perform(queues, request);
        writeln!(self.text, "{request}: {answer}")
    }

    // The requests with their answers and the sheet, which has the ledger's payments or those that are given.
    pub fn close(
        self,
        heap: Global,
        queues: &[Vec<u8>],
        payments: Option<Payments>,
    ) -> Result<String, AllocError> {
        let Life {
            network,
            mut ledger,
            mut text,
        } = self;
        let account = ledger.close(queues);
        let payments = payments.unwrap_or(ledger.payments);
        let sheet = sheet_text(heap, network, &payments, account)?;
        text.push_str(sheet.as_str())?;
        Ok(text)
    }
}
