// What clear is to print.
use crate::flow::{account_of_closing, least_payments};
use crate::halt::Halt;
use crate::queue::Rules;
use crate::reading::read;
use crate::statement::sheet_text;
use std::alloc::Global;

const LONGEST_FILE: usize = 65_536;

// The text of the sheet with which the network of an input is cleared; what halts it is printed in its place.
pub fn clear(heap: Global, input: &[u8]) -> Result<String, Halt> {
    if input.len() > LONGEST_FILE {
        return Err(Halt::TooLong);
    }
    let network = read(input)?;
    let queues = Rules::Ring.queues(heap, &network)?;
    let queues = queues.as_slice();
    let payments = least_payments(&network, queues);
    let account = account_of_closing(&network, queues);
    Ok(sheet_text(heap, &network, &payments, account)?)
}
