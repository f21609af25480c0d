// Random orders of work on books under one rulebook.
use crate::both::{Life, read_both};
use crate::dice::Dice;
use crate::engine::{draft_of, life_text, settlement_text};
use crate::requests::{random_requests, tasks_of};
use crate::shapes::{Scale, each_network};
use crate::tally::Tally;
use book::{Sheet, Task, work_both};
use rules::ring_rulebook;
use second::{Network, Request, Rules, least_payments};
use std::alloc::{AllocError, Global};

// What the second implementation has of a life: each request with its answer, and a sheet with the least
// payments, whatever the requests were.
fn expected_text(
    heap: Global,
    network: &Network,
    requests: &[Request],
) -> Result<String, AllocError> {
    let queues = Rules::Ring.queues(heap, network)?;
    let queues = queues.as_slice();
    let mut life = Life::open(heap, network);
    for request in requests {
        life.perform(queues, *request)?;
    }
    let least = least_payments(network, queues);
    life.close(heap, queues, Some(least))
}

// A life with both sides.
fn compare_life(
    tally: &mut Tally,
    file: &[u8],
    network: &Network,
    requests: &[Request],
    tasks: &[Task],
    sheet: &Sheet,
) {
    let text = life_text(tally.heap, tasks, sheet);
    let expected = expected_text(tally.heap, network, requests);
    tally.compare(file, text, expected);
}

// Two lives on one network: each with the second implementation, and their settlements with each other.
fn compare_on(dice: &mut Dice, tally: &mut Tally, file: &[u8]) -> Result<(), AllocError> {
    let (Some((network, draft)), Some(twin)) = (read_both(tally, file), draft_of(file)) else {
        return Ok(());
    };
    let heap = tally.heap;
    let n = draft.count().get();
    let requests = random_requests(heap, dice, n)?;
    let others = random_requests(heap, dice, n)?;
    let mut tasks = tasks_of(heap, requests.as_slice())?;
    let mut other_tasks = tasks_of(heap, others.as_slice())?;
    let rulebook = ring_rulebook(draft.figures());
    let (sheet, other_sheet) = work_both(
        draft,
        twin,
        &rulebook,
        tasks.as_mut_slice(),
        other_tasks.as_mut_slice(),
    );
    let (requests, tasks) = (requests.as_slice(), tasks.as_slice());
    compare_life(tally, file, &network, requests, tasks, &sheet);
    let (requests, tasks) = (others.as_slice(), other_tasks.as_slice());
    compare_life(tally, file, &network, requests, tasks, &other_sheet);
    let settlement = settlement_text(heap, sheet);
    let other = settlement_text(heap, other_sheet);
    tally.compare(file, settlement, other);
    Ok(())
}

pub fn compare_lives(dice: &mut Dice, tally: &mut Tally, count: u32) -> Result<(), AllocError> {
    let scale = |dice: &mut Dice| Scale {
        n: dice.byte(1, 8),
        richest: 40,
        largest: 20,
    };
    each_network(tally.heap, dice, count, scale, |dice, file| {
        compare_on(dice, tally, file?.as_slice())
    })
}
