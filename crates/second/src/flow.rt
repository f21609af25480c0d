// Clearing a network from no payments, by paying on along the queues.
use crate::network::Network;
use crate::payments::Payments;
use crate::queue::front;
use crate::request::Round;
use crate::statement::Account;
use std::mem;

// The estate of a member, and the estate from which it has paid so far.
#[derive(Clone, Copy, Default)]
struct Purse {
    estate: u32,
    spent: u32,
}

// The purses of all members; past the last member they are empty. Of a fixed width, so that a step keeps what was
// before it as a plain value and cannot run out of memory.
#[derive(Clone, Copy, Default)]
struct Flow {
    purses: [Purse; 32],
}

impl Flow {
    fn start(network: &Network) -> Flow {
        let mut flow = Flow::default();
        for (purse, member) in flow.purses.iter_mut().zip(&network.members) {
            purse.estate = member.endowment;
        }
        flow
    }

    fn estate(&self, member: usize) -> u32 {
        self.purses.get(member).map_or(0, |purse| purse.estate)
    }

    // From now on a member has spent this estate. Answers what it had spent before.
    fn spend(&mut self, member: usize, estate: u32) -> u32 {
        match self.purses.get_mut(member) {
            Some(purse) => mem::replace(&mut purse.spent, estate),
            None => estate,
        }
    }

    // A member pays on along its queue as far as the estate goes. Answers the units moved.
    fn pay_on(&mut self, member: usize, queue: &[u8], estate: u32) -> usize {
        let spent = self.spend(member, estate);
        let units = queue.get(spent as usize..).unwrap_or_default();
        let moved = units.len().min(estate.saturating_sub(spent) as usize);
        for creditor in units.iter().take(moved) {
            if let Some(purse) = self.purses.get_mut(usize::from(*creditor)) {
                purse.estate = purse.estate.saturating_add(1);
            }
        }
        moved
    }

    // Everyone pays on, from the estate that is told of it. Nobody is passed over.
    fn step<F: Fn(&Flow, usize) -> u32>(&mut self, queues: &[Vec<u8>], estate: F) -> Round
        requires { F.IsAlwaysCallable estate }
    {
        let mut round = Round::default();
        for (member, queue) in queues.iter().enumerate() {
            let estate = estate(self, member);
            let moved = self.pay_on(member, queue.as_slice(), estate);
            round.moved = round.moved.saturating_add(moved);
        }
        round
    }

    // Everyone pays on at once, from what it had before.
    fn step_at_once(&mut self, queues: &[Vec<u8>]) -> Round {
        let before = *self;
        self.step(queues, |_, member| before.estate(member))
    }

    // Everyone pays on in turn, from what it has by then.
    fn step_in_turn(&mut self, queues: &[Vec<u8>]) -> Round {
        self.step(queues, |now, member| now.estate(member))
    }
}

// The least clearing payments.
pub fn least_payments(network: &Network, queues: &[Vec<u8>]) -> Payments {
    let mut flow = Flow::start(network);
    let _ = Account::of_rounds(network.units_of_claims(), || flow.step_at_once(queues));
    let mut payments = Payments::default();
    for (row, (queue, purse)) in payments
        .rows
        .iter_mut()
        .zip(queues.iter().zip(&flow.purses))
    {
        *row = front(queue.as_slice(), purse.spent);
    }
    payments
}

// The account of closing a book without payments.
pub(crate) fn account_of_closing(network: &Network, queues: &[Vec<u8>]) -> Account {
    let mut flow = Flow::start(network);
    Account::of_rounds(network.units_of_claims(), || flow.step_in_turn(queues))
}
