// A book that is worked request by request.
use crate::cause::Cause;
use crate::network::Network;
use crate::payments::Payments;
use crate::queue::front;
use crate::refusal::Refusal;
use crate::request::{Answer, Request, Round};
use crate::row::Row;
use crate::statement::Account;

// The payments so far in a network. The queues by which it is worked may differ from request to request.
#[derive(Clone, Copy)]
pub struct Ledger {
    network: Network,
    pub payments: Payments,
}

impl Ledger {
    pub fn open(network: &Network) -> Ledger {
        Ledger {
            network: *network,
            payments: Payments::default(),
        }
    }

    // Every number below the count is a member's; one past the 32 places has nothing and owes nothing.
    fn admit(&self, member: usize) -> Result<(), Cause> {
        if member < self.network.count {
            Ok(())
        } else {
            Err(Cause::NoSuchMember)
        }
    }

    fn estate(&self, member: usize) -> Result<u32, Cause> {
        self.admit(member)?;
        let members = self.network.members();
        let endowment = members.get(member).map_or(0, |member| member.endowment);
        Ok(endowment.saturating_add(self.payments.total_to(member)))
    }

    fn paid_row(&self, debtor: usize) -> Result<&Row, Cause> {
        self.admit(debtor)?;
        Ok(self.payments.row(debtor))
    }

    // Nothing is due from a member without a queue.
    fn due_row(&self, queues: &[Vec<u8>], debtor: usize) -> Result<Row, Cause> {
        let estate = self.estate(debtor)?;
        Ok(
            queues
                .get(debtor)
                .map_or(Row::default(), |queue| front(queue.as_slice(), estate)),
        )
    }

    // What is due from a debtor that has not receded. (The queues may know more creditors than there are members.)
    fn open_row(&self, queues: &[Vec<u8>], debtor: usize) -> Result<Row, Cause> {
        let due = self.due_row(queues, debtor)?;
        if self.paid_row(debtor)?.exceeds(&due, self.network.count) {
            return Err(Cause::Receded);
        }
        Ok(due)
    }

    // The same, and the units that it has not paid of it yet.
    fn open_units(&self, queues: &[Vec<u8>], debtor: usize) -> Result<(Row, u32), Cause> {
        let due = self.open_row(queues, debtor)?;
        let units = due
            .total()
            .saturating_sub(self.payments.row(debtor).total());
        Ok((due, units))
    }

    fn pay(
        &mut self,
        queues: &[Vec<u8>],
        debtor: usize,
        creditor: usize,
        units: u32,
    ) -> Result<u32, Cause> {
        self.admit(debtor)?;
        self.admit(creditor)?;
        if units == 0 {
            return Err(Cause::NoUnits);
        }
        let due = self.open_row(queues, debtor)?;
        let paid = self.payments.row(debtor).at(creditor);
        if units > due.at(creditor).saturating_sub(paid) {
            return Err(Cause::AboveDue);
        }
        let paid = paid.saturating_add(units);
        if let Some(row) = self.payments.rows.get_mut(debtor) {
            row.put(creditor, paid);
        }
        Ok(paid)
    }

    fn settle(&mut self, queues: &[Vec<u8>], member: usize) -> Result<u32, Cause> {
        let (due, units) = self.open_units(queues, member)?;
        if let Some(row) = self.payments.rows.get_mut(member) {
            *row = due;
        }
        Ok(units)
    }

    fn round(&mut self, queues: &[Vec<u8>]) -> Round {
        let mut round = Round::default();
        for member in 0..self.network.members().len() {
            match self.settle(queues, member) {
                Ok(units) => round.moved = round.moved.saturating_add(units as usize),
                Err(_) => round.passed_over = round.passed_over.saturating_add(1),
            }
        }
        round
    }

    fn paid(&self, debtor: usize, creditor: usize) -> Result<u32, Cause> {
        self.admit(creditor)?;
        Ok(self.paid_row(debtor)?.at(creditor))
    }

    fn cash(&self, member: usize) -> Result<u32, Cause> {
        let paid = self.paid_row(member)?.total();
        Ok(self.estate(member)?.saturating_sub(paid))
    }

    fn due(&self, queues: &[Vec<u8>], debtor: usize, creditor: usize) -> Result<u32, Cause> {
        self.admit(creditor)?;
        Ok(self.due_row(queues, debtor)?.at(creditor))
    }

    // The first member whose settle would be accepted and move a unit.
    fn next(&self, queues: &[Vec<u8>]) -> Option<usize> {
        (0..self.network.members().len()).find(|member| {
            self.open_units(queues, *member)
                .is_ok_and(|(_, units)| units > 0)
        })
    }

    // Does what is requested.
    pub fn perform(&mut self, queues: &[Vec<u8>], request: Request) -> Answer {
        let units = match request {
            Request::Round => return Answer::Round(self.round(queues)),
            Request::Next => return Answer::Next(self.next(queues)),
            Request::Pay(debtor, creditor, units) => {
                self.pay(queues, usize::from(debtor), usize::from(creditor), units)
            }
            Request::Settle(member) => self.settle(queues, usize::from(member)),
            Request::Paid(debtor, creditor) => self.paid(
                usize::from(debtor),
                usize::from(creditor),
            ),
            Request::Cash(member) => self.cash(usize::from(member)),
            Request::Due(debtor, creditor) => {
                self.due(queues, usize::from(debtor), usize::from(creditor))
            }
        };
        let named = request.named();
        Answer::Units(units.map_err(|cause| Refusal::Book { cause, named }))
    }

    // Does rounds until one moves nothing.
    pub fn close(&mut self, queues: &[Vec<u8>]) -> Account {
        Account::of_rounds(self.network.units_of_claims(), || self.round(queues))
    }
}
