// The sheet as it is printed.
use crate::network::Network;
use crate::payments::Payments;
use crate::request::Round;
use std::alloc::{AllocError, Global};
use std::fmt;

// What closing took: rounds that moved units, units moved, and members passed over in the last round.
#[derive(Clone, Copy, Default)]
pub struct Account {
    pub rounds: usize,
    pub units: usize,
    pub passed_over: usize,
}

impl Account {
    // The account of rounds up to the first that moves nothing. No more of them move than there are units of claims.
    pub(crate) fn of_rounds<F: FnMut() -> Round>(units_of_claims: u32, mut play: F) -> Account
        requires { F.IsAlwaysCallable play }
    {
        let mut account = Account::default();
        for _round in 0..=units_of_claims {
            let round = play();
            account.passed_over = round.passed_over;
            if round.moved == 0 {
                break;
            }
            account.rounds = account.rounds.saturating_add(1);
            account.units = account.units.saturating_add(round.moved);
        }
        account
    }
}

impl fmt::Display for Account {
    fn fmt<W: fmt::Write>(&self, f: &mut fmt::Formatter<W>) -> fmt::Result {
        let Account {
            rounds,
            units,
            passed_over,
        } = self;
        write!(f, "rounds {rounds} {units} {passed_over}")
    }
}

// The sheet of a network with these payments.
#[derive(Clone, Copy)]
struct Sheet<'a> {
    network: &'a Network,
    payments: &'a Payments,
    account: Account,
}

impl Sheet<'_> {
    // Each claim above 0 has a line. The chain over the rows stands in each of these methods: of a chain that a method
    // answers, the proof of a loop does not know that it ends.
    fn write_payments<W: fmt::Write>(&self, f: &mut fmt::Formatter<W>) -> fmt::Result {
        let rows = self.network.members().iter().zip(self.payments.rows.iter());
        for (debtor, (member, row)) in rows.enumerate() {
            let entries = member.claims.as_slice().iter().zip(row.as_slice());
            for (creditor, (claim, paid)) in entries.take(self.network.count).enumerate() {
                if *claim > 0 {
                    writeln!(f, "paid {debtor} {creditor} {paid}")?;
                }
            }
        }
        Ok(())
    }

    fn write_equities<W: fmt::Write>(&self, f: &mut fmt::Formatter<W>) -> fmt::Result {
        let rows = self.network.members().iter().zip(self.payments.rows.iter());
        for (number, (member, row)) in rows.enumerate() {
            let received = self.payments.total_to(number);
            let estate = member.endowment.saturating_add(received);
            let equity = estate.saturating_sub(row.total());
            writeln!(f, "equity {number} {equity}")?;
        }
        // past the 32 places a member has nothing
        for number in 32..self.network.count {
            writeln!(f, "equity {number} 0")?;
        }
        Ok(())
    }

    fn write_defaults<W: fmt::Write>(&self, f: &mut fmt::Formatter<W>) -> fmt::Result {
        let rows = self.network.members().iter().zip(self.payments.rows.iter());
        for (number, (member, row)) in rows.enumerate() {
            if row.total() < member.claims.total() {
                writeln!(f, "default {number}")?;
            }
        }
        Ok(())
    }
}

impl fmt::Display for Sheet<'_> {
    fn fmt<W: fmt::Write>(&self, f: &mut fmt::Formatter<W>) -> fmt::Result {
        self.write_payments(f)?;
        self.write_equities(f)?;
        self.write_defaults(f)?;
        let account = self.account;
        writeln!(f, "{account}")
    }
}

// The lines of a sheet with these payments.
pub fn sheet_text(
    heap: Global,
    network: &Network,
    payments: &Payments,
    account: Account,
) -> Result<String, AllocError> {
    let sheet = Sheet {
        network,
        payments,
        account,
    };
    sheet.to_string(heap)
}
