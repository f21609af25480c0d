// crosscheck: compares the engine with the second implementation, and prints what was compared. Hand-picked cases come
// from standard input. A difference is printed with its input, and the program ends with status 1.
#![tactic(auto)]

mod both;
mod cases;
mod clearings;
mod damage;
mod dice;
mod divisions;
mod engine;
mod limits;
mod lives;
mod records;
mod refusals;
mod requests;
mod rulebooks;
mod settled;
mod shapes;
mod tally;

use crate::cases::compare_cases;
use crate::clearings::{compare_damaged, compare_networks};
use crate::dice::Dice;
use crate::divisions::compare_divisions;
use crate::limits::compare_limits;
use crate::lives::compare_lives;
use crate::rulebooks::compare_changing;
use crate::settled::compare_settled;
use crate::tally::Tally;
use network::Cause;
use std::alloc::AllocError;
use std::process::ExitCode;

// Compares cases of one kind and prints what came of them; where something differs, it prints how often each of these
// faults came up. Answers whether nothing differs.
fn compare<F: FnOnce(&mut Tally) -> Result<(), AllocError>>(
    rt: &(impl Print + AllocGlobal),
    name: &str,
    faults: &[Cause],
    run: F,
) -> anyhow::Result<bool>
    requires { F.IsAlwaysCallable run }
{
    let mut tally = Tally::new(rt.alloc());
    run(&mut tally)?;
    tally.print(rt, name, faults)?;
    Ok(tally.agrees())
}

const READING: [Cause; 10] = [
    Cause::MemberCount,
    Cause::NoSuchMember,
    Cause::ClassTooHigh,
    Cause::EndowmentTooLarge,
    Cause::ClaimOnItself,
    Cause::ClaimTooLarge,
    Cause::EndOfFile,
    Cause::UnknownKind,
    Cause::NotDue,
    Cause::ClaimOrder,
];

const WORKING: [Cause; 4] = [
    Cause::NoSuchMember,
    Cause::NoUnits,
    Cause::Receded,
    Cause::AboveDue,
];

const DIVIDING: [Cause; 2] = [Cause::ListLength, Cause::ListedClaimTooLarge];

fn main(rt: HostRuntime) -> anyhow::Result<ExitCode> {
    let mut settled = Tally::new(rt.alloc());
    let mut picked = Tally::new(rt.alloc());
    compare_cases(&rt, &mut settled, &mut picked)?;
    compare_settled(&mut settled);
    settled.print(&rt, "settled examples", &[])?;
    picked.print(&rt, "hand-picked files", &[])?;
    let mut dice = Dice::seeded(20_011);
    let agree = [
        settled.agrees(),
        picked.agrees(),
        compare(&rt, "limits", &[], |tally| {
            compare_limits(tally);
            Ok(())
        })?,
        compare(&rt, "random divisions", &DIVIDING, |tally| {
            compare_divisions(&mut dice, tally, 2_000)
        })?,
        compare(&rt, "random networks", &[], |tally| {
            compare_networks(&mut dice, tally, 400)
        })?,
        compare(&rt, "damaged files", &READING, |tally| {
            compare_damaged(&mut dice, tally, 4_000)
        })?,
        compare(&rt, "orders of work", &WORKING, |tally| {
            compare_lives(&mut dice, tally, 200)
        })?,
        compare(&rt, "changing rulebooks", &WORKING, |tally| {
            compare_changing(&mut dice, tally, 200)
        })?,
    ];
    // an `if`, since both ends have names
    Ok(if agree.iter().all(|agree| *agree) {
        ExitCode::SUCCESS
    } else {
        ExitCode::FAILURE
    })
}
