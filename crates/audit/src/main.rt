// audit: works one network through two orders of calls, and shows both sheets side by side.
#![tactic(auto)]

mod order;

use anyhow::anyhow;
use book::{Sheet, Task, equal_sheets, work_both};
use netfile::{count, load};
use network::{Draft, Fault};
use order::parse_order;
use report::sheet_lines;
use rules::ring_rulebook;
use std::{env, fs, io};

// A word of the command line, or what is missing. (What ends the program is printed in quotation marks.)
fn next_argument(args: &mut env::Args, missing: &str) -> anyhow::Result<String> {
    args.next().ok_or_else(|| anyhow!("{missing:?}"))
}

// The tasks of an order, read from a file.
fn read_order(rt: &HostRuntime, path: &str) -> anyhow::Result<Vec<Task>> {
    let text = fs::read_to_string(rt, path)?;
    parse_order(rt.alloc(), text.as_str()).or_else(|error| {
        println!(rt; "{path}: {error}")?;
        Err(anyhow!("{:?}", "an order is not read"))
    })
}

// What the network's file gives. If it is refused, says why, and answers the error that ends the program. (scribe has the
// like: shared, it would need a crate of its own.)
fn accepted<T>(rt: &HostRuntime, answer: Result<T, Fault>) -> anyhow::Result<T> {
    answer.or_else(|fault| {
        println!(rt; "{fault}")?;
        Err(anyhow!("{:?}", "the network is refused"))
    })
}

fn print_tasks(rt: &HostRuntime, name: &str, tasks: &[Task]) -> io::Result<()> {
    println!(rt; "{name}")?;
    for task in tasks {
        println!(rt; "  {task}")?;
    }
    Ok(())
}

// The lines of the two sheets, one beside the other.
fn print_sheets(rt: &HostRuntime, one: &Sheet, two: &Sheet) -> anyhow::Result<()> {
    let left = sheet_lines(rt.alloc(), one)?;
    let right = sheet_lines(rt.alloc(), two)?;
    println!(rt; "sheets")?;
    for (a, b) in left.iter().zip(right.iter()) {
        let a = format!(in rt.alloc(); "{a}")?;
        println!(rt; "  {a:<24}{b}")?;
    }
    let verdict = if equal_sheets(one, two) {
        "equal"
    } else {
        "different"
    };
    println!(rt; "{verdict}")?;
    Ok(())
}

fn main(rt: HostRuntime) -> anyhow::Result<()> {
    let rt = &rt;
    let mut args = env::args(rt)?;
    let _program = args.next();
    let network = next_argument(&mut args, "no network file")?;
    let first_order = next_argument(&mut args, "no first order")?;
    let second_order = next_argument(&mut args, "no second order")?;
    let file = fs::read(rt, network.as_str())?;
    let mut tasks = read_order(rt, first_order.as_str())?;
    let mut others = read_order(rt, second_order.as_str())?;
    let count = accepted(rt, count(file.as_slice()))?;
    let mut first = Draft::new(count);
    let mut second = Draft::new(count);
    accepted(rt, load(&mut first, file.as_slice()))?;
    accepted(rt, load(&mut second, file.as_slice()))?;
    let rulebook = ring_rulebook(first.figures());
    let (one, two) = work_both(
        first,
        second,
        &rulebook,
        tasks.as_mut_slice(),
        others.as_mut_slice(),
    );
    print_tasks(rt, "first order", tasks.as_slice())?;
    print_tasks(rt, "second order", others.as_slice())?;
    print_sheets(rt, &one, &two)
}
