// scribe: turns a readable text of a network into a network file, and back.
#![tactic(auto)]

use anyhow::anyhow;
use netfile::{count, file_length, load, write};
use nettext::{count_text, load_text, network_lines};
use network::Draft;
use std::io::{Read, Write};
use std::{env, fmt};

// What the input gives. If it is refused, says why, and answers the error that ends the program.
fn accepted<T, E: fmt::Display + Drop>(
    rt: &HostRuntime,
    answer: Result<T, E>,
) -> anyhow::Result<T> {
    answer.or_else(|why| {
        rt.println(why)?;
        Err(anyhow!("{:?}", "the input is refused"))
    })
}

// From the text on standard input to the file.
fn write_file(rt: &HostRuntime) -> anyhow::Result<()> {
    let heap = rt.alloc();
    let mut text = String::new(heap);
    rt.stdin().read_to_string(&mut text)?;
    let mut draft = Draft::new(accepted(rt, count_text(text.as_str()))?);
    accepted(rt, load_text(&mut draft, text.as_str()))?;
    let mut file = vec![in heap; 0u8; file_length(draft.figures())]?;
    accepted(rt, write(&draft, file.as_mut_slice()))?;
    rt.stdout().write_all(file.as_slice())?;
    Ok(())
}

// From the file on standard input to the text.
fn write_text(rt: &HostRuntime) -> anyhow::Result<()> {
    let mut file = Vec::new(rt.alloc());
    rt.stdin().read_to_end(&mut file)?;
    let mut draft = Draft::new(accepted(rt, count(file.as_slice()))?);
    accepted(rt, load(&mut draft, file.as_slice()))?;
    let lines = network_lines(rt.alloc(), draft.figures())?;
    for line in lines.iter() {
        println!(rt; "{line}")?;
    }
    Ok(())
}

fn main(rt: HostRuntime) -> anyhow::Result<()> {
    let mut args = env::args(&rt)?;
    let way = args.nth(1);
    match way.as_deref() {
        Some("file") => write_file(&rt),
        Some("text") => write_text(&rt),
        _ => Err(anyhow!("{:?}", "say which is wanted: file or text")),
    }
}
