// clear: reads a network file from standard input and prints its settlement sheet, or why it is refused.
#![tactic(auto)]

use report::{LONGEST_INPUT, clear};
use std::io::Read;
use std::process::ExitCode;

fn main(rt: HostRuntime) -> anyhow::Result<ExitCode> {
    let mut input = Vec::new(rt.alloc());
    // one byte more than is allowed tells that the input is too long
    let limit = LONGEST_INPUT as u64 + 1;
    rt.stdin().take(limit).read_to_end(&mut input)?;
    let report = clear(rt.alloc(), input.as_slice())?;
    rt.print(report.text)?;
    Ok(ExitCode::from(u8::from(!report.cleared)))
}
