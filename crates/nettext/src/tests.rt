// Texts read into a draft that was not made for them, which scribe never does, and a fault that no text gives.
use crate::reading::{Slip, load_text};
use network::{Cause, Draft, Fault, Layer, MemberCount};
use std::alloc::Global;
use std::process::Abort;
use std::test::Fail;

// Reads a text into a draft of two members.
fn answers(rt: &impl Abort, heap: Global, text: &str, answer: &str) -> Result<(), Fail> {
    let mut draft = Draft::new(MemberCount::new(2)?);
    match load_text(&mut draft, text) {
        Ok(()) => {
            assert!(rt; answer == "read");
            Ok(())
        },
        Err(bad) => {
            assert!(rt; format!(in heap; "{bad}")?.as_str() == answer);
            Ok(())
        },
    }
}

#[test]
fn the_count_comes_first(rt: HostRuntime) -> Result<(), Fail> {
    let heap = rt.alloc();
    let count = "line 1: the number of members comes first, and once";
    answers(&rt, heap, "members 3", count)?;
    answers(&rt, heap, "members 1", count)?;
    answers(&rt, heap, "claim 0 1 1\nmembers 2", count)?;
    answers(
        &rt,
        heap,
        "member 0 house 0 class 0 endowment 0\nmembers 2",
        count,
    )?;
    answers(
        &rt,
        heap,
        "membres 2",
        "line 1: neither members, member nor claim",
    )?;
    answers(&rt, heap, "", "line 0: members are missing")
}

#[test]
fn a_text_of_two_members(rt: HostRuntime) -> Result<(), Fail> {
    answers(
        &rt,
        rt.alloc(),
        "members 2\nmember 0 house 0 class 0 endowment 0\nmember 1 house 0 class 0 endowment 0",
        "read",
    )
}

#[test]
fn a_fault_is_told_at_byte_0(rt: HostRuntime) -> Result<(), Fail> {
    let slip = Slip::Refused(Fault::of_nobody(Layer::Draft, Cause::MemberCount).at_byte(7));
    let told = format!(in rt.alloc(); "{slip}")?;
    assert!(rt; told.as_str() == "fault 1 draft 0 255 255");
    Ok(())
}
