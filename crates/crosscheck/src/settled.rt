// The settled examples of divisions, by the engine's rulebooks.
use crate::engine::draft_of;
use crate::records::Records;
use crate::tally::Tally;
use rules::{ClassTable, Classes, Dual, EqualAwards, Jefferson, Rulebook, UnitRule};
use std::alloc::{AllocError, Global};

// The file of three members of the classes 1, 0 and 0.
fn classed(heap: Global) -> Result<Vec<u8>, AllocError> {
    let mut file = Records::new(heap);
    file.push_network(3)?;
    file.push_member(0, 0, 1, 0)?;
    file.push_member(1, 0, 0, 0)?;
    file.push_member(2, 0, 0, 0)?;
    file.finish()
}

// What a rulebook answers, as text.
fn awards_text<R: Rulebook>(
    heap: Global,
    rulebook: &R,
    estate: u32,
    claims: &[u32],
) -> Result<String, AllocError> {
    let mut buffer = vec![in heap; 0u32; claims.len()]?;
    let accepted = rulebook
        .awards(0, estate, claims, buffer.as_mut_slice())
        .is_ok();
    format!(in heap; "{accepted} {buffer:?}")
}

fn expect<R: Rulebook>(
    tally: &mut Tally,
    rulebook: &R,
    estate: u32,
    claims: &[u32],
    awards: &[u32],
) {
    let heap = tally.heap;
    let text = awards_text(heap, rulebook, estate, claims);
    let expected = format!(in heap; "true {awards:?}");
    tally.compare(&[], text, expected);
}

// The example of classes, by the file of their members.
fn expect_by_class(tally: &mut Tally, file: &[u8]) {
    let Some(draft) = draft_of(file) else {
        let text = String::from_str(tally.heap, "no network");
        return tally.compare(file, text, Ok(String::new(tally.heap)));
    };
    let table = ClassTable::of(draft.figures());
    let classes = Classes::new(UnitRule::new(EqualAwards), table);
    expect(tally, &classes, 3, &[5, 2, 2], &[0, 2, 1]);
}

pub fn compare_settled(tally: &mut Tally) {
    let equal_awards = UnitRule::new(EqualAwards);
    expect(tally, &equal_awards, 6, &[1, 4, 4], &[1, 3, 2]);
    let jefferson = UnitRule::new(Jefferson);
    expect(tally, &jefferson, 2, &[6, 3], &[2, 0]);
    expect(tally, &jefferson, 3, &[6, 3], &[2, 1]);
    let dual = Dual::new(UnitRule::new(EqualAwards));
    expect(tally, &dual, 1, &[1, 1], &[0, 1]);
    match classed(tally.heap) {
        Ok(file) => expect_by_class(tally, file.as_slice()),
        Err(_) => tally.lose(),
    }
}
