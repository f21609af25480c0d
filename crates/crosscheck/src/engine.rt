// What the engine has, as text.
use book::{Sheet, Task};
use netfile::{count, load};
use network::Draft;
use report::{print, sheet_lines};
use std::alloc::{AllocError, Global};

// The draft of a network file.
pub fn draft_of(file: &[u8]) -> Option<Draft> {
    let mut draft = Draft::new(count(file).ok()?);
    load(&mut draft, file).ok()?;
    Some(draft)
}

// What clear prints of a file.
pub fn report_text(heap: Global, file: &[u8]) -> Result<String, AllocError> {
    Ok(report::clear(heap, file)?.text)
}

// The same, and the status that it ends with.
pub fn clearing_text(heap: Global, file: &[u8]) -> Result<String, AllocError> {
    let report = report::clear(heap, file)?;
    let text = report.text.as_str();
    let status = u8::from(!report.cleared);
    format!(in heap; "{text}status {status}\n")
}

fn sheet_text(heap: Global, sheet: &Sheet) -> Result<String, AllocError> {
    let lines = sheet_lines(heap, sheet)?;
    print(heap, lines.as_slice())
}

// Each call with its answer, and the sheet.
pub fn life_text(heap: Global, tasks: &[Task], sheet: &Sheet) -> Result<String, AllocError> {
    let mut text = String::new(heap);
    for task in tasks {
        writeln!(text, "{task}")?;
    }
    text.push_str(sheet_text(heap, sheet)?.as_str())?;
    Ok(text)
}

// What a sheet says of payments, equities and defaults, whatever it took to close the book.
pub fn settlement_text(heap: Global, mut sheet: Sheet) -> Result<String, AllocError> {
    sheet.rounds = 0;
    sheet.units = 0;
    sheet_text(heap, &sheet)
}
