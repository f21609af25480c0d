// Hand-picked cases, from a text. A line that begins with `>` is a file, or more of it, in hexadecimal; lines behind
// it are what clear is to print of it, if any; an empty line ends the case. A line that begins with `#` is a comment.
use crate::clearings::compare_clearing;
use crate::engine::report_text;
use crate::tally::Tally;
use std::alloc::{AllocError, Global};

// A file, and what is settled that clear prints of it, if anything.
#[derive(Drop)]
struct Case {
    file: Vec<u8>,
    settled: String,
}

impl Case {
    fn new(heap: Global) -> Case {
        Case {
            file: Vec::new(heap),
            settled: String::new(heap),
        }
    }

    // Puts bytes behind the file; what is no digit is passed over, and so is a last digit without another.
    fn push_hexadecimal(&mut self, text: &str) -> Result<(), AllocError> {
        let mut open: Option<u32> = None;
        for digit in text.chars().filter_map(|c| c.to_digit(16)) {
            match open.take() {
                Some(high) => self.file.push(((high << 4 | digit) & 0xff) as u8)?,
                None => open = Some(digit),
            }
        }
        Ok(())
    }

    fn push_settled(&mut self, line: &str) -> Result<(), AllocError> {
        writeln!(self.settled, "{line}")
    }

    // The engine and the second implementation on the case, and the engine on what is settled of it.
    fn compare(self, settled: &mut Tally, picked: &mut Tally) {
        let Case {
            file,
            settled: text,
        } = self;
        let file = file.as_slice();
        compare_clearing(picked, file);
        if !text.is_empty() {
            let engine = report_text(settled.heap, file);
            settled.compare(file, engine, Ok(text));
        }
    }
}

// Compares each case of standard input at its end, so that one is held at a time.
pub fn compare_cases(
    rt: &(impl Input + AllocGlobal),
    settled: &mut Tally,
    picked: &mut Tally,
) -> anyhow::Result<()> {
    let heap = rt.alloc();
    let mut open: Option<Case> = None;
    for line in rt.lines(heap) {
        let line = line?;
        let line = line.as_str();
        if line.is_empty() {
            if let Some(case) = open.take() {
                case.compare(settled, picked);
            }
        } else if let Some(digits) = line.strip_prefix(">") {
            let case = open.get_or_insert_with(|| Case::new(heap));
            case.push_hexadecimal(digits)?;
        } else if let Some(case) = &mut open {
            case.push_settled(line)?;
        }
    }
    if let Some(case) = open {
        case.compare(settled, picked);
    }
    Ok(())
}
