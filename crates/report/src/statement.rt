// The lines of a settlement sheet.
ghost use Rattle.std.specs.Prelude.{◌≡◌, ◌<◌, ◌++◌, IfOk, OnOk};
ghost use Rattle.report.specs.Sheets.{default_lines, equity_lines, lines_of, paid_lines, row_lines};

use crate::line::Line;
use book::Sheet;
use std::alloc::{AllocError, Global};

// One line for each claim on a debtor.
fn push_row(lines: &mut Vec<Line>, sheet: &Sheet, debtor: u8) -> Result<(), AllocError>
    requires { debtor < sheet.now.figures.n }
    ensures { OnOk result (lines.new.items ≡ lines.old.items ++ row_lines sheet.now debtor sheet.now.figures.n) }
{
    let claims = &sheet.figures.claims[debtor as usize];
    let paid = &sheet.paid[debtor as usize];
    for (creditor, (claim, units)) in (0..sheet.figures.n).zip(claims.iter().zip(paid.iter())) {
        if *claim != 0 {
            lines.push(Line::Paid(debtor, creditor, *units))?;
        }
    }
    Ok(())
}

fn push_payments(lines: &mut Vec<Line>, sheet: &Sheet) -> Result<(), AllocError>
    ensures { OnOk result (lines.new.items ≡ lines.old.items ++ paid_lines sheet.now sheet.now.figures.n) }
{
    for debtor in 0..sheet.figures.n {
        push_row(lines, sheet, debtor)?;
    }
    Ok(())
}

fn push_equities(lines: &mut Vec<Line>, sheet: &Sheet) -> Result<(), AllocError>
    ensures { OnOk result (lines.new.items ≡ lines.old.items ++ equity_lines sheet.now sheet.now.figures.n) }
{
    let equities = (0..sheet.figures.n).zip(&sheet.equities);
    lines.extend(equities.map(|(member, units)| Line::Equity(member, *units)))
}

fn push_defaults(lines: &mut Vec<Line>, sheet: &Sheet) -> Result<(), AllocError>
    ensures { OnOk result (lines.new.items ≡ lines.old.items ++ default_lines sheet.now sheet.now.figures.n) }
{
    // by an index, so that the edit which takes an equity of 0 for a default differs in the value alone
    for member in 0..sheet.figures.n {
        let defaulted = sheet.defaults[member as usize];
        if defaulted {
            lines.push(Line::Default(member))?;
        }
    }
    Ok(())
}

// What is paid on each claim in the order of the file, each member's equity, who defaults, and the
// account of close.
pub fn sheet_lines(heap: Global, sheet: &Sheet) -> Result<Vec<Line>, AllocError>
    ensures { IfOk result (λ lines. lines.items ≡ lines_of sheet.now) }
{
    let mut lines = Vec::new(heap);
    push_payments(&mut lines, sheet)?;
    push_equities(&mut lines, sheet)?;
    push_defaults(&mut lines, sheet)?;
    lines.push(Line::Rounds(sheet.rounds, sheet.units, sheet.passed_over))?;
    Ok(lines)
}
