// Writing a network as text.
ghost use Rattle.std.specs.Prelude.{◌≡◌, ◌++◌, IfOk, OnOk};
ghost use Rattle.nettext.specs.Networks.{claim_lines, lines_of, member_lines};

use crate::line::TextLine;
use network::Figures;
use std::alloc::{AllocError, Global};

fn push_members(lines: &mut Vec<TextLine>, figures: &Figures) -> Result<(), AllocError>
    ensures { OnOk result (lines.new.items ≡ lines.old.items ++ member_lines figures.now figures.now.n) }
{
    let members = (0..figures.n).zip(&figures.members);
    lines.extend(members.map(|(member, entry)| TextLine::Member(member, *entry)))
}

fn push_claims(lines: &mut Vec<TextLine>, figures: &Figures) -> Result<(), AllocError>
    ensures { OnOk result (lines.new.items ≡ lines.old.items ++ claim_lines figures.now figures.now.n) }
{
    // a loop over the debtors: of one chain for all lines, tried, the check leaves `returns`
    for (debtor, row) in (0..figures.n).zip(&figures.claims) {
        let claims = (0..figures.n).zip(row).filter(|(_, units)| **units != 0);
        lines.extend(claims.map(|(creditor, units)| TextLine::Claim(debtor, creditor, *units)))?;
    }
    Ok(())
}

// The number of members, each member, and each claim above 0 in order of debtor and creditor.
pub fn network_lines(heap: Global, figures: &Figures) -> Result<Vec<TextLine>, AllocError>
    ensures { IfOk result (λ lines. lines.items ≡ lines_of figures.now) }
{
    let mut lines = Vec::new(heap);
    lines.push(TextLine::Members(figures.n))?;
    push_members(&mut lines, figures)?;
    push_claims(&mut lines, figures)?;
    Ok(lines)
}
