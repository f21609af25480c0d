// What is due at a place of a network file.
#[derive(Clone, Copy)]
pub(crate) enum Due {
    // the Network record
    Network,
    // the Member record of this member
    Member(u8),
    // a Claim record behind the last one, whose debtor and creditor stand here if there was one, or the
    // End record
    Claim(Option<(u8, u8)>),
    // no further byte
    Nothing,
}
