// The settlement sheet: what a closed book comes to.
use network::Figures;

// The draft's figures, the payment matrix, each member's equity and whether it defaults, and the account
// of close: the rounds that moved units, the units moved, and the members passed over in the last round.
// (The account is three numbers here, as it is printed. Equities and defaults are tables of their own: sheets are compared, and printed, table by table. Their width is
// fixed, since closing may not run out of memory.)
#[derive(Drop)]
pub struct Sheet {
    pub figures: Figures,
    pub paid: [[u32; 32]; 32],
    pub equities: [u32; 32],
    pub defaults: [bool; 32],
    pub rounds: u32,
    pub units: u32,
    pub passed_over: u8,
}
