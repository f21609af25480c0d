// Classes: the creditors of a lower class are served before those of a higher one.
ghost use Rattle.std.specs.Prelude.{◌≡◌, ℕ, length};
ghost use Rattle.rules.specs.Classes.{by_class};
ghost use Rattle.rules.specs.InTurn.{InTurnLawful};
ghost use Rattle.rules.specs.Theorems.{ByClass};
ghost use Rattle.rules.specs.ClassLaws.{class_laws};

use crate::claims::ClaimList;
use crate::class_table::ClassTable;
use crate::in_turn::serve;
use crate::rulebook::Rulebook;
use network::Fault;

// How many classes there are, from class 0 up.
const CLASSES: u8 = 8;

// A layer over a rulebook: class after class is served from what the lower ones leave of the estate, and
// the rulebook below divides what a class is served over its own claims.
#[derive(Drop)]
pub struct Classes<R> {
    below: R,
    table: ClassTable,
}

impl<R: Rulebook> Classes<R> {
    // What a creditor gets hangs on the claims of its own class and on the claims total of the lower ones,
    // and whoever gets a unit sees all lower classes paid in full. The layer is lawful as is any other that
    // splits the claims into parts and serves these in turn.
    pub fn new(below: R, table: ClassTable) -> Classes<R>
        ensures made { (result.below ≡ below) × (result.table ≡ table) }
        ensures apart { (house : ℕ) → ByClass table.classes (R.Rulebook.awarded below house) }
        ensures turns { InTurnLawful }
    {
        Classes { below, table }
    }

    // Serves class after class.
    fn serve_classes(&self, house: u8, estate: u32, claims: &ClaimList, awards: &mut [u32])
        requires { length awards.old ≡ length claims.now.list.now }
        ensures { awards.new ≡ by_class self.now.table.classes (R.Rulebook.awarded self.now.below house) estate claims.now.list.now }
    {
        awards.fill(0);
        // Room in an array: the rules have no heap.
        let mut room = [0; 32];
        let room = &mut room[..claims.list.len()];
        let mut left = estate;
        for class in 0..CLASSES {
            let part = self.table.select(class, claims, room);
            left = serve(&self.below, house, left, &part, awards);
        }
    }
}

impl<R: Rulebook> Rulebook for Classes<R> {
    ghost awarded = { λ s house. by_class s.table.classes (R.Rulebook.awarded s.below house) };

    ghost lawful = { λ s house. class_laws s.table.classes _ s.table.low (R.Rulebook.lawful s.below house) };

    fn awards(
        &self,
        house: u8,
        estate: u32,
        claims: &[u32],
        awards: &mut [u32],
    ) -> Result<(), Fault> {
        let claims = ClaimList::check(claims, awards.len())?;
        self.serve_classes(house, estate, &claims, awards);
        Ok(())
    }
}
