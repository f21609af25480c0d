// The classes by which creditors are served.
ghost use Rattle.std.specs.Prelude.{◌≡◌, ℕ, ◌≤◌, length, slice_index};
ghost use Rattle.rules.specs.Classes.{classes_of, of_class};

use crate::claims::ClaimList;
use network::Figures;

// A class from 0 to 7 for each of 32 creditors. (Of a fixed width: the rules have no heap.)
#[derive(Clone, Copy)]
pub struct ClassTable {
    classes: [u8; 32],
    ghost table: { length classes ≡ 32 },
    ghost low: { (k : ℕ) → slice_index classes k ≤ 7 },
}

impl ClassTable {
    // The classes of a network's members, and 0 past them.
    pub fn of(figures: &Figures) -> ClassTable
        ensures entries { result.classes ≡ classes_of figures.now }
        ensures past { (k : ℕ) → figures.now.n ≤ k → slice_index result.classes k ≡ 0 }
    {
        ClassTable {
            classes: figures.members.map(|member| member.class),
        }
    }

    // The claims of one class, all others taken as 0, for which there is room.
    pub(crate) fn select<'a>(
        &self,
        class: u8,
        claims: &ClaimList,
        room: &'a mut [u32],
    ) -> ClaimList<'a>
        requires { length room.now ≡ length claims.now.list.now }
        ensures { result.list.now ≡ of_class self.now.classes class claims.now.list.now }
    {
        // Numbered and not zipped: of what a `zip` over `iter_mut` lends, a proof knows only the length.
        for (k, claim) in room.iter_mut().enumerate() {
            *claim = if self.classes[k] == class {
                claims.list[k]
            } else {
                0
            };
        }
        ClaimList { list: room }
    }
}
