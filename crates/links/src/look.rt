// Walking a list, slot by slot.
ghost use Rattle.std.specs.Prelude.{◌≡◌, ◌<◌, ◌∷◌, length, Some, sum_by};
ghost use Rattle.std.specs.List.{slice_get};
ghost use Rattle.links.specs.Meaning.{slots, size, list, from, Onto};

use crate::table::Links;

impl Links {
    // The link to the first place of the list r; none where there is no such list.
    pub fn first(&self, r: usize) -> Option<u16>
        ensures onto { Onto self.now result }
        ensures list { from self.now result ≡ list self.now r }
        ensures head { result ≡ slice_get (list self.now r) 0 }
    {
        if r < self.heads.len() {
            self.heads[r]
        } else {
            None
        }
    }

    // The link from a slot of a list to the next one.
    pub fn after(&self, slot: u16) -> Option<u16>
        requires { Onto self.now (Some slot) }
        ensures onto { Onto self.now result }
        ensures list { from self.now (Some slot) ≡ slot ∷ from self.now result }
        ensures inside { slot < size self.now }
    {
        self.next[slot as usize]
    }

    // How many slots are in lists.
    pub fn used(&self) -> usize
        ensures { result ≡ sum_by length (slots self.now) }
    {
        self.used
    }
}
