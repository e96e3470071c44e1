// Slots that move between a list and the free list.
ghost use Rattle.std.specs.Prelude.{◌≡◌, ◌<◌, [], ◌∷◌, length, drop, sum_by, MatchOption, slice_set};
ghost use Rattle.links.specs.Walk.{count};
ghost use Rattle.links.specs.Meaning.{slots, size, list, Sets};

use crate::table::Links;

impl Links {
    // A free slot goes to the front of the list r; none where no slot is free, or there is no such list.
    pub fn take(&mut self, r: usize) -> Option<u16>
        ensures size { size self.new ≡ size self.old }
        ensures taken { MatchOption result ((slots self.new ≡ slots self.old) × (r < length (slots self.old) → sum_by length (slots self.old) ≡ size self.old))
            (λ s. (slots self.new ≡ slice_set (slots self.old) r (s ∷ list self.old r)) × (s < size self.old) × (sum_by (count s) (slots self.old) ≡ 0) × (r < length (slots self.old))) }
    {
        if self.heads.len() <= r {
            return None;
        }
        let s = self.free?;
        let i = s as usize;
        let head = self.heads[r];
        self.free = self.next[i];
        self.next[i] = head;
        self.heads[r] = Some(s);
        self.used += 1;
        Some(s)
    }

    // The front slot of the list r leaves it; none where there is none, or no such list.
    pub fn give(&mut self, r: usize) -> Option<u16>
        ensures size { size self.new ≡ size self.old }
        ensures given { MatchOption result ((slots self.new ≡ slots self.old) × (list self.old r ≡ []))
            (λ s. (slots self.new ≡ slice_set (slots self.old) r (drop 1 (list self.old r))) × (list self.old r ≡ s ∷ drop 1 (list self.old r)) × (s < size self.old)) }
    {
        let s = self.first(r)?;
        let i = s as usize;
        self.heads[r] = self.next[i];
        self.next[i] = self.free;
        self.free = Some(s);
        self.used -= 1;
        Some(s)
    }

    // Each slot of the list r leaves it.
    pub fn clear(&mut self, r: usize)
        ensures { Sets self.old r [] self.new }
    {
        while let Some(_s) = self.give(r) {}
    }
}
