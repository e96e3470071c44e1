// Cutting a place out of a list, in one step.
ghost use Rattle.std.specs.Prelude.{◌≡◌, ◌+◌, ◌<◌, [], ◌∷◌, ◌++◌, length, take, drop, MatchOption, slice_index, slice_set};
ghost use Rattle.links.specs.Meaning.{slots, size, list, Sets, Stands};

use crate::cursor::Cursor;
use crate::table::Links;

impl Links {
    // The slot after p, which is the k-th of the list r, leaves the list.
    fn cut_after(&mut self, r: usize, k: usize, p: u16) -> Option<u16>
        requires row { r < length (slots self.old) }
        requires place { (k < length (list self.old r)) × (slice_index (list self.old r) k ≡ p) }
        ensures size { size self.new ≡ size self.old }
        ensures cut { MatchOption result ((slots self.new ≡ slots self.old) × (drop (k + 1) (list self.old r) ≡ []))
            (λ s. (slots self.new ≡ slice_set (slots self.old) r (take (k + 1) (list self.old r) ++ drop 1 (drop (k + 1) (list self.old r))))
            × (drop (k + 1) (list self.old r) ≡ s ∷ drop 1 (drop (k + 1) (list self.old r))) × (s < size self.old)) }
    {
        match self.next[p as usize] {
            None => None,
            Some(s) => {
                let t = self.next[s as usize];
                self.next[p as usize] = t;
                self.next[s as usize] = self.free;
                self.free = Some(s);
                self.used -= 1;
                Some(s)
            }
        }
    }

    // The cursor's place leaves its list, and the next one comes to stand there.
    pub fn cut(&mut self, cursor: Cursor)
        requires stands { Stands self.old cursor }
        requires inside { cursor.place < length (list self.old cursor.list) }
        ensures cut { Sets self.old cursor.list (take cursor.place (list self.old cursor.list) ++ drop (cursor.place + 1) (list self.old cursor.list)) self.new }
        ensures stands { Stands self.new cursor }
    {
        match cursor.before {
            None => {
                let _front = self.give(cursor.list);
            }
            Some(p) => {
                let _cut = self.cut_after(cursor.list, cursor.place - 1, p);
            }
        }
    }
}
