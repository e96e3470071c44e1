// A cursor stands at a place of a list, and knows it by the slot before it: so the place can be read, and leave the list, in one step.
ghost use Rattle.std.specs.Prelude.{◌≡◌, ◌+◌, ◌<◌, length, None};
ghost use Rattle.std.specs.List.{slice_get};
ghost use Rattle.links.specs.Meaning.{list, Stands};

use crate::table::Links;

// A place of a list, counted from its front, and the slot before it, if there is one.
#[derive(Clone, Copy)]
pub struct Cursor {
    pub list: usize,
    pub place: usize,
    pub before: Option<u16>,
}

impl Cursor {
    // The first place of a list.
    pub fn front(list: usize) -> Cursor
        ensures { result ≡ record { list = list; place = 0; before = None } }
    {
        Cursor {
            list,
            place: 0,
            before: None,
        }
    }
}

impl Links {
    // The slot at the cursor's place; none behind the last one of its list.
    pub fn follow(&self, cursor: Cursor) -> Option<u16>
        requires { Stands self.now cursor }
        ensures { result ≡ slice_get (list self.now cursor.list) cursor.place }
    {
        match cursor.before {
            None if cursor.place == 0 => self.first(cursor.list),
            None => None,
            Some(s) => self.next[s as usize],
        }
    }

    // The cursor at the next place.
    pub fn step(&self, cursor: Cursor) -> Cursor
        requires stands { Stands self.now cursor }
        requires inside { cursor.place < length (list self.now cursor.list) }
        ensures list { result.list ≡ cursor.list }
        ensures place { result.place ≡ cursor.place + 1 }
        ensures stands { Stands self.now result }
    {
        Cursor {
            list: cursor.list,
            place: cursor.place + 1,
            before: self.follow(cursor),
        }
    }
}
