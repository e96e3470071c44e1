ghost use Rattle.std.specs.Prelude.{◌≡◌};
ghost use Rattle.kind.specs.Undoing.{undo_all};
ghost use Rattle.account.specs.Moments.{Told};

use kind::Kind;
use kind::undoing::{undo_each, undo_joined};

// The rows of one record after two edits, and the before-images that these left, single and joined.
#[derive(Clone, Copy)]
pub struct Moments<Row, Change> {
    pub second: Row,
    pub third: Row,
    pub older: Change,
    pub newer: Change,
    pub joined: Change,
}

// Edits a row twice.
pub fn edit_twice<K: Kind>(
    first: K::Row,
    earlier: K::Edit,
    later: K::Edit,
) -> Moments<K::Row, K::Change>
    ensures { Told K.ops first earlier later result }
{
    let (second, older) = K::edit(first, earlier);
    let (third, newer) = K::edit(second, later);
    Moments {
        second,
        third,
        older,
        newer,
        joined: K::join(newer, older),
    }
}

// Looks back over some changes, newest first: undone one by one, and joined and undone at once.
pub fn look_back<K: Kind>(row: K::Row, changes: &[K::Change]) -> (K::Row, K::Row)
    ensures each { result.0 ≡ undo_all K.ops row changes.now }
    ensures at_once { K.ops.tells result.1 ≡ K.ops.tells result.0 }
{
    (undo_each::<K>(row, changes), undo_joined::<K>(row, changes))
}
