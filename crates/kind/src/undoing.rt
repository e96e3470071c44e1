ghost use Rattle.std.specs.Prelude.{◌≡◌};
ghost use Rattle.kind.specs.Undoing.{undo_all};

use crate::Kind;

// Edits a row and takes the edit back: the row tells what it told at first.
pub fn there_and_back<K: Kind>(row: K::Row, edit: K::Edit) -> K::Row
    ensures { K.ops.tells result ≡ K.ops.tells row }
{
    let (next, change) = K::edit(row, edit);
    K::undo(next, change)
}

// Undoes the changes one by one, newest first.
pub fn undo_each<K: Kind>(row: K::Row, changes: &[K::Change]) -> K::Row
    ensures { result ≡ undo_all K.ops row changes.now }
{
    changes
        .iter()
        .fold(row, |reached, change| K::undo(reached, *change))
}

// Joins the changes, newest first, and undoes the join at once: the row tells what undoing them one by one does.
pub fn undo_joined<K: Kind>(row: K::Row, changes: &[K::Change]) -> K::Row
    ensures { K.ops.tells result ≡ K.ops.tells (undo_all K.ops row changes.now) }
{
    let whole = changes
        .iter()
        .fold(K::no_change(), |newer, older| K::join(newer, *older));
    K::undo(row, whole)
}
