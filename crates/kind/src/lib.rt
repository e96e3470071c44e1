// A kind of change: rows, edits of rows, and changes (before-images) that take edits back.
#![tactic(auto)]

ghost use Rattle.std.specs.Prelude.{◌≡◌, Decides};
ghost use Rattle.kind.specs.Kinds.{Ops, Laws};

pub mod undoing;

// The marker type that implements this names the kind. No function refuses or allocates.
pub trait Kind {
    type Row: Copy;

    type Edit: Copy;

    type Change: Copy;

    // What each function answers.
    ghost ops: { Ops Self.Row Self.Edit Self.Change };

    // What each implementation proves of its answers.
    ghost laws: { Laws ops };

    // The row of a new record.
    fn blank() -> Self::Row
        ensures { result ≡ ops.blank };

    // The edited row, and the change that takes the edit back.
    fn edit(row: Self::Row, edit: Self::Edit) -> (Self::Row, Self::Change)
        ensures { result ≡ (ops.edited row edit, ops.before row edit) };

    // The row behind a change.
    fn undo(row: Self::Row, change: Self::Change) -> Self::Row
        ensures { result ≡ ops.undo row change };

    // One change for two that follow each other.
    fn join(newer: Self::Change, older: Self::Change) -> Self::Change
        ensures { result ≡ ops.join newer older };

    // The change that alters nothing; it fills the unused places of a table.
    fn no_change() -> Self::Change
        ensures { result ≡ ops.none };

    // Whether two rows tell the same.
    fn same(a: Self::Row, b: Self::Row) -> bool
        ensures { Decides result (ops.tells a ≡ ops.tells b) };
}
