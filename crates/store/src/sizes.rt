ghost use Rattle.std.specs.Prelude.{◌≡◌, true};
ghost use Rattle.store.specs.Allowed.{allowed};

// The sizes and the start of a store that may be made.
#[derive(Clone, Copy)]
pub struct Sizes {
    pub(crate) records: usize,
    pub(crate) versions: usize,
    pub(crate) start: u32,
    ghost checked: { allowed records versions ≡ true },
}
