// Lists of slots of one table, linked by index.
// The links are numbers of slots, and what a slot holds lies in a table of the owner's beside these: both are made once
// and nothing allocates afterwards, and the lists are proved once, whatever the slots hold. A slot's number is read by
// `as usize`, which loses nothing from 16 bits: `usize::from` says no more, and puts a call between each read and its place.
ghost use Rattle.std.specs.Prelude.{◌≡◌, ◌+◌, ◌∷◌, length};
ghost use Rattle.links.specs.Walk.{walk, Sound};

#[derive(Drop)]
pub struct Links {
    pub(crate) next: Vec<Option<u16>>,
    pub(crate) heads: Vec<Option<u16>>,
    pub(crate) free: Option<u16>,
    pub(crate) used: usize,
    ghost sound: { Sound next.items (free ∷ heads.items) },
    ghost counted: { used + length (walk next.items (length next.items) free) ≡ length next.items },
}
