ghost use Rattle.std.specs.Prelude.{◌≡◌, length};
ghost use Rattle.links.specs.Meaning.{size};

use chain::version::Version;
use links::table::Links;

// Chains of versions, newest first, in one table: the links say which slots a chain has, the versions what they hold.
// The two stand side by side so that the links are proved once, without the element; both are made once, and nothing
// allocates afterwards. The clauses name chains and slots, so the table has no `impl Model`: its view would hide the slots.
#[derive(Drop)]
pub struct VersionTable<C> {
    pub(crate) links: Links,
    pub(crate) versions: Vec<Version<C>>,
    ghost sized: { length versions.items ≡ size links },
}
