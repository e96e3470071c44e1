// Going over a chain, version by version.
ghost use Rattle.std.specs.Prelude.{◌≡◌};
ghost use Rattle.std.specs.Iterator.{YieldsFirst, item_count};
ghost use Rattle.version_table.specs.Chains.{chain};

use crate::table::VersionTable;
use chain::version::Version;
use std::marker::Model;

// The versions of a chain that are still to come, the newest first, seen as their list.
#[derive(Drop)]
pub struct Versions<'a, C> {
    table: &'a VersionTable<C>,
    at: Option<u16>,
}

impl<'a, C> Model for Versions<'a, C> {
    ghost use Rattle.std.specs.Prelude.{List};
    ghost use Rattle.chain.specs.declared.version.Version.{Version};

    ghost Value = { List (Version C) };

    ghost use Rattle.links.specs.Meaning.{from, Onto};
    ghost use Rattle.version_table.specs.Chains.{pick};

    ghost view = { λ v. pick v.table.now.versions.items (from v.table.now.links v.at) };

    ghost invariant = { λ v. Onto v.table.now.links v.at };
}

impl<'a, C: Copy> Iterator for Versions<'a, C> {
    type Item = Version<C>;

    ghost next_gives = { YieldsFirst (λ rest. rest) };

    ghost remaining = { item_count (λ rest. rest) };

    fn next(&mut self) -> Option<Version<C>> {
        let slot = self.at?;
        let table = self.table;
        self.at = table.links.after(slot);
        Some(table.versions[slot as usize])
    }
}

impl<C> VersionTable<C> {
    // The versions of the chain r; none where there is no such chain.
    pub fn chain(&self, r: usize) -> Versions<'_, C>
        ensures { result ≡ chain self.now r }
    {
        Versions {
            table: self,
            at: self.links.first(r),
        }
    }
}
