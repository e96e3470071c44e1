// Places in a chain: a cursor's version is read, written and cut out in one step each.
ghost use Rattle.std.specs.Prelude.{◌≡◌, ◌+◌, ◌<◌, ◌++◌, length, take, drop, nat_lt, slice_set};
ghost use Rattle.std.specs.List.{slice_get};
ghost use Rattle.links.specs.Meaning.{Stands};
ghost use Rattle.version_table.specs.Chains.{chain, Sets};

use crate::table::VersionTable;
use chain::version::Version;
use links::cursor::Cursor;

impl<C: Copy> VersionTable<C> {
    // The version at the cursor, if there is one.
    pub(crate) fn look(&self, cursor: Cursor) -> Option<Version<C>>
        requires { Stands self.now.links cursor }
        ensures { result ≡ slice_get (chain self.now cursor.list) cursor.place }
    {
        let s = self.links.follow(cursor)?;
        Some(self.versions[s as usize])
    }

    // Another version at the cursor: false where there is no version.
    pub(crate) fn write(&mut self, cursor: Cursor, version: Version<C>) -> bool
        requires { Stands self.old.links cursor }
        ensures done { result ≡ nat_lt cursor.place (length (chain self.old cursor.list)) }
        ensures links { self.new.links ≡ self.old.links }
        ensures written { Sets self.old cursor.list (slice_set (chain self.old cursor.list) cursor.place version) self.new }
    {
        let Some(s) = self.links.follow(cursor) else {
            return false;
        };
        self.versions[s as usize] = version;
        true
    }

    // The version at the cursor leaves its chain, and the next one comes to stand there.
    pub(crate) fn cut(&mut self, cursor: Cursor)
        requires stands { Stands self.old.links cursor }
        requires inside { cursor.place < length (chain self.old cursor.list) }
        ensures cut { Sets self.old cursor.list (take cursor.place (chain self.old cursor.list) ++ drop (cursor.place + 1) (chain self.old cursor.list)) self.new }
        ensures stands { Stands self.new.links cursor }
    {
        self.links.cut(cursor);
    }

    // Every version from the cursor on is dropped.
    pub(crate) fn drop_from(&mut self, cursor: Cursor)
        requires { Stands self.old.links cursor }
        ensures { Sets self.old cursor.list (take cursor.place (chain self.old cursor.list)) self.new }
    {
        while let Some(_slot) = self.links.follow(cursor) {
            self.cut(cursor);
        }
    }
}
