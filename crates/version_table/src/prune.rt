// Pruning a record's chain in place, against the open times: one visit for each version, newest first.
ghost use Rattle.std.specs.Prelude.{◌≡◌, ◌+◌, ◌<◌, ◌++◌, length, take, drop, Some};
ghost use Rattle.std.specs.List.{slice_get};
ghost use Rattle.lease.specs.Times.{opens, least as lowest};
ghost use Rattle.chain.specs.Pruning.{open_in, floor, absorb, prune, prune_held};
ghost use Rattle.links.specs.Meaning.{Stands};
ghost use Rattle.version_table.specs.Chains.{chain, Sets};

use crate::table::VersionTable;
use chain::gap::open_between;
use chain::version::Version;
use kind::Kind;
use lease::registry::Registry;
use links::cursor::Cursor;

// Whether a time is open below a version and not below the next one; `least` is the least open time.
fn apart<C: Copy, R: Registry>(
    registry: &R,
    least: u32,
    time: u32,
    older: Option<Version<C>>,
) -> bool
    requires { Some least ≡ lowest 0 (R.leases registry.now) }
    ensures { result ≡ open_in (opens (R.leases registry.now)) (floor older) time }
{
    match older {
        Some(version) => open_between(registry, version.time, time),
        None => least < time,
    }
}

// The version at the cursor is joined into the next one, or dropped where it is the last.
fn join_down<K: Kind>(table: &mut VersionTable<K::Change>, cursor: Cursor, hand: Version<K::Change>)
    requires stands { Stands table.old.links cursor }
    requires inside { cursor.place < length (chain table.old cursor.list) }
    ensures joined { Sets table.old cursor.list (take cursor.place (chain table.old cursor.list) ++ absorb K.ops hand (drop (cursor.place + 1) (chain table.old cursor.list))) table.new }
    ensures stands { Stands table.new.links cursor }
{
    let next = table.links.step(cursor);
    if let Some(older) = table.look(next) {
        let change = K::join(hand.change, older.change);
        let _written = table.write(
            next,
            Version {
                time: hand.time,
                change,
            },
        );
    }
    table.cut(cursor);
}

// Prunes a chain from the cursor on, where its newest version stands, which leads back from the row.
fn prune_from<K: Kind, R: Registry>(
    table: &mut VersionTable<K::Change>,
    registry: &R,
    row: K::Row,
    start: Cursor,
    newest: Version<K::Change>,
)
    requires stands { Stands table.old.links start }
    requires newest { Some newest ≡ slice_get (chain table.old start.list) start.place }
    ensures { Sets table.old start.list (take start.place (chain table.old start.list) ++ prune K.ops (opens (R.leases registry.now)) row (drop start.place (chain table.old start.list))) table.new }
{
    let Some(least) = registry.least_from(0) else {
        table.drop_from(start);
        return;
    };
    let mut reached = row;
    let mut here = start;
    let mut at = Some(newest);
    while let Some(hand) = at {
        let next = table.links.step(here);
        let older = table.look(next);
        if apart(registry, least, hand.time, older) {
            at = older;
            let back = K::undo(reached, hand.change);
            if K::same(reached, back) {
                table.cut(here);
            } else {
                reached = back;
                here = next;
            }
        } else {
            join_down::<K>(table, here, hand);
            at = table.look(here);
        }
    }
}

// Prunes the chain r, which leads back from the row. Where no version is left to prune the registry is not asked.
pub fn prune_chain<K: Kind, R: Registry>(
    table: &mut VersionTable<K::Change>,
    r: usize,
    registry: &R,
    row: K::Row,
)
    ensures { Sets table.old r (prune K.ops (opens (R.leases registry.now)) row (chain table.old r)) table.new }
{
    let first = Cursor::front(r);
    if let Some(newest) = table.look(first) {
        prune_from::<K, R>(table, registry, row, first, newest);
    }
}

// Prunes the chain r behind its first version, a holder's change, which leads back from the row in place.
pub fn prune_behind<K: Kind, R: Registry>(
    table: &mut VersionTable<K::Change>,
    r: usize,
    registry: &R,
    place: K::Row,
)
    ensures { Sets table.old r (prune_held K.ops (opens (R.leases registry.now)) place (chain table.old r)) table.new }
{
    let first = Cursor::front(r);
    if let Some(held) = table.look(first) {
        let next = table.links.step(first);
        if let Some(newest) = table.look(next) {
            let finished = K::undo(place, held.change);
            prune_from::<K, R>(table, registry, finished, next, newest);
        }
    }
}
