// A record's versions in a list of their own.
ghost use Rattle.std.specs.Prelude.{◌≡◌, length, take, drop};
ghost use Rattle.lease.specs.Times.{opens};
ghost use Rattle.chain.specs.Versions.{reads};
ghost use Rattle.chain.specs.Pruning.{prune};
ghost use Rattle.chain.specs.RecordLaw.{RecordLaw};

use crate::gap::open_between;
use crate::version::Version;
use kind::Kind;
use lease::registry::Registry;

// Leads a row back to the time s.
pub fn read_list<K: Kind>(row: K::Row, versions: &[Version<K::Change>], s: u32) -> K::Row
    ensures { result ≡ reads K.ops row versions.now s }
{
    let mut reached = row;
    for version in versions {
        if s < version.time {
            reached = K::undo(reached, version.change);
        }
    }
    reached
}

// Prunes a list in place and answers how many versions are kept, at its front; the places behind them are as they were.
// It writes at the count of those kept, behind the index that it reads: no iterator of the library reads and writes one list so.
pub fn prune_list<K: Kind, R: Registry>(
    registry: &R,
    row: K::Row,
    versions: &mut [Version<K::Change>],
) -> usize
    ensures count { result ≡ length (prune K.ops (opens (R.leases registry.now)) row versions.old) }
    ensures kept { take result versions.new ≡ prune K.ops (opens (R.leases registry.now)) row versions.old }
    ensures rest { drop result versions.new ≡ drop result versions.old }
    ensures law { RecordLaw K.ops }
{
    let Some(least) = registry.least_from(0) else {
        return 0;
    };
    let n = versions.len();
    if n == 0 {
        return 0;
    }
    let mut reached = row;
    let mut hand = versions[0];
    let mut kept = 0;
    for i in 1..n {
        let older = versions[i];
        if open_between(registry, older.time, hand.time) {
            let back = K::undo(reached, hand.change);
            if !K::same(reached, back) {
                versions[kept] = hand;
                kept += 1;
                reached = back;
            }
            hand = older;
        } else {
            hand = Version {
                time: hand.time,
                change: K::join(hand.change, older.change),
            };
        }
    }
    if least < hand.time {
        let back = K::undo(reached, hand.change);
        if !K::same(reached, back) {
            versions[kept] = hand;
            kept += 1;
        }
    }
    kept
}
