// Along the versions of a chain: a row led back to a time, and the times written down.
ghost use Rattle.std.specs.Prelude.{◌≡◌, ◌≤◌, length};
ghost use Rattle.version_table.specs.Chains.{Listed};
ghost use Rattle.chain.specs.Versions.{Falling, reads};

use crate::versions::Versions;
use kind::Kind;

// Leads a row back to the time t by versions whose times fall: it stops at the first that is not above t.
pub fn lead_back<K: Kind>(versions: Versions<'_, K::Change>, t: u32, row: K::Row) -> K::Row
    ensures { Falling versions.entry → result ≡ reads K.ops row versions.entry t }
{
    let mut reached = row;
    for version in versions {
        if version.time <= t {
            return reached;
        }
        reached = K::undo(reached, version.change);
    }
    reached
}

// Writes the times of the versions at the front of a list, and answers how many: the place to write at is the count so far.
pub fn write_times<C: Copy>(versions: Versions<'_, C>, out: &mut [u32]) -> usize
    requires { length versions ≤ length out.old }
    ensures { Listed versions.entry out.old result out.new }
{
    let mut n = 0;
    for version in versions {
        out[n] = version.time;
        n += 1;
    }
    n
}
