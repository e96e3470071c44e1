// Gaps between versions: an open time in a gap keeps the two versions beside it apart.
ghost use Rattle.std.specs.Prelude.{◌≡◌};
ghost use Rattle.lease.specs.Times.{opens};
ghost use Rattle.chain.specs.Pruning.{open_in};

use lease::registry::Registry;

// Whether some time is open that is at least a and below b.
pub fn open_between<R: Registry>(registry: &R, a: u32, b: u32) -> bool
    ensures { result ≡ open_in (opens (R.leases registry.now)) a b }
{
    match registry.least_from(a) {
        Some(m) => m < b,
        None => false,
    }
}
