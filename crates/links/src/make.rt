// Making a table: every slot is free, and every list is empty.
ghost use Rattle.std.specs.Prelude.{◌≡◌, ◌≤◌, [], replicate, IfOk};
ghost use Rattle.links.specs.Walk.{link_below, links_below};
ghost use Rattle.links.specs.Meaning.{slots, size};

use crate::table::Links;
use std::alloc::{AllocError, Global};

// The link to the slot below a slot; none from the lowest one.
fn below(slot: usize) -> Option<u16>
    requires { slot ≤ 65536 }
    ensures { result ≡ link_below slot }
{
    if slot == 0 {
        None
    } else {
        Some((slot - 1) as u16)
    }
}

// Each slot leads to the one below it. A loop, since for `(0..m).map(below).collect(heap)` the proof did not close.
fn one_list(heap: Global, m: usize) -> Result<Vec<Option<u16>>, AllocError>
    requires { m ≤ 65536 }
    ensures { IfOk result (λ v. v.items ≡ links_below m) }
{
    let mut next = Vec::with_capacity(heap, m)?;
    for slot in 0..m {
        next.push(below(slot))?;
    }
    Ok(next)
}

impl Links {
    // n empty lists over a table of m slots.
    pub fn new(heap: Global, n: usize, m: usize) -> Result<Links, AllocError>
        requires { (1 ≤ m) × (m ≤ 65536) }
        ensures { IfOk result (λ l. (slots l ≡ replicate n []) × (size l ≡ m)) }
    {
        let next = one_list(heap, m)?;
        let heads = vec![in heap; None; n]?;
        let free = below(m);
        Ok(Links {
            next,
            heads,
            free,
            used: 0,
        })
    }
}
