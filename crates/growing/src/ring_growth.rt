// A ring as contents grow: the one that takes the place of six vertices, and one with longer sides.
ghost use Rattle.std.specs.Prelude.{◌+◌, ◌≤◌, length};
ghost use Rattle.growing.specs.RingGrowth.{LongerRing, NewRing};
ghost use Rattle.rings.specs.Sides.{on_sides};

use crate::vertices::push_range;
use rings::contents::{Ring, TriangleContents};
use rings::row::Row;

// The ring that six vertices become, with two vertices on each side and one inside it, the four new ones
// numbered from `next` on. The other parameters are the fields of `Six`; a struct of them would serve this one call.
pub(crate) fn new_ring(a: u32, b: u32, c: u32, ab: u32, bc: u32, ca: u32, next: u32) -> Ring
    requires { next + 3 ≤ 4294967295 }
    ensures { NewRing a b c ab bc ca next result }
{
    let mut sides = Row::new();
    sides.push(ab);
    sides.push(bc);
    sides.push(ca);
    push_range(&mut sides, 3, next);
    Ring {
        a,
        b,
        c,
        sides,
        inner: TriangleContents::One(next + 3),
    }
}

// The ring takes one vertex more on each side, the three numbered from `next` on.
pub(crate) fn lengthen_ring(ring: &mut Ring, next: u32)
    requires { (length (on_sides ring.old) ≤ 24) × (next + 3 ≤ 4294967295) }
    ensures { LongerRing ring.old next ring.new }
{
    push_range(&mut ring.sides, 3, next);
}
