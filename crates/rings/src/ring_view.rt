// What one ring of faces, or one strip, is written from.
ghost use Rattle.std.specs.Prelude.{◌≡◌, ℕ, ◌+◌, ◌<◌, length};
ghost use Rattle.rings.specs.Views.{edge_at, inner_at, ring_of_view, Opens, Shows};

use crate::contents::{Ring, Side, TriangleContents};
use crate::slice::Slice;

// The corners and the edges of a triangle, or of a ring of the table, and the contents inside, which
// are at most `depth` rings deep. That the contents fit the edges is no invariant: callers build views by hand.
#[derive(Clone, Copy)]
pub struct RingView<'a> {
    pub a: u32,
    pub b: u32,
    pub c: u32,
    pub ab: Slice<'a>,
    pub bc: Slice<'a>,
    pub ca: Slice<'a>,
    pub inner: TriangleContents,
    pub rings: &'a [Ring],
    pub depth: usize,
}

impl<'a> RingView<'a> {
    // Position `k` of an edge, counted from 0.
    pub fn edge(&self, side: Side, k: usize) -> u32
        ensures { result ≡ edge_at side (ring_of_view self.now) k }
    {
        side.pick(self.ab, self.bc, self.ca).at(k)
    }

    // Position `k` of a side of the contents.
    pub fn inner(&self, side: Side, k: usize) -> u32
        requires { Opens (k + 1) self.now }
        ensures { result ≡ inner_at side (ring_of_view self.now) k }
    {
        self.idx(side, k).unwrap()
    }
}

// Ring `i` of the table, its sides read forward.
pub fn ring_view(rings: &[Ring], i: usize, depth: usize) -> RingView
    requires { i < length rings.now }
    ensures { Shows rings.now depth i result }
{
    let r = &rings[i];
    RingView {
        a: r.a,
        b: r.b,
        c: r.c,
        ab: Slice::Forward(r.side(Side::Ab)),
        bc: Slice::Forward(r.side(Side::Bc)),
        ca: Slice::Forward(r.side(Side::Ca)),
        inner: r.inner,
        rings,
        depth,
    }
}
