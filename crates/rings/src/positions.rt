// The positions of contents, seen from outside.
ghost use Rattle.std.specs.Prelude.{◌≡◌, ℕ, ◌+◌, ◌<◌, ◌≤◌, Some, length, slice_index};
ghost use Rattle.pattern.specs.Ring.{on_side, pos_ab, pos_bc, pos_ca, positions};
ghost use Rattle.rings.specs.Positions.{PositionOf, pos_of, position};
ghost use Rattle.rings.specs.Views.{inner_at, inside, ring_of_view, Named};

use crate::contents::{Side, TriangleContents};
use crate::ring_view::RingView;

// Position `k` of a side that runs from one end over the vertices of `s` to the other, and none beyond.
fn along(ends: (u32, u32), s: &[u32], k: usize) -> Option<u32>
    ensures { result ≡ position (length s.now + 2) k (on_side ends.0 (length s.now) (λ i. slice_index s.now i) ends.1 k) }
{
    match k {
        0 => Some(ends.0),
        k if k - 1 == s.len() => Some(ends.1),
        k => s.get(k - 1).copied(),
    }
}

impl<'a> RingView<'a> {
    // Position `k` of a side of the contents, and none beyond.
    pub(crate) fn idx(&self, side: Side, k: usize) -> Option<u32>
        requires { Named self.now }
        ensures is { PositionOf (pos_of side) (inside self.now) k result }
        ensures there { k < positions (inside self.now) → result ≡ Some (inner_at side (ring_of_view self.now) k) }
    {
        match self.inner {
            TriangleContents::None => None,
            TriangleContents::One(x) => match k {
                0 => Some(x),
                _ => None,
            },
            TriangleContents::Three { a, b, c } => along(side.ends(a, b, c), &[], k),
            TriangleContents::Six {
                a,
                b,
                c,
                ab,
                bc,
                ca,
            } => along(side.ends(a, b, c), &[side.pick(ab, bc, ca)], k),
            TriangleContents::More(i) => {
                let r = &self.rings[i];
                along(side.ends(r.a, r.b, r.c), r.side(side), k)
            }
        }
    }

    // Position `k` of side AB of the contents, and none beyond. The three are the crate's own names.
    pub fn idx_ab(&self, k: usize) -> Option<u32>
        requires { Named self.now }
        ensures { PositionOf pos_ab (inside self.now) k result }
    {
        self.idx(Side::Ab, k)
    }

    // Position `k` of side BC of the contents, and none beyond.
    pub fn idx_bc(&self, k: usize) -> Option<u32>
        requires { Named self.now }
        ensures { PositionOf pos_bc (inside self.now) k result }
    {
        self.idx(Side::Bc, k)
    }

    // Position `k` of side CA of the contents, and none beyond.
    pub fn idx_ca(&self, k: usize) -> Option<u32>
        requires { Named self.now }
        ensures { PositionOf pos_ca (inside self.now) k result }
    {
        self.idx(Side::Ca, k)
    }
}
