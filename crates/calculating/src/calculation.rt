// The writes of a calculation: the points of single vertices, and those along an edge.
ghost use Rattle.std.specs.Prelude.{ℕ, ◌<◌, ◌≤◌, length, slice_index};
ghost use Rattle.rings.specs.Slices.{read};
ghost use Rattle.shape.specs.Lists.{Each};
ghost use Rattle.calculating.specs.Calculating.{Makes, Within, middle_writes};
ghost use Rattle.calculating.specs.ViewWrites.{slice_writes};

use point::Vec3A;
use rings::slice::Slice;
use shape::base_shape::BaseShape;

// A vertex, and the two vertices that it lies halfway between. The one loop that reads the tuple names its parts.
pub(crate) type Middle = (u32, u32, u32);

// A base, by whose rules points are calculated, and the lent points of all vertices.
#[derive(Drop)]
pub(crate) struct Calculation<'a, 'b, S> {
    pub(crate) base: &'a S,
    pub(crate) points: &'b mut [Vec3A],
}

impl<'a, 'b, S: BaseShape> Calculation<'a, 'b, S> {
    // The points of the middles, in turn.
    pub(crate) fn put_middles(&mut self, middles: &[Middle])
        requires { Each (Within (length self.old.points.now)) middles.now }
        ensures { Makes S.between S.half (middle_writes middles.now) self.old self.new }
    {
        for (x, a, b) in middles {
            let p = self.points[*a as usize];
            let q = self.points[*b as usize];
            self.points[*x as usize] = self.base.interpolate_half(p, q);
        }
    }

    // The points of an edge's vertices, from that of `p` to that of `q`, if the edge is read forward:
    // the triangle that reads it backward finds them written.
    pub(crate) fn put_edge(&mut self, edge: Slice, p: u32, q: u32)
        requires few { length (read edge) ≤ 12 }
        requires within { (i : ℕ) → slice_index (read edge) i < length self.old.points.now }
        requires ends { (p < length self.old.points.now) × (q < length self.old.points.now) }
        ensures { Makes S.between S.half (slice_writes edge.entry p q) self.old self.new }
    {
        if let Slice::Forward(vertices) = edge {
            let a = self.points[p as usize];
            let b = self.points[q as usize];
            self.base
                .interpolate_multiple(a, b, vertices, self.points)
                .unwrap();
        }
    }
}
