// The points of one triangle: along its edges, and in its contents.
ghost use Rattle.std.specs.Prelude.{◌≡◌, ℕ, ◌<◌, ◌≤◌, length};
ghost use Rattle.rings.specs.Slices.{read};
ghost use Rattle.rings.specs.Views.{Whole};
ghost use Rattle.calculating.specs.Calculating.{Makes};
ghost use Rattle.calculating.specs.Rules.{wrote};
ghost use Rattle.calculating.specs.ViewWrites.{Below, corner_writes, edges_writes, inside_writes, view_writes};

use crate::calculation::Calculation;
use point::Vec3A;
use rings::contents::TriangleContents;
use rings::ring_view::{RingView, ring_view};
use shape::base_shape::BaseShape;

impl<'a, 'b, S: BaseShape> Calculation<'a, 'b, S> {
    // The corners `a`, `b`, `c` of the contents.
    fn put_tips(&mut self, view: &RingView, a: u32, b: u32, c: u32)
        requires many { 2 ≤ length (read view.now.ab) }
        requires below { Below (length self.old.points.now) view.now }
        requires corners { (a < length self.old.points.now) × ((b < length self.old.points.now) × (c < length self.old.points.now)) }
        ensures { Makes S.between S.half (corner_writes view.now a b c) self.old self.new }
    {
        let z = view.ab.len() - 2;
        self.put_middles(&[
            (a, view.ab.at(1), view.ca.at(z)),
            (b, view.ab.at(z), view.bc.at(1)),
            (c, view.bc.at(z), view.ca.at(1)),
        ]);
    }

    // The vertices of the edges ab, bc, ca, each with its own ends.
    fn put_edges(&mut self, view: &RingView)
        requires whole { Whole (length (read view.now.ab)) view.now }
        requires below { Below (length self.old.points.now) view.now }
        ensures { Makes S.between S.half (edges_writes view.now) self.old self.new }
    {
        self.put_edge(view.ab, view.a, view.b);
        self.put_edge(view.bc, view.b, view.c);
        self.put_edge(view.ca, view.c, view.a);
    }

    // The vertices inside the edges of `view`.
    fn put_contents(&mut self, view: &RingView)
        requires whole { Whole (length (read view.now.ab)) view.now }
        requires below { Below (length self.old.points.now) view.now }
        ensures { Makes S.between S.half (inside_writes view.now) self.old self.new }
    {
        match view.inner {
            TriangleContents::None => {}
            TriangleContents::One(x) => self.put_middles(&[(x, view.ab.at(0), view.bc.at(1))]),
            TriangleContents::Three { a, b, c } => {
                let (ab, bc, ca) = (view.ab.at(1), view.bc.at(1), view.ca.at(1));
                self.put_middles(&[(a, ab, ca), (b, bc, ab), (c, ca, bc)]);
            }
            TriangleContents::Six {
                a,
                b,
                c,
                ab,
                bc,
                ca,
            } => {
                self.put_tips(view, a, b, c);
                self.put_middles(&[(ab, a, b), (bc, b, c), (ca, c, a)]);
            }
            TriangleContents::More(i) => {
                let inner = ring_view(view.rings, i, view.depth - 1);
                self.put_tips(view, inner.a, inner.b, inner.c);
                self.put_edges(&inner);
                self.put_contents(&inner);
            }
        }
    }
}

// The vertices of one triangle: of the edges that it reads forward, then of its contents.
pub fn put_triangle<S: BaseShape>(base: &S, points: &mut [Vec3A], view: &RingView)
    requires whole { Whole (length (read view.now.ab)) view.now }
    requires below { Below (length points.old) view.now }
    ensures { points.new ≡ wrote (S.BaseShape.between base.now) (S.BaseShape.half base.now) (view_writes view.now) points.old }
{
    let mut calculation = Calculation { base, points };
    calculation.put_edges(view);
    calculation.put_contents(view);
}
