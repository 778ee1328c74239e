// The faces of one triangle: its own ring, and then its contents, ring by ring.
ghost use Rattle.std.specs.Prelude.{◌≡◌, ℕ, ◌+◌, ◌*◌, ◌≤◌, length};
ghost use Rattle.pattern.specs.Amounts.{triangle_face_count};
ghost use Rattle.rings.specs.Held.{Fits};
ghost use Rattle.rings.specs.Slices.{read};
ghost use Rattle.rings.specs.Views.{Whole};
ghost use Rattle.faces.specs.Viewed.{inner_faces, view_faces};
ghost use Rattle.faces.specs.Writer.{HasRoom, Writes};
ghost use Rattle.faces.specs.Written.{Wrote};

use crate::writer::FaceWriter;
use rings::contents::TriangleContents;
use rings::ring_view::{RingView, ring_view};

impl<'a> FaceWriter<'a> {
    // The faces of a view's contents. A ring writes itself, and then its inner contents.
    fn write_contents(&mut self, view: &RingView)
        requires fits { (m : ℕ) × Fits view.now.rings.now view.now.depth m view.now.inner }
        requires room { HasRoom (length (inner_faces view.now)) self.old }
        ensures { Writes (inner_faces view.now) self.old self.new }
    {
        match view.inner {
            TriangleContents::None | TriangleContents::One(_) => {}
            TriangleContents::Three { a, b, c } => self.write(&[(a, b, c)]),
            TriangleContents::Six {
                a,
                b,
                c,
                ab,
                bc,
                ca,
            } => self.write(&[(a, ab, ca), (ab, b, bc), (bc, c, ca), (ab, bc, ca)]),
            TriangleContents::More(i) => {
                let ring = ring_view(view.rings, i, view.depth - 1);
                self.write_ring(&ring);
                self.write_contents(&ring);
            }
        }
    }
}

// The faces of a triangle, from `at` on; the answer is the next free place.
pub fn write_triangle(out: &mut [u32], at: usize, view: &RingView) -> usize
    requires whole { Whole (length (read view.now.ab)) view.now }
    requires room { at + 3 * triangle_face_count (length (read view.now.ab)) ≤ length out.old }
    ensures wrote { Wrote out.old at (view_faces view.now) out.new result }
    ensures next { result ≡ at + 3 * triangle_face_count (length (read view.now.ab)) }
{
    let mut faces = FaceWriter { out, at };
    faces.write_ring(view);
    faces.write_contents(view);
    faces.at
}
