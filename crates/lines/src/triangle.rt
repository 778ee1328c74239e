// The strips of one triangle.
ghost use Rattle.std.specs.Prelude.{[], ◌∷◌};
ghost use Rattle.mesh.specs.Calls.{TakenBy};
ghost use Rattle.mesh.specs.Strips.{offset_by};
ghost use Rattle.lines.specs.Drawing.{Draws};
ghost use Rattle.lines.specs.ViewStrips.{own_strip, view_strips, WholeView};

use crate::one_strip::write_one;
use crate::ring_strip::ring_strip;
use rings::contents::TriangleContents;
use rings::ring_view::{RingView, ring_view};
use strips::sink::Sink;

// The strip of one ring, and a break.
fn write_ring<K: Sink>(sink: &mut K, view: &RingView, offset: u32)
    requires whole { WholeView view.now }
    requires taken { TakenBy (K.Sink.meaning sink.old) (offset_by offset (own_strip view.now ∷ [])) }
    ensures { Draws K.Sink.meaning K.Sink.held (offset_by offset (own_strip view.now ∷ [])) sink.old sink.new }
{
    let strip = ring_strip(view);
    write_one(sink, &strip, offset);
}

// The strips of a triangle, from outside in, each with a break behind it: its own, those of its
// contents' rings, and that of six vertices inside.
pub fn write_triangle<K: Sink>(sink: &mut K, view: &RingView, offset: u32)
    requires whole { WholeView view.now }
    requires taken { TakenBy (K.Sink.meaning sink.old) (offset_by offset (view_strips view.now)) }
    ensures { Draws K.Sink.meaning K.Sink.held (offset_by offset (view_strips view.now)) sink.old sink.new }
{
    let mut ring = *view;
    write_ring(sink, &ring, offset);
    while let TriangleContents::More(i) = ring.inner {
        ring = ring_view(ring.rings, i, ring.depth - 1);
        write_ring(sink, &ring, offset);
    }
    if let TriangleContents::Six { ab, bc, ca, .. } = ring.inner {
        write_one(sink, &[ab, bc, ca, ab], offset);
    }
}
