// The strip of one edge.
ghost use Rattle.std.specs.Prelude.{◌≤◌, [], ◌∷◌, ◌++◌, length};
ghost use Rattle.mesh.specs.Calls.{TakenBy};
ghost use Rattle.mesh.specs.Strips.{offset_by};
ghost use Rattle.lines.specs.Drawing.{Draws};

use crate::one_strip::write_one;
use crate::strip::Strip;
use strips::sink::Sink;

// The edge's first corner, its vertices, its last corner, and a break.
pub fn write_edge<K: Sink>(sink: &mut K, first: u32, vertices: &[u32], last: u32, offset: u32)
    requires few { length vertices.now ≤ 12 }
    requires taken { TakenBy (K.Sink.meaning sink.old) (offset_by offset ((first ∷ (vertices.now ++ (last ∷ []))) ∷ [])) }
    ensures { Draws K.Sink.meaning K.Sink.held (offset_by offset ((first ∷ (vertices.now ++ (last ∷ []))) ∷ [])) sink.old sink.new }
{
    let mut strip = Strip::new();
    strip.push(first);
    strip.try_extend_from_slice(vertices).unwrap();
    strip.push(last);
    write_one(sink, &strip, offset);
}
