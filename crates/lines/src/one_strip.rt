// Writing one strip that the sink takes.
ghost use Rattle.std.specs.Prelude.{[], ◌∷◌};
ghost use Rattle.mesh.specs.Calls.{TakenBy};
ghost use Rattle.mesh.specs.Strips.{offset_by};
ghost use Rattle.lines.specs.Drawing.{Draws};

use strips::sink::Sink;
use strips::writing::write_strip;

// The numbers, each plus the offset, and a break. No refusal comes, since the sink takes them.
// Sink and offset stay two parameters: two of the four functions that take both are public, and a struct
// would serve the other two.
pub(crate) fn write_one<K: Sink>(sink: &mut K, numbers: &[u32], offset: u32)
    requires { TakenBy (K.Sink.meaning sink.old) (offset_by offset (numbers.now ∷ [])) }
    ensures { Draws K.Sink.meaning K.Sink.held (offset_by offset (numbers.now ∷ [])) sink.old sink.new }
{
    write_strip(sink, numbers, offset).unwrap();
}
