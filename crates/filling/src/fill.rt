// One fill for every kind of data.
ghost use Rattle.std.specs.Prelude.{◌≡◌};
ghost use Rattle.filling.specs.FillsData.{FillsData};
ghost use Rattle.table.specs.Tables.{numbering, triangles};

use crate::generator::Generator;
use point::Vec3A;
use refusal::Refusal;
use table::table::Table;

// Hands the point of each vertex, in rising order, to the generator, and puts what it makes of it at the
// vertex's place; refused where the data slice is shorter than the vertices are many.
pub fn fill<G: Generator>(
    table: &Table,
    points: &[Vec3A; 3360],
    generator: &mut G,
    slice: &mut [G::Item],
) -> Result<(), Refusal>
    ensures { FillsData G.Generator.generates (triangles table.now) (numbering table.now) points.now generator.old slice.old result generator.new slice.new }
{
    let vertices = table.total as usize;
    let length = slice.len();
    if vertices > length {
        return Err(Refusal::DataTooShort { vertices, length });
    }
    // over positions: a zip of the places and the points was tried, and its contract stayed open
    for i in 0..vertices {
        slice[i] = generator.generate(points[i]);
    }
    Ok(())
}
