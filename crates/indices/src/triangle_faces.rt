// The faces of one triangle of a mesh.
ghost use Rattle.std.specs.Prelude.{◌≡◌, length};
ghost use Rattle.mesh.specs.Calls.{buffer_after, face_answer};
ghost use Rattle.mesh.specs.Calls.Ask.{triangle_faces};
ghost use Rattle.table.specs.Tables.{numbering, triangles};

use faces::triangle::write_triangle;
use refusal::Refusal;
use table::table::Table;

// Writes the faces of triangle `triangle` to the front of the buffer, three numbers each, and answers how many
// numbers there are; refused where there is no such triangle, or the buffer is too short.
pub fn get_indices(table: &Table, triangle: usize, out: &mut [u32]) -> Result<usize, Refusal>
    ensures answers { result ≡ face_answer (triangles table.now) (numbering table.now) (triangle_faces triangle (length out.old)) }
    ensures written { out.new ≡ buffer_after (triangles table.now) (numbering table.now) (triangle_faces triangle (length out.old)) out.old }
{
    let triangles = table.triangles.len();
    if triangle >= triangles {
        return Err(Refusal::NoTriangle {
            triangle,
            triangles,
        });
    }
    let needed = 3 * ((table.n + 1) * (table.n + 1));
    let length = out.len();
    if needed > length {
        return Err(Refusal::BufferTooShort { needed, length });
    }
    let view = table.view(triangle);
    Ok(write_triangle(out, 0, &view))
}
