// The faces of a whole mesh.
ghost use Rattle.std.specs.Prelude.{◌≡◌, length};
ghost use Rattle.mesh.specs.Calls.{buffer_after, face_answer};
ghost use Rattle.mesh.specs.Calls.Ask.{all_faces};
ghost use Rattle.table.specs.Tables.{numbering, triangles};

use faces::triangle::write_triangle;
use refusal::Refusal;
use table::table::Table;

// Writes the faces of all triangles, one triangle after another, to the front of the buffer, and answers how many
// numbers there are; refused where the buffer is too short.
pub fn get_all_indices(table: &Table, out: &mut [u32]) -> Result<usize, Refusal>
    ensures answers { result ≡ face_answer (triangles table.now) (numbering table.now) (all_faces (length out.old)) }
    ensures written { out.new ≡ buffer_after (triangles table.now) (numbering table.now) (all_faces (length out.old)) out.old }
{
    let triangles = table.triangles.len();
    let needed = triangles * (3 * ((table.n + 1) * (table.n + 1)));
    let length = out.len();
    if needed > length {
        return Err(Refusal::BufferTooShort { needed, length });
    }
    let mut at = 0;
    for i in 0..triangles {
        let view = table.view(i);
        at = write_triangle(out, at, &view);
    }
    Ok(at)
}
