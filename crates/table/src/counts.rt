// Counts of a mesh.
ghost use Rattle.std.specs.Prelude.{◌≡◌, vec_len};
ghost use Rattle.mesh.specs.Counts.{subdivisions, shared_per_triangle, shared_vertices};
ghost use Rattle.table.specs.Tables.{numbering};

use crate::table::Table;

impl Table {
    // The count of subdivisions, n.
    pub fn subdivisions(&self) -> usize
        ensures { result ≡ subdivisions (numbering self.now) }
    {
        self.n
    }

    // (n + 1) × (n + 2) / 2, which is not how many vertices a triangle touches.
    pub fn vertices_per_main_triangle_shared(&self) -> usize
        ensures { result ≡ shared_per_triangle (numbering self.now) }
    {
        (self.n + 1) * (self.n + 2) / 2
    }

    // n for each edge, and the base's points.
    pub fn shared_vertices(&self) -> usize
        ensures { result ≡ shared_vertices (vec_len self.now.points) (numbering self.now) }
    {
        let n = self.n;
        n * self.edges.len() + self.points.len()
    }
}
