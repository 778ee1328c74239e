// The table of a mesh: its base's lists, its edges, and the contents of its triangles in rings.
ghost use Rattle.std.specs.Prelude.{ℕ, vec_len};
ghost use Rattle.table.specs.Sound.{Sound};

use crate::forward::Forward;
use growing::edge::Edge;
use point::Vec3A;
use rings::contents::{Ring, TriangleContents};
use shape::triangle::Triangle;

// All lists have their places from the making on: no later call allocates.
// The lists of triangles stay three: subdividing takes the contents as one list, and the readings are made of the
// base's triangles as one.
#[derive(Drop)]
pub struct Table {
    pub points: Vec<Vec3A>,
    pub triangles: Vec<Triangle>,
    pub forward: Vec<Forward>,
    pub edges: Vec<Edge>,
    pub contents: Vec<TriangleContents>,
    pub rings: Vec<Ring>,
    // the count of subdivisions
    pub n: usize,
    // how many vertices there are
    pub total: u32,
    ghost sound: { ∥ Sound (vec_len points) triangles.items forward.items edges.items contents.items rings.items n total ∥₁ },
}
