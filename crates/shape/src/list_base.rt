// A base over the caller's lists.

use crate::linear_base::LinearBase;
use crate::triangle::Triangle;
use point::Vec3A;

#[derive(Clone, Copy)]
pub struct ListBase<'a> {
    pub points: &'a [Vec3A],
    pub triangles: &'a [Triangle],
    pub edges: usize,
}

impl<'a> LinearBase for ListBase<'a> {
    ghost points = { λ s. s.points.now };

    ghost triangles = { λ s. s.triangles.now };

    ghost edgeCount = { λ s. s.edges };

    fn point_list(&self) -> &[Vec3A] {
        self.points
    }

    fn triangle_list(&self) -> &[Triangle] {
        self.triangles
    }

    fn edge_count(&self) -> usize {
        self.edges
    }
}
