// The triangle as a base: three points, one triangle, three edges.
ghost use Rattle.shape.specs.Tables.{triangle_points, triangle_triangles};

use crate::linear_base::LinearBase;
use crate::triangle::Triangle;
use point::Vec3A;

// On the XZ plane, inscribed in a circle of radius 1.
#[derive(Clone, Copy)]
pub struct TriangleBase;

// half the root of three, 14529495 / 16777216
const ROOT: f32 = 0.8660254;

const POINTS: [Vec3A; 3] = [
    Vec3A {
        x: -ROOT,
        y: 0.0,
        z: -0.5,
    },
    Vec3A {
        x: ROOT,
        y: 0.0,
        z: -0.5,
    },
    Vec3A {
        x: 0.0,
        y: 0.0,
        z: 1.0,
    },
];

const TRIANGLES: [Triangle; 1] = [Triangle {
    a: 2,
    b: 1,
    c: 0,
    ab: 0,
    bc: 1,
    ca: 2,
}];

const EDGES: usize = 3;

impl LinearBase for TriangleBase {
    ghost points = { λ _. triangle_points };

    ghost triangles = { λ _. triangle_triangles };

    ghost edgeCount = { λ _. 3 };

    fn point_list(&self) -> &[Vec3A] {
        &POINTS
    }

    fn triangle_list(&self) -> &[Triangle] {
        &TRIANGLES
    }

    fn edge_count(&self) -> usize {
        EDGES
    }
}
