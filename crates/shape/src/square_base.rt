// The square as a base: four points, two triangles, five edges.
ghost use Rattle.shape.specs.Tables.{square_points, square_triangles};

use crate::linear_base::LinearBase;
use crate::triangle::Triangle;
use point::Vec3A;

// On the XZ plane, with sides of length 2.
#[derive(Clone, Copy)]
pub struct SquareBase;

const POINTS: [Vec3A; 4] = [
    Vec3A {
        x: 1.0,
        y: 0.0,
        z: 1.0,
    },
    Vec3A {
        x: 1.0,
        y: 0.0,
        z: -1.0,
    },
    Vec3A {
        x: -1.0,
        y: 0.0,
        z: -1.0,
    },
    Vec3A {
        x: -1.0,
        y: 0.0,
        z: 1.0,
    },
];

const TRIANGLES: [Triangle; 2] = [
    Triangle {
        a: 0,
        b: 1,
        c: 2,
        ab: 1,
        bc: 2,
        ca: 0,
    },
    Triangle {
        a: 0,
        b: 2,
        c: 3,
        ab: 0,
        bc: 3,
        ca: 4,
    },
];

const EDGES: usize = 5;

// As for the triangle but for the two lists and the count, which are all that a base of this kind is.
impl LinearBase for SquareBase {
    ghost points = { λ _. square_points };

    ghost triangles = { λ _. square_triangles };

    ghost edgeCount = { λ _. 5 };

    fn point_list(&self) -> &[Vec3A] {
        &POINTS
    }

    fn triangle_list(&self) -> &[Triangle] {
        &TRIANGLES
    }

    fn edge_count(&self) -> usize {
        EDGES
    }
}
