// A base that is none of the library's: a pyramid over a square without a floor, whose rules walk
// each edge from its other end.
ghost use Rattle.std.specs.Prelude.{◌≡◌};
ghost use Rattle.point.specs.Points.{lerped, halved};
ghost use Rattle.checks.specs.Pyramids.{pyramid_points, pyramid_triangles};

use point::Vec3A;
use point::interpolation::{lerp, lerp_half};
use shape::base_shape::BaseShape;
use shape::lists::element;
use shape::triangle::Triangle;

#[derive(Clone, Copy)]
pub struct Pyramid {
    pub height: f32,
}

// four floor corners 0 to 3 and the top 4; the floor's edges are 0 to 3, the slopes 4 to 7
const TRIANGLES: [Triangle; 4] = [
    Triangle {
        a: 0,
        b: 1,
        c: 4,
        ab: 0,
        bc: 5,
        ca: 4,
    },
    Triangle {
        a: 1,
        b: 2,
        c: 4,
        ab: 1,
        bc: 6,
        ca: 5,
    },
    Triangle {
        a: 2,
        b: 3,
        c: 4,
        ab: 2,
        bc: 7,
        ca: 6,
    },
    Triangle {
        a: 3,
        b: 0,
        c: 4,
        ab: 3,
        bc: 4,
        ca: 7,
    },
];

impl BaseShape for Pyramid {
    ghost points = { λ s. pyramid_points s.height };

    ghost triangles = { λ _. pyramid_triangles };

    ghost edgeCount = { λ _. 8 };

    ghost between = { λ _ a b p. lerped b a p };

    ghost half = { λ _ a b. halved b a };

    fn point_count(&self) -> usize {
        5
    }

    fn point(&self, i: usize) -> Option<Vec3A> {
        let points = [
            Vec3A {
                x: 1.0,
                y: 0.0,
                z: 1.0,
            },
            Vec3A {
                x: 1.0,
                y: 0.0,
                z: -1.0,
            },
            Vec3A {
                x: -1.0,
                y: 0.0,
                z: -1.0,
            },
            Vec3A {
                x: -1.0,
                y: 0.0,
                z: 1.0,
            },
            Vec3A {
                x: 0.0,
                y: self.height,
                z: 0.0,
            },
        ];
        element(&points, i)
    }

    fn triangle_count(&self) -> usize {
        TRIANGLES.len()
    }

    fn triangle(&self, i: usize) -> Option<Triangle> {
        element(&TRIANGLES, i)
    }

    fn edges(&self) -> usize {
        8
    }

    fn interpolate(&self, a: Vec3A, b: Vec3A, p: f32) -> Vec3A {
        lerp(b, a, p)
    }

    fn interpolate_half(&self, a: Vec3A, b: Vec3A) -> Vec3A {
        lerp_half(b, a)
    }
}
