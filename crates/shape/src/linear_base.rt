// A base whose lists lie in memory, and whose rules are linear interpolation.
ghost use Rattle.std.specs.Prelude.{◌≡◌, ℕ, List};
ghost use Rattle.point.specs.declared.Vec3A.{Vec3A};
ghost use Rattle.point.specs.Points.{lerped, halved};
ghost use Rattle.shape.specs.declared.triangle.Triangle.{Triangle};

use crate::base_shape::BaseShape;
use crate::lists::element;
use crate::triangle::Triangle;
use point::Vec3A;
use point::interpolation::{lerp, lerp_half};

pub trait LinearBase {
    ghost points: { Self → List Vec3A };

    ghost triangles: { Self → List Triangle };

    ghost edgeCount: { Self → ℕ };

    fn point_list(&self) -> &[Vec3A]
        ensures { result.now ≡ points self.now };

    fn triangle_list(&self) -> &[Triangle]
        ensures { result.now ≡ triangles self.now };

    fn edge_count(&self) -> usize
        ensures { result ≡ edgeCount self.now };
}

impl<B: LinearBase> BaseShape for B {
    ghost points = { λ s. B.points s };

    ghost triangles = { λ s. B.triangles s };

    ghost edgeCount = { λ s. B.edgeCount s };

    ghost between = { λ _. lerped };

    ghost half = { λ _. halved };

    fn point_count(&self) -> usize {
        self.point_list().len()
    }

    fn point(&self, i: usize) -> Option<Vec3A> {
        element(self.point_list(), i)
    }

    fn triangle_count(&self) -> usize {
        self.triangle_list().len()
    }

    fn triangle(&self, i: usize) -> Option<Triangle> {
        element(self.triangle_list(), i)
    }

    fn edges(&self) -> usize {
        self.edge_count()
    }

    fn interpolate(&self, a: Vec3A, b: Vec3A, p: f32) -> Vec3A {
        lerp(a, b, p)
    }

    fn interpolate_half(&self, a: Vec3A, b: Vec3A) -> Vec3A {
        lerp_half(a, b)
    }
}
