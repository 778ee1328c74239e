// Linear interpolation between two points.
ghost use Rattle.std.specs.Prelude.{◌≡◌};
ghost use Rattle.point.specs.Points.{lerped, halved};

use crate::Vec3A;

// (1 - p) × a + p × b
pub fn lerp(a: Vec3A, b: Vec3A, p: f32) -> Vec3A
    ensures { result ≡ lerped a b p }
{
    (1.0 - p) * a + p * b
}

// (a + b) × 0.5
pub fn lerp_half(a: Vec3A, b: Vec3A) -> Vec3A
    ensures { result ≡ halved a b }
{
    (a + b) * 0.5
}
