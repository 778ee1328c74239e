// What a base shape is: its lists, its edge count and its two rules of interpolation.
ghost use Rattle.std.specs.Prelude.{◌≡◌, ℕ, List, length, Float};
ghost use Rattle.point.specs.declared.Vec3A.{Vec3A};
ghost use Rattle.shape.specs.declared.triangle.Triangle.{Triangle};
ghost use Rattle.shape.specs.Lists.{At};
ghost use Rattle.shape.specs.Listing.{Interpolates};

use crate::listing::{can_list, fraction};
use crate::triangle::Triangle;
use point::Vec3A;
use refusal::Refusal;

// A base means a list of points, a list of triangles, a count of edges and two rules. Every
// function answers from these, equally each time, and none beyond the lists.
pub trait BaseShape {
    ghost points: { Self → List Vec3A };

    ghost triangles: { Self → List Triangle };

    ghost edgeCount: { Self → ℕ };

    // the point between two points at a fraction
    ghost between: { Self → Vec3A → Vec3A → Float → Vec3A };

    // the point halfway between two points
    ghost half: { Self → Vec3A → Vec3A → Vec3A };

    fn point_count(&self) -> usize
        ensures { result ≡ length (points self.now) };

    fn point(&self, i: usize) -> Option<Vec3A>
        ensures { At (points self.now) i result };

    fn triangle_count(&self) -> usize
        ensures { result ≡ length (triangles self.now) };

    fn triangle(&self, i: usize) -> Option<Triangle>
        ensures { At (triangles self.now) i result };

    fn edges(&self) -> usize
        ensures { result ≡ edgeCount self.now };

    fn interpolate(&self, a: Vec3A, b: Vec3A, p: f32) -> Vec3A
        ensures { result ≡ between self.now a b p };

    fn interpolate_half(&self, a: Vec3A, b: Vec3A) -> Vec3A
        ensures { result ≡ half self.now a b };

    // Writes to the i-th listed vertex, i from 0, the point at (i + 1) / (indices.len() + 1).
    fn interpolate_multiple(
        &self,
        a: Vec3A,
        b: Vec3A,
        indices: &[u32],
        buffer: &mut [Vec3A],
    ) -> Result<(), Refusal>
        ensures { Interpolates (between self.now a b) indices.now buffer.old result buffer.new }
    {
        let listed = indices.len();
        if !can_list(indices, buffer.len()) {
            return Err(Refusal::InvalidListing {
                listed,
                points: buffer.len(),
            });
        }
        for (i, vertex) in indices.iter().enumerate() {
            buffer[*vertex as usize] = self.interpolate(a, b, fraction(i, listed));
        }
        Ok(())
    }
}
