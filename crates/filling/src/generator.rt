// What makes data of points.
ghost use Rattle.std.specs.Prelude.{◌≡◌};
ghost use Rattle.point.specs.declared.Vec3A.{Vec3A};

use point::Vec3A;

// A generator's state and a point fix what it makes of the point, and its next state.
pub trait Generator {
    type Item: Drop;

    ghost generates: { Self → Vec3A → Self.Item × Self };

    fn generate(&mut self, point: Vec3A) -> Self::Item
        ensures { (result, self.new) ≡ generates self.old point };
}
