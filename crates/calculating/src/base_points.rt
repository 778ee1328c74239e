// The base's own points.
ghost use Rattle.std.specs.Prelude.{◌≡◌, ℕ, ◌≤◌, length, Float};
ghost use Rattle.point.specs.declared.Vec3A.{Vec3A};
ghost use Rattle.points.specs.Calculating.{Meaning, run, point_writes};
ghost use Rattle.shape.specs.Listing.{share};
ghost use Rattle.calculating.specs.Rules.{no_point};

use point::Vec3A;

// Writes the base's points to the vertices 0, 1, 2 and so on.
#[tactic(auto, using(crate::proofs::Runs::base_points))]
pub fn put_points(list: &[Vec3A], points: &mut [Vec3A])
    requires { length list.now ≤ length points.old }
    ensures { (M : Meaning Vec3A Float) → points.new ≡ run share no_point M (point_writes 0 list.now) points.old }
{
    points[..list.len()].copy_from_slice(list);
}
