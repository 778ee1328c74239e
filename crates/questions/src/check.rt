// Whether a mesh can be made over a base, and if not, why and where.
ghost use Rattle.std.specs.Prelude.{◌≡◌, ◌≤◌, length};
ghost use Rattle.shape.specs.Verdict.{Verdict};

use crate::lists::{Lists, check_counts};
use arrayvec::ArrayVec;
use refusal::Refusal;
use shape::base_shape::BaseShape;
use shape::triangle::Triangle;

// The largest number of triangles that a base can have.
const MAX_TRIANGLES: usize = 32;

// Asks the questions 2 to 9 in their order, each of the whole base: the first no is the refusal.
pub fn check_shape<S: BaseShape>(base: &S) -> Result<(), Refusal>
    ensures { Verdict (length (S.BaseShape.points base.now)) (S.BaseShape.edgeCount base.now) (S.BaseShape.triangles base.now) result }
{
    let points = base.point_count();
    let edges = base.edges();
    let count = base.triangle_count();
    check_counts(points, edges, count)?;
    let triangles = triangles_of(base);
    let lists = Lists {
        points,
        edges,
        triangles: triangles.as_slice(),
    };
    lists.check()
}

// The triangles of a base that has few enough. By position, which is how a base answers.
fn triangles_of<S: BaseShape>(base: &S) -> ArrayVec<Triangle, MAX_TRIANGLES>
    requires { length (S.BaseShape.triangles base.now) ≤ 32 }
    ensures { result.items ≡ S.BaseShape.triangles base.now }
{
    let mut list = ArrayVec::new();
    for i in 0..base.triangle_count() {
        if let Some(t) = base.triangle(i) {
            list.push(t);
        }
    }
    list
}
