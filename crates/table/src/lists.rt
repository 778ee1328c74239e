// The lists of a base, copied into a mesh's table.
ghost use Rattle.std.specs.Prelude.{◌≡◌, List, length, IfOk};
ghost use Rattle.table.specs.Lists.{AnswersFrom};

use point::Vec3A;
use shape::base_shape::BaseShape;
use shape::triangle::Triangle;
use std::alloc::{AllocError, Global};

// The list of so many elements that `at` answers from.
// A loop over positions, which is how a base answers: with `map_while` its goals stay open, and `collect` takes
// places one by one.
fn listed<T: Drop, F: Fn(usize) -> Option<T>>(
    alloc: Global,
    count: usize,
    at: F,
) -> Result<Vec<T>, AllocError>
    requires { F.IsAlwaysCallable at }
    ensures { (l : List T) → length l ≡ count → AnswersFrom (F.post at) l → IfOk result (λ v. v.items ≡ l) }
{
    let mut list = Vec::with_capacity(alloc, count)?;
    for i in 0..count {
        match at(i) {
            Some(x) => list.push(x)?,
            None => return Ok(list),
        }
    }
    Ok(list)
}

pub(crate) fn points_of<S: BaseShape>(alloc: Global, base: &S) -> Result<Vec<Vec3A>, AllocError>
    ensures { IfOk result (λ v. v.items ≡ S.BaseShape.points base.now) }
{
    listed(alloc, base.point_count(), |i| base.point(i))
}

pub(crate) fn triangles_of<S: BaseShape>(
    alloc: Global,
    base: &S,
) -> Result<Vec<Triangle>, AllocError>
    ensures { IfOk result (λ v. v.items ≡ S.BaseShape.triangles base.now) }
{
    listed(alloc, base.triangle_count(), |i| base.triangle(i))
}
