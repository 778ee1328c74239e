// Which edges and points of a base its triangles use.
ghost use Rattle.std.specs.Prelude.{◌≡◌};
ghost use Rattle.questions.specs.Tests.{touches, is_used, first_lack};

use shape::triangle::Triangle;

// What a triangle may use. An enum and no two closures, since definitions and proofs name the two.
#[derive(Clone, Copy)]
pub(crate) enum Part {
    Edge,
    Point,
}

// Whether `t` has edge number `i`, or point `i` as a corner.
fn touch(part: Part, i: usize, t: &Triangle) -> bool
    ensures { result ≡ touches part i t.now }
{
    match part {
        Part::Edge => i == t.ab || i == t.bc || i == t.ca,
        Part::Point => i == t.a as usize || i == t.b as usize || i == t.c as usize,
    }
}

fn is_used(part: Part, i: usize, triangles: &[Triangle]) -> bool
    ensures { result ≡ is_used part triangles.now i }
{
    triangles.iter().any(|t| touch(part, i, t))
}

// The first of `count` edges or points that no triangle uses.
pub(crate) fn first_unused(part: Part, count: usize, triangles: &[Triangle]) -> Option<usize>
    ensures { result ≡ first_lack (is_used part triangles.now) count }
{
    (0..count).find(|i| !is_used(part, *i, triangles))
}
