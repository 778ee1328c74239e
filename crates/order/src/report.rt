// What is answered of a base.
ghost use Rattle.std.specs.Prelude.{length};
ghost use Rattle.order.specs.Reports.{Reports};

use line::instruction::Kind;
use questions::check::check_shape;
use refusal::Refusal;
use shape::base_shape::BaseShape;

// What was read of a base, and whether a mesh can be made over it.
#[derive(Clone, Copy, PartialEq, Eq, Debug)]
pub struct Report {
    pub kind: Kind,
    pub points: usize,
    pub edges: usize,
    pub triangles: usize,
    pub verdict: Result<(), Refusal>,
}

impl Report {
    pub fn on<S: BaseShape>(kind: Kind, base: &S) -> Report
        ensures { Reports kind (length (S.BaseShape.points base.now)) (S.BaseShape.edgeCount base.now) (S.BaseShape.triangles base.now) result }
    {
        Report {
            kind,
            points: base.point_count(),
            edges: base.edges(),
            triangles: base.triangle_count(),
            verdict: check_shape(base),
        }
    }
}
