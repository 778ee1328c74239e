// Making the table of a mesh.
ghost use Rattle.std.specs.Prelude.{◌≡◌, ◌≤◌, [], replicate, IfOk, vec_items, vec_len};
ghost use Rattle.mesh.specs.Numbering.{blank};
ghost use Rattle.shape.specs.Questions.{Accepted};
ghost use Rattle.table.specs.Made.{Answers, MadeOver};
ghost use Rattle.table.specs.Tables.{numbering, triangles};

use crate::forward::forwards_of;
use crate::grow::MAX_SUBDIVISIONS;
use crate::lists::{points_of, triangles_of};
use crate::table::Table;
use growing::edge::Edge;
use growing::subdivide::subdivide_all;
use point::Vec3A;
use questions::check::check_shape;
use refusal::Refusal;
use rings::contents::{Ring, TriangleContents};
use shape::base_shape::BaseShape;
use shape::triangle::Triangle;
use std::alloc::{AllocError, Global};

// So many of what `make` makes.
fn repeated<T: Drop, F: Fn() -> T>(
    alloc: Global,
    count: usize,
    make: F,
) -> Result<Vec<T>, AllocError>
    requires { F.IsAlwaysCallable make }
    ensures { (x : T) → ((r : T) → F.post make r → r ≡ x) → IfOk result (λ v. v.items ≡ replicate count x) }
{
    let mut list = Vec::with_capacity(alloc, count)?;
    for _ in 0..count {
        list.push(make())?;
    }
    Ok(list)
}

impl Table {
    // The table of the blank mesh, which has no base.
    #[tactic(auto, using(crate::proofs::SoundAsMade::blank_sound))]
    pub fn blank(alloc: Global) -> Table
        ensures points { vec_items result.points ≡ [] }
        ensures triangles { triangles result ≡ [] }
        ensures numbered { numbering result ≡ blank }
    {
        Table {
            points: Vec::new(alloc),
            triangles: Vec::new(alloc),
            forward: Vec::new(alloc),
            edges: Vec::new(alloc),
            contents: Vec::new(alloc),
            rings: Vec::new(alloc),
            n: 0,
            total: 0,
        }
    }

    // The table over an accepted base, made at `n`.
    pub(crate) fn made(
        alloc: Global,
        points: Vec<Vec3A>,
        triangles: Vec<Triangle>,
        edges: usize,
        n: usize,
    ) -> Result<Table, AllocError>
        requires accepted { Accepted (vec_len points) edges triangles.items }
        requires few { n ≤ 12 }
        ensures { IfOk result (MadeOver points.items triangles.items edges n) }
    {
        let count = triangles.len();
        let forward = forwards_of(alloc, &triangles)?;
        let mut edges = repeated(alloc, edges, || Edge::empty())?;
        let mut contents = repeated(alloc, count, || TriangleContents::None)?;
        let mut rings = repeated(alloc, 3 * count, || Ring::blank())?;
        let first = points.len() as u32;
        let total = subdivide_all(&mut edges, &mut contents, &mut rings, 0, n, first);
        Ok(Table {
            points,
            triangles,
            forward,
            edges,
            contents,
            rings,
            n,
            total,
        })
    }

    // Makes the table of a mesh over a base, with `n` subdivisions, or says why none can be made; the
    // count is asked before the base. Nothing but this allocates for a mesh.
    pub fn make<S: BaseShape>(
        alloc: Global,
        base: &S,
        n: usize,
    ) -> Result<Result<Table, Refusal>, AllocError>
        ensures { IfOk result (Answers (S.BaseShape.points base.now) (S.BaseShape.triangles base.now) (S.BaseShape.edgeCount base.now) n) }
    {
        if n > MAX_SUBDIVISIONS {
            return Ok(Err(Refusal::TooManySubdivisions { count: n }));
        }
        if let Err(refusal) = check_shape(base) {
            return Ok(Err(refusal));
        }
        let points = points_of(alloc, base)?;
        let triangles = triangles_of(alloc, base)?;
        let table = Table::made(alloc, points, triangles, base.edges(), n)?;
        Ok(Ok(table))
    }
}
