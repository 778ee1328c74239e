// Which way each triangle reads its edges.
ghost use Rattle.std.specs.Prelude.{◌≡◌, IfOk};
ghost use Rattle.table.specs.Forwards.{Tells, forwards};

use shape::triangle::Triangle;
use std::alloc::{AllocError, Global};
use std::collections::BTreeSet;

// Whether a triangle reads its edges forward: those that it is the first to use. A bool each:
// an enum would be no plainer, and the definitions of a mesh have a bool.
#[derive(Clone, Copy)]
pub struct Forward {
    pub ab: bool,
    pub bc: bool,
    pub ca: bool,
}

// The readings of the next triangle, where `seen` has the edges used before.
fn forward_of(seen: &mut BTreeSet<usize>, t: &Triangle) -> Result<Forward, AllocError>
    ensures { IfOk result (λ f. Tells seen.old t.now f seen.new) }
{
    Ok(Forward {
        ab: seen.insert(t.ab)?,
        bc: seen.insert(t.bc)?,
        ca: seen.insert(t.ca)?,
    })
}

// The readings of all triangles, in their order.
pub(crate) fn forwards_of(alloc: Global, triangles: &[Triangle]) -> Result<Vec<Forward>, AllocError>
    ensures { IfOk result (λ v. v.items ≡ forwards triangles.now) }
{
    let mut seen = BTreeSet::new(alloc);
    let mut list = Vec::with_capacity(alloc, triangles.len())?;
    for t in triangles {
        list.push(forward_of(&mut seen, t)?)?;
    }
    Ok(list)
}
