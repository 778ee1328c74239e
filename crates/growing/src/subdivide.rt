// Subdividing the tables of a mesh.
ghost use Rattle.std.specs.Prelude.{◌≡◌, ◌+◌, ◌≤◌, length};
ghost use Rattle.mesh.specs.Numbering.{grown, made, steps_for};
ghost use Rattle.growing.specs.Standing.{Bare, numbering, Stands, WithinLimits};

use crate::edge::{Edge, lengthen_all};
use crate::steps::step_all;
use rings::contents::{Ring, TriangleContents};

// How often contents step where `n` subdivisions become `amount` more: the first one gives them nothing.
fn steps_for(n: usize, amount: usize) -> usize
    ensures { result ≡ steps_for n amount }
{
    if n == 0 {
        amount.saturating_sub(1)
    } else {
        amount
    }
}

// Subdivides a mesh of `n` subdivisions by `amount`, where `total` is the next free vertex: each edge takes
// as many vertices more, then each triangle's contents step. The answer is the new total. From bare tables,
// at n = 0 and with the count of the points as total, this makes the mesh.
// No struct holds the lists: the caller keeps them in three `Vec`s, and would make one for this call alone.
pub fn subdivide_all(
    edges: &mut [Edge],
    contents: &mut [TriangleContents],
    rings: &mut [Ring],
    n: usize,
    amount: usize,
    total: u32,
) -> u32
    requires stands { Stands n edges.old contents.old rings.old }
    requires count { n + amount ≤ 12 }
    requires limits { WithinLimits (length edges.old) (length contents.old) total }
    ensures numbered { numbering (n + amount) result edges.new contents.new rings.new ≡ grown amount (numbering n total edges.old contents.old rings.old) }
    ensures made { n ≡ 0 → Bare edges.old contents.old rings.old → numbering (n + amount) result edges.new contents.new rings.new ≡ made total (length edges.old) (length contents.old) amount }
    ensures stands { Stands (n + amount) edges.new contents.new rings.new }
{
    let next = lengthen_all(edges, amount, total);
    step_all(contents, rings, steps_for(n, amount), next)
}
