// An edge of a mesh: its vertices, and how they become more.
ghost use Rattle.std.specs.Prelude.{◌≡◌, ℕ, ◌+◌, ◌*◌, ◌<◌, ◌≤◌, ◌++◌, map, length};
ghost use Rattle.mesh.specs.Numbering.{lengthened};
ghost use Rattle.pattern.specs.Step.{range};
ghost use Rattle.growing.specs.Edges.{edge_in, edge_vertices, empty_edge, len_at, OfLength};

use crate::vertices::push_range;
use rings::row::Row;

// The vertices between the corners of an edge.
#[derive(Clone, Copy)]
pub struct Edge {
    pub points: Row<12>,
}

impl Edge {
    // An edge that has no vertex yet.
    pub fn empty() -> Edge
        ensures { result ≡ empty_edge }
    {
        Edge { points: Row::new() }
    }

    // The vertices of the edge.
    pub fn vertices(&self) -> &[u32]
        ensures are { result.now ≡ edge_vertices self.now }
        ensures short { length result.now ≤ 12 }
    {
        self.points.as_slice()
    }

    // Takes `amount` vertices more, from `next` on.
    fn lengthen(&mut self, amount: usize, next: u32)
        requires { (length (edge_vertices self.old) + amount ≤ 12) × (next + 12 ≤ 4294967295) }
        ensures { edge_vertices self.new ≡ edge_vertices self.old ++ range next amount }
    {
        push_range(&mut self.points, amount as u32, next);
    }
}

// Each edge in turn takes `amount` vertices more, from `next` on; the answer is the next free vertex.
pub(crate) fn lengthen_all(edges: &mut [Edge], amount: usize, next: u32) -> u32
    requires room { (i : ℕ) → i < length edges.old → len_at edges.old i + amount ≤ 12 }
    requires small { amount ≤ 12 }
    requires few { (length edges.old ≤ 96) × (next ≤ 3360) }
    ensures vertices { map edge_vertices edges.new ≡ lengthened next amount (map edge_vertices edges.old) }
    ensures long { (i : ℕ) → i < length edges.new → OfLength (len_at edges.old i + amount) (edge_in edges.new i) }
    ensures next { result ≡ next + amount * length edges.old }
{
    let mut free = next;
    for e in edges.iter_mut() {
        e.lengthen(amount, free);
        free += amount as u32;
    }
    free
}
