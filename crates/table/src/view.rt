// A triangle of the table, viewed with its edges as it reads them.
ghost use Rattle.std.specs.Prelude.{◌≡◌, ◌<◌, vec_len};
ghost use Rattle.growing.specs.Edges.{edge_in, edge_vertices};
ghost use Rattle.mesh.specs.Numbering.{edge_of};
ghost use Rattle.rings.specs.Slices.{Reads};
ghost use Rattle.rings.specs.Views.{ShowsPatch};
ghost use Rattle.table.specs.Tables.{numbering, patch_at};

use crate::table::Table;
use rings::ring_view::RingView;
use rings::slice::Slice;

// The most rings that the contents of a triangle have one inside another.
const DEPTH: usize = 3;

impl Table {
    // The vertices of an edge, read forward or backward: a bool, as `Forward` has it.
    fn edge_slice(&self, edge: usize, forward: bool) -> Slice
        requires { edge < vec_len self.now.edges }
        ensures { Reads (edge_vertices (edge_in self.now.edges.items edge)) forward result }
    {
        let vertices = self.edges[edge].vertices();
        if forward {
            Slice::Forward(vertices)
        } else {
            Slice::Backward(vertices)
        }
    }

    // Triangle `i`.
    pub fn view(&self, i: usize) -> RingView
        requires { i < vec_len self.now.triangles }
        ensures { ShowsPatch self.now.n (edge_of (numbering self.now)) (patch_at self.now i) result }
    {
        let t = self.triangles[i];
        let f = self.forward[i];
        RingView {
            a: t.a,
            b: t.b,
            c: t.c,
            ab: self.edge_slice(t.ab, f.ab),
            bc: self.edge_slice(t.bc, f.bc),
            ca: self.edge_slice(t.ca, f.ca),
            inner: self.contents[i],
            rings: &self.rings,
            depth: DEPTH,
        }
    }
}
