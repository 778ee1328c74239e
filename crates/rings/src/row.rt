// Vertices in a row, at most `CAP`, which lie in the value itself.
ghost use Rattle.std.specs.Prelude.{◌≡◌, ◌<◌, ◌≤◌, ◌∷◌, [], ◌++◌, length};
ghost use Rattle.rings.specs.Rows.{no_vertices, row_vertices, with_vertex};

// The first `len` of `places` hold the vertices; all of them do where `len` is more. A row is `Copy`, as the
// kit's `ArrayVec` is not, and so are the rings and edges that hold one.
#[derive(Clone, Copy)]
pub struct Row<const CAP: usize> {
    pub places: [u32; CAP],
    pub len: usize,
}

impl<const CAP: usize> Row<CAP> {
    // A row with no vertex yet.
    pub fn new() -> Row<CAP>
        ensures { result ≡ no_vertices CAP }
    {
        Row {
            places: [0; CAP],
            len: 0,
        }
    }

    // How many vertices there are.
    pub fn count(&self) -> usize
        ensures is { result ≡ length (row_vertices self.now) }
        ensures fits { result ≤ CAP }
    {
        self.len.min(CAP)
    }

    // The vertices.
    pub fn as_slice(&self) -> &[u32]
        ensures is { result.now ≡ row_vertices self.now }
        ensures fits { length result.now ≤ CAP }
    {
        &self.places[..self.count()]
    }

    // One vertex more, behind the others.
    pub fn push(&mut self, vertex: u32)
        requires { length (row_vertices self.old) < CAP }
        ensures row { self.new ≡ with_vertex self.old vertex }
        ensures items { row_vertices self.new ≡ row_vertices self.old ++ (vertex ∷ []) }
    {
        self.places[self.len] = vertex;
        self.len += 1;
    }
}
