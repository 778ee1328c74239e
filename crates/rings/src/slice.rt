// What a triangle reads along one of its edges.
ghost use Rattle.std.specs.Prelude.{◌≡◌, ℕ, ◌<◌, length, slice_index};
ghost use Rattle.rings.specs.Slices.{read};

// An edge's own vertices, read from either end.
#[derive(Clone, Copy)]
pub enum Slice<'a> {
    Forward(&'a [u32]),
    Backward(&'a [u32]),
}

impl<'a> Slice<'a> {
    pub fn len(&self) -> usize
        ensures { result ≡ length (read self.now) }
    {
        match self {
            Slice::Forward(s) | Slice::Backward(s) => s.len(),
        }
    }

    // The vertex at position `k`, and 0 past the end; guards and no `nth`, which would walk there.
    pub fn at(&self, k: usize) -> u32
        ensures { result ≡ slice_index (read self.now) k }
    {
        match self {
            Slice::Forward(s) if k < s.len() => s[k],
            Slice::Backward(s) if k < s.len() => s[s.len() - 1 - k],
            _ => 0,
        }
    }
}
