// The contents of a triangle, as they stand in a plain table of rings.
ghost use Rattle.std.specs.Prelude.{◌≡◌, ◌*◌, ◌≤◌, length};
ghost use Rattle.pattern.specs.Ring.{pick};
ghost use Rattle.rings.specs.Held.{blank_ring};
ghost use Rattle.rings.specs.Sides.{on_sides, side_len, side_number, side_of};

use crate::row::Row;

// What lies inside a triangle's edges, by kind. `More` names a ring of the table and holds no `Box`, so
// that no step allocates.
#[derive(Clone, Copy)]
pub enum TriangleContents {
    None,
    One(u32),
    Three {
        a: u32,
        b: u32,
        c: u32,
    },
    Six {
        a: u32,
        b: u32,
        c: u32,
        ab: u32,
        bc: u32,
        ca: u32,
    },
    More(usize),
}

// A side of a triangle or of a ring.
#[derive(Clone, Copy)]
pub enum Side {
    Ab,
    Bc,
    Ca,
}

// The sides, in turn.
pub const SIDES: [Side; 3] = [Side::Ab, Side::Bc, Side::Ca];

impl Side {
    // The one of the three that goes with the side.
    pub fn pick<T: Copy>(self, ab: T, bc: T, ca: T) -> T
        ensures { result ≡ pick (side_number self) ab bc ca }
    {
        match self {
            Side::Ab => ab,
            Side::Bc => bc,
            Side::Ca => ca,
        }
    }

    // The corner where the side starts, and the one where it ends.
    pub fn ends(self, a: u32, b: u32, c: u32) -> (u32, u32)
        ensures { result ≡ (pick (side_number self) a b c, pick (side_number self) b c a) }
    {
        (self.pick(a, b, c), self.pick(b, c, a))
    }
}

// A ring: its corners, its three sides, as long as each other, one behind another, and what lies inside.
#[derive(Clone, Copy)]
pub struct Ring {
    pub a: u32,
    pub b: u32,
    pub c: u32,
    pub sides: Row<27>,
    pub inner: TriangleContents,
}

impl Ring {
    // A ring that nothing names yet.
    pub fn blank() -> Ring
        ensures { result ≡ blank_ring }
    {
        Ring {
            a: 0,
            b: 0,
            c: 0,
            sides: Row::new(),
            inner: TriangleContents::None,
        }
    }

    // How many vertices a side has, without the corners.
    pub fn side_len(&self) -> usize
        ensures is { result ≡ side_len self.now }
        ensures short { result ≤ 9 }
        ensures within { 3 * result ≤ length (on_sides self.now) }
    {
        self.sides.count() / 3
    }

    // The vertices of one side, without the corners.
    pub fn side(&self, side: Side) -> &[u32]
        ensures is { result.now ≡ side_of self.now side }
        ensures long { length result.now ≡ side_len self.now }
    {
        let len = self.side_len();
        let start = side.pick(0, len, 2 * len);
        &self.sides.as_slice()[start..start + len]
    }
}
