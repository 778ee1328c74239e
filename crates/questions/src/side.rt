// A side of a triangle: an edge, walked from one corner to the next.
ghost use Rattle.std.specs.Prelude.{◌≡◌, [], ◌∷◌, map};
ghost use Rattle.shape.specs.Sides.{uses};
ghost use Rattle.questions.specs.Tests.{use_of, same_ends, same_way, matches};

use shape::triangle::Triangle;

#[derive(Clone, Copy, PartialEq)]
pub(crate) struct Side {
    pub(crate) edge: usize,
    pub(crate) start: u32,
    pub(crate) stop: u32,
}

impl Side {
    // The sides ab, bc, ca.
    pub(crate) fn all(t: &Triangle) -> [Side; 3]
        ensures { map use_of result ≡ uses (t.now ∷ []) }
    {
        let side = |edge, start, stop| Side { edge, start, stop };
        [
            side(t.ab, t.a, t.b),
            side(t.bc, t.b, t.c),
            side(t.ca, t.c, t.a),
        ]
    }

    // Whether the two join one pair of corners.
    fn same_ends(self, other: Side) -> bool
        ensures { result ≡ same_ends (use_of self) (use_of other) }
    {
        self.start == other.start && self.stop == other.stop
            || self.start == other.stop && self.stop == other.start
    }

    // Whether the two have one edge number exactly if they join one pair of corners.
    pub(crate) fn matches(self, other: Side) -> bool
        ensures { result ≡ matches (use_of self) (use_of other) }
    {
        (self.edge == other.edge) == self.same_ends(other)
    }

    // Whether the two walk one edge in one direction.
    pub(crate) fn same_way(self, other: Side) -> bool
        ensures { result ≡ same_way (use_of self) (use_of other) }
    {
        self == other
    }
}
