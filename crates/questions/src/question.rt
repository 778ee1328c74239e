// The questions that are asked triangle by triangle.
ghost use Rattle.std.specs.Prelude.{◌≡◌, [], ◌∷◌};
ghost use Rattle.std.specs.List.{list_all};
ghost use Rattle.questions.specs.Tests.{use_of, below, three, has_corner, covered, same_corners, agree, sides_agree, alone, pair, passes, first_no};
ghost use Rattle.questions.specs.Answer.{refusal_of, asked};
ghost use Rattle.shape.specs.Sides.{uses};

use crate::side::Side;
use refusal::Refusal;
use shape::triangle::Triangle;

// An enum and no closures: definitions and laws speak of a question as a value.
#[derive(Clone, Copy)]
pub(crate) enum Question {
    // every corner below the point count, every edge number below the edge count
    InRange { points: usize, edges: usize },
    // three different corners
    DifferentCorners,
    // each edge number joins one pair of corners, and each pair has one edge number
    EdgesMatch,
    // each edge is used at most once in each direction
    OneWayEach,
    // different sets of corners
    DifferentSets,
}

fn in_range(points: usize, edges: usize, t: &Triangle) -> bool
    ensures { result ≡ below points edges t.now }
{
    let corners = (t.a as usize) < points && (t.b as usize) < points && (t.c as usize) < points;
    corners && t.ab < edges && t.bc < edges && t.ca < edges
}

fn three_corners(t: &Triangle) -> bool
    ensures { result ≡ three t.now }
{
    t.a != t.b && t.b != t.c && t.c != t.a
}

fn has_corner(t: &Triangle, x: u32) -> bool
    ensures { result ≡ has_corner t.now x }
{
    x == t.a || x == t.b || x == t.c
}

fn is_covered(s: &Triangle, t: &Triangle) -> bool
    ensures { result ≡ covered s.now t.now }
{
    has_corner(t, s.a) && has_corner(t, s.b) && has_corner(t, s.c)
}

fn same_corners(s: &Triangle, t: &Triangle) -> bool
    ensures { result ≡ same_corners s.now t.now }
{
    is_covered(s, t) && is_covered(t, s)
}

impl Question {
    fn agree(self, u: Side, v: Side) -> bool
        ensures { result ≡ agree self (use_of u) (use_of v) }
    {
        match self {
            Question::EdgesMatch => u.matches(v),
            Question::OneWayEach => !u.same_way(v),
            _ => true,
        }
    }

    // The three sides one by one: a chain over them leaves its goal open.
    fn side_agrees(self, u: Side, t: &Triangle) -> bool
        ensures { result ≡ list_all (agree self (use_of u)) (uses (t.now ∷ [])) }
    {
        let [ab, bc, ca] = Side::all(t);
        self.agree(u, ab) && self.agree(u, bc) && self.agree(u, ca)
    }

    fn sides_agree(self, s: &Triangle, t: &Triangle) -> bool
        ensures { result ≡ sides_agree self s.now t.now }
    {
        let [ab, bc, ca] = Side::all(s);
        self.side_agrees(ab, t) && self.side_agrees(bc, t) && self.side_agrees(ca, t)
    }

    fn alone(self, t: &Triangle) -> bool
        ensures { result ≡ alone self t.now }
    {
        match self {
            Question::InRange { points, edges } => in_range(points, edges, t),
            Question::DifferentCorners => three_corners(t),
            Question::EdgesMatch => self.sides_agree(t, t),
            _ => true,
        }
    }

    fn pair(self, s: &Triangle, t: &Triangle) -> bool
        ensures { result ≡ pair self s.now t.now }
    {
        match self {
            Question::EdgesMatch | Question::OneWayEach => self.sides_agree(s, t),
            Question::DifferentSets => !same_corners(s, t),
            _ => true,
        }
    }

    fn agrees_with_each(self, earlier: &[Triangle], t: &Triangle) -> bool
        ensures { result ≡ list_all (λ s. pair self s t.now) earlier.now }
    {
        earlier.iter().all(|s| self.pair(s, t))
    }

    // Whether the answer stays yes when `t` follows the triangles `earlier`.
    fn passes(self, earlier: &[Triangle], t: &Triangle) -> bool
        ensures { result ≡ passes self earlier.now t.now }
    {
        self.alone(t) && self.agrees_with_each(earlier, t)
    }

    // The first triangle at which the answer is no.
    pub(crate) fn first_no(self, triangles: &[Triangle]) -> Option<usize>
        ensures { result ≡ first_no self triangles.now }
    {
        triangles
            .iter()
            .enumerate()
            .position(|(i, t)| !self.passes(&triangles[..i], t))
    }

    // What is answered where the triangle is the first at which the answer is no.
    fn refusal(self, triangle: usize) -> Refusal
        ensures { result ≡ refusal_of self triangle }
    {
        match self {
            Question::InRange { .. } => Refusal::OutOfRange { triangle },
            Question::DifferentCorners => Refusal::RepeatedCorner { triangle },
            Question::EdgesMatch => Refusal::EdgeMismatch { triangle },
            Question::OneWayEach => Refusal::EdgeDirection { triangle },
            Question::DifferentSets => Refusal::RepeatedTriangle { triangle },
        }
    }

    // Puts the question to the whole list.
    pub(crate) fn ask(self, triangles: &[Triangle]) -> Result<(), Refusal>
        ensures { result ≡ asked self triangles.now }
    {
        match self.first_no(triangles) {
            Some(triangle) => Err(self.refusal(triangle)),
            None => Ok(()),
        }
    }
}
