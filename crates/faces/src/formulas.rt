// The formulas of a ring's faces, each along one side and in its turns along the other two.
ghost use Rattle.std.specs.Prelude.{◌≡◌, ℕ, ◌+◌, ◌≤◌};
ghost use Rattle.pattern.specs.Ring.{tips, heels, pairs};
ghost use Rattle.rings.specs.Views.{ring_of_view, Opens};
ghost use Rattle.faces.specs.Formulas.{previous_side, ends_after};

use crate::writer::Face;
use rings::contents::{SIDES, Side};
use rings::ring_view::RingView;

// The side that ends where `side` starts.
fn previous(side: Side) -> Side
    ensures { result ≡ previous_side side }
{
    match side {
        Side::Ab => Side::Ca,
        Side::Bc => Side::Ab,
        Side::Ca => Side::Bc,
    }
}

// The faces at the corners, where `last` is the last position of an edge.
pub(crate) fn tips(view: &RingView, last: usize) -> [Face; 3]
    ensures { result ≡ tips last (ring_of_view view.now) }
{
    SIDES.map(|side| (
        side.pick(view.a, view.b, view.c),
        view.edge(side, 0),
        view.edge(previous(side), last),
    ))
}

// The faces behind the tips.
pub(crate) fn heels(view: &RingView, last: usize) -> [Face; 3]
    requires { Opens 1 view.now }
    ensures { result ≡ heels last (ring_of_view view.now) }
{
    SIDES.map(|side| (
        view.edge(side, 0),
        view.inner(side, 0),
        view.edge(previous(side), last),
    ))
}

// The last faces along the edges, between their positions `k` and `k + 1`. They are named one by
// one: of the array as a whole the search gives up at a limit.
pub(crate) fn ends(view: &RingView, k: usize) -> [Face; 3]
    requires { (k ≤ 12) × (Opens (k + 1) view.now) }
    ensures { result ≡ ends_after k (ring_of_view view.now) }
{
    let [p, q, s] = SIDES.map(|side| {
        (
            view.edge(side, k + 1),
            view.inner(side, k),
            view.edge(side, k),
        )
    });
    [p, q, s]
}

// The two faces of each edge between the positions `i` and `i + 1` of the edge and of the contents.
pub(crate) fn pairs(view: &RingView, i: usize) -> [Face; 6]
    requires { (i ≤ 12) × (Opens (i + 2) view.now) }
    ensures { result ≡ pairs i (ring_of_view view.now) }
{
    let [(p, q), (r, s), (t, u)] = SIDES.map(|side| {
        let next = view.edge(side, i + 1);
        let inner = view.inner(side, i);
        (
            (view.edge(side, i), next, inner),
            (next, view.inner(side, i + 1), inner),
        )
    });
    [p, q, r, s, t, u]
}
