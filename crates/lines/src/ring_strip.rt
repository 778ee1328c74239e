// The strip of one ring.
ghost use Rattle.std.specs.Prelude.{◌≡◌, ◌+◌, ◌-◌, ◌*◌, ◌≤◌, [], ◌∷◌};
ghost use Rattle.arrayvec.specs.ArrayVec.{array_vec_len, Extends};
ghost use Rattle.pattern.specs.Ring.{ring_strip, up, zigzag};
ghost use Rattle.rings.specs.Views.{edge_at, inner_at, ring_of_view, Opens};
ghost use Rattle.lines.specs.ViewStrips.{own_strip, WholeView};

use crate::strip::Strip;
use rings::contents::{SIDES, Side};
use rings::ring_view::RingView;

// Positions 0 to n - 1 of one side of the contents.
fn run(strip: &mut Strip, view: &RingView, side: Side, n: usize)
    requires room { array_vec_len strip.old + n ≤ 128 }
    requires opens { Opens n view.now }
    ensures items { Extends strip.old (up 0 n (λ i. inner_at side (ring_of_view view.now) i ∷ [])) strip.new }
    ensures len { array_vec_len strip.new ≡ array_vec_len strip.old + n }
{
    // By position, since the contents are no slice.
    for i in 0..n {
        strip.push(view.inner(side, i));
    }
}

// Down one edge from its vertex `last`, to and fro between it and the contents.
fn zigzag(strip: &mut Strip, view: &RingView, side: Side, last: usize)
    requires room { array_vec_len strip.old + (2 * last + 1) ≤ 128 }
    requires opens { Opens last view.now }
    ensures items { Extends strip.old (zigzag last (edge_at side (ring_of_view view.now)) (inner_at side (ring_of_view view.now))) strip.new }
    ensures len { array_vec_len strip.new ≡ array_vec_len strip.old + (2 * last + 1) }
{
    // By position, since neither the edge nor the contents are one slice.
    for i in (0..last).rev() {
        strip.push(view.edge(side, i + 1));
        strip.push(view.inner(side, i));
    }
    strip.push(view.edge(side, 0));
}

// The strips of rings with one vertex an edge, with two, and with three or more.
fn strip_of_one(view: &RingView) -> [u32; 4]
    ensures { result ≡ ring_strip 1 (ring_of_view view.now) }
{
    [Side::Ab, Side::Bc, Side::Ca, Side::Ab].map(|side| view.edge(side, 0))
}

fn strip_of_two(view: &RingView) -> [u32; 10]
    requires { Opens 1 view.now }
    ensures { result ≡ ring_strip 2 (ring_of_view view.now) }
{
    let x = view.inner(Side::Ab, 0);
    let [ab0, bc0, ca0] = SIDES.map(|side| view.edge(side, 0));
    let [ab1, bc1, ca1] = SIDES.map(|side| view.edge(side, 1));
    [x, ab1, bc0, x, bc1, ca0, x, ca1, ab0, x]
}

fn strip_of_more(strip: &mut Strip, view: &RingView, m: usize)
    requires empty { array_vec_len strip.old ≡ 0 }
    requires many { (3 ≤ m) × (m ≤ 12) }
    requires opens { Opens (m - 1) view.now }
    ensures { Extends strip.old (ring_strip m (ring_of_view view.now)) strip.new }
{
    for side in SIDES {
        run(strip, view, side, m - 2);
    }
    strip.push(view.inner(Side::Ab, 0));
    strip.push(view.edge(Side::Ab, 0));
    for side in [Side::Ca, Side::Bc, Side::Ab] {
        zigzag(strip, view, side, m - 1);
    }
}

// The numbers of a ring's strip.
pub(crate) fn ring_strip(view: &RingView) -> Strip
    requires { WholeView view.now }
    ensures { result.items ≡ own_strip view.now }
{
    let mut strip = Strip::new();
    match view.ab.len() {
        0 => {}
        1 => strip.try_extend_from_slice(&strip_of_one(view)).unwrap(),
        2 => strip.try_extend_from_slice(&strip_of_two(view)).unwrap(),
        m => strip_of_more(&mut strip, view, m),
    }
    strip
}
