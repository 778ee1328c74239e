// One step of a triangle's contents.
ghost use Rattle.std.specs.Prelude.{◌≡◌, ℕ, ◌+◌, ◌≤◌};
ghost use Rattle.growing.specs.Stepping.{Ready, Steps};

use crate::ring_growth::{lengthen_ring, new_ring};
use rings::contents::{Ring, TriangleContents};

// Six vertices, the new ones between the corners numbered from `next` on.
fn six(a: u32, b: u32, c: u32, next: u32) -> TriangleContents
    requires { next + 2 ≤ 4294967295 }
    ensures { result ≡ TriangleContents.Six a b c next (next + 1) (next + 2) }
{
    TriangleContents::Six {
        a,
        b,
        c,
        ab: next,
        bc: next + 1,
        ca: next + 2,
    }
}

// One step of a ring: its inner contents step, and its sides become longer.
#[cycle(step_step_ring)]
fn step_ring(rings: &mut [Ring], i: usize, next: u32) -> u32
    requires { (d : ℕ) × (m : ℕ) × Ready rings.old i d m 1 (TriangleContents.More i) next }
    ensures { Steps rings.old i 1 (TriangleContents.More i) next rings.new (TriangleContents.More i) result }
{
    let mut inner = rings[i].inner;
    let after = step(&mut inner, rings, i + 1, next + 3);
    let ring = &mut rings[i];
    lengthen_ring(ring, next);
    ring.inner = inner;
    after
}

// Changes the contents in place by their kind, where `next` is the next free vertex; the answer is the
// next free one after that. The contents own rings from number `at` on, and the inner contents of a ring
// own those after it.
// No struct holds the parameters: each of them but the table is another one ring further in.
#[cycle(step_step_ring)]
pub(crate) fn step(contents: &mut TriangleContents, rings: &mut [Ring], at: usize, next: u32) -> u32
    requires { (d : ℕ) × (m : ℕ) × Ready rings.old at d m 1 contents.old next }
    ensures { Steps rings.old at 1 contents.old next rings.new contents.new result }
{
    match *contents {
        TriangleContents::None => {
            *contents = TriangleContents::One(next);
            next + 1
        }
        TriangleContents::One(a) => {
            let (b, c) = (next, next + 1);
            *contents = TriangleContents::Three { a, b, c };
            next + 2
        }
        TriangleContents::Three { a, b, c } => {
            *contents = six(a, b, c, next);
            next + 3
        }
        TriangleContents::Six {
            a,
            b,
            c,
            ab,
            bc,
            ca,
        } => {
            rings[at] = new_ring(a, b, c, ab, bc, ca, next);
            *contents = TriangleContents::More(at);
            next + 4
        }
        TriangleContents::More(i) => step_ring(rings, i, next),
    }
}
