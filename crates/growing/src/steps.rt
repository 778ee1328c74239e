// Some steps of one triangle's contents, and of each triangle's in turn.
ghost use Rattle.std.specs.Prelude.{ℕ, ◌≤◌, length};
ghost use Rattle.growing.specs.Stepping.{Ready, Steps};
ghost use Rattle.growing.specs.SteppingAll.{ReadyAll, StepsAll};

use crate::step::step;
use rings::contents::{Ring, TriangleContents};

// As many steps as `count` of contents that own rings from number `at` on, where `next` is the next
// free vertex; the answer is the next free one after them.
fn steps(
    contents: &mut TriangleContents,
    rings: &mut [Ring],
    at: usize,
    count: usize,
    next: u32,
) -> u32
    requires { (d : ℕ) × (m : ℕ) × Ready rings.old at d m count contents.old next }
    ensures { Steps rings.old at count contents.old next rings.new contents.new result }
{
    let mut free = next;
    for _ in 0..count {
        free = step(contents, rings, at, free);
    }
    free
}

// As many steps as `count` of each triangle's contents in turn; those of triangle i own the three rings from
// number 3 * i on.
pub(crate) fn step_all(
    contents: &mut [TriangleContents],
    rings: &mut [Ring],
    count: usize,
    next: u32,
) -> u32
    requires ready { (m : ℕ) × ReadyAll rings.old m count contents.old }
    requires few { (length contents.old ≤ 32) × (next ≤ 4512) }
    ensures { StepsAll rings.old count contents.old next rings.new contents.new result }
{
    let mut free = next;
    for (i, t) in contents.iter_mut().enumerate() {
        free = steps(t, rings, 3 * i, count, free);
    }
    free
}
