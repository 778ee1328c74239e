// The faces of one ring.
ghost use Rattle.std.specs.Prelude.{ℕ, ◌+◌, ◌-◌, ◌*◌, ◌≤◌, length};
ghost use Rattle.pattern.specs.Ring.{ring_faces};
ghost use Rattle.rings.specs.Slices.{read};
ghost use Rattle.rings.specs.Views.{ring_of_view, Opens, Whole};
ghost use Rattle.faces.specs.Viewed.{own_faces};
ghost use Rattle.faces.specs.Writer.{HasRoom, Writes};

use crate::formulas::{ends, heels, pairs, tips};
use crate::writer::FaceWriter;
use rings::contents::Side;
use rings::ring_view::RingView;

impl<'a> FaceWriter<'a> {
    // A ring whose edges have `m` vertices each, three or more.
    fn write_long(&mut self, view: &RingView, m: usize)
        requires many { (3 ≤ m) × (m ≤ 12) }
        requires opens { Opens (m - 1) view.now }
        requires room { HasRoom (6 * m - 3) self.old }
        ensures { Writes (ring_faces m (ring_of_view view.now)) self.old self.new }
    {
        self.write(&tips(view, m - 1));
        self.write(&heels(view, m - 1));
        // By position, which is what the formula of the pairs takes.
        for i in 0..m - 2 {
            self.write(&pairs(view, i));
        }
        self.write(&ends(view, m - 2));
    }

    // The faces of a ring.
    pub(crate) fn write_ring(&mut self, view: &RingView)
        requires whole { Whole (length (read view.now.ab)) view.now }
        requires room { HasRoom (length (own_faces view.now)) self.old }
        ensures { Writes (own_faces view.now) self.old self.new }
    {
        match view.ab.len() {
            0 => self.write(&[(view.a, view.b, view.c)]),
            1 => {
                self.write(&tips(view, 0));
                self.write(&[(
                    view.edge(Side::Ab, 0),
                    view.edge(Side::Bc, 0),
                    view.edge(Side::Ca, 0),
                )]);
            }
            2 => {
                self.write(&tips(view, 1));
                self.write(&ends(view, 0));
                self.write(&heels(view, 1));
            }
            m => self.write_long(view, m),
        }
    }
}
