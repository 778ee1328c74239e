// A sink over one table, in which a mark stands for a break.
ghost use Rattle.std.specs.Prelude.{◌≡◌};
ghost use Rattle.strips.specs.Marks.{mark_sink};
ghost use Rattle.strips.specs.Taking.{Empty};

use crate::filled::Filled;

// The filled places hold the strips, each closed one with a mark behind it.
#[derive(Drop)]
pub struct MarkSink<'a> {
    pub strips: Filled<'a, u32>,
}

impl<'a> MarkSink<'a> {
    // A sink with no strip closed, and nothing in the open one.
    pub fn new(places: &'a mut [u32]) -> MarkSink<'a>
        ensures empty { Empty (mark_sink result.strips.used result.strips.places.now) }
        ensures unused { result.strips.used ≡ 0 }
        ensures lent { (result.strips.places.now ≡ places.old) × (result.strips.places.ghost_name ≡ places.entry.ghost_name) }
    {
        MarkSink {
            strips: Filled::empty(places),
        }
    }

    // How many places hold numbers and marks.
    pub fn used(&self) -> usize
        ensures { result ≡ self.now.strips.used }
    {
        self.strips.used
    }
}
