// What a sink with marks takes.
ghost use Rattle.std.specs.Prelude.{◌≡◌, List, [], ◌∷◌};
ghost use Rattle.strips.specs.Marks.{mark_sink};

use crate::mark_sink::MarkSink;
use crate::sink::{MARK, Sink, check_number};
use refusal::Refusal;

impl<'a> Sink for MarkSink<'a> {
    ghost meaning = { λ s. mark_sink s.strips.used s.strips.places.now };

    ghost held = { λ s. s.strips.places.ghost_name ∷ [] };

    fn can_take(&self, numbers: usize, breaks: usize) -> bool {
        let free = self.strips.free();
        numbers <= free && breaks <= free - numbers
    }

    fn push(&mut self, number: u32) -> Result<(), Refusal> {
        check_number(number)?;
        self.check_room(1, 0)?;
        self.strips.push(number);
        Ok(())
    }

    fn end_strip(&mut self) -> Result<(), Refusal> {
        self.check_room(0, 1)?;
        self.strips.push(MARK);
        Ok(())
    }
}
