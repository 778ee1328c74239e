// What a sink with starts takes.
ghost use Rattle.std.specs.Prelude.{◌≡◌, List, [], ◌∷◌};
ghost use Rattle.strips.specs.Starts.{start_sink};

use crate::sink::{Sink, check_number};
use crate::start_sink::StartSink;
use refusal::Refusal;

impl<'a, 'b> Sink for StartSink<'a, 'b> {
    ghost meaning = { λ s. start_sink s.numbers.used s.numbers.places.now s.starts.used s.starts.places.now };

    ghost held = { λ s. s.numbers.places.ghost_name ∷ s.starts.places.ghost_name ∷ [] };

    fn can_take(&self, numbers: usize, breaks: usize) -> bool {
        numbers <= self.numbers.free() && breaks <= self.starts.free()
    }

    fn push(&mut self, number: u32) -> Result<(), Refusal> {
        check_number(number)?;
        self.check_room(1, 0)?;
        self.numbers.push(number);
        Ok(())
    }

    fn end_strip(&mut self) -> Result<(), Refusal> {
        self.check_room(0, 1)?;
        let start = self.numbers.used;
        self.starts.push(start);
        Ok(())
    }
}
