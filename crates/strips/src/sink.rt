// What a sink of line strips is.
ghost use Rattle.std.specs.Prelude.{◌≡◌, List};
ghost use Rattle.std.specs.Borrow.{GName};
ghost use Rattle.mesh.specs.Sinks.{Sink as Strips};
ghost use Rattle.strips.specs.Taking.{number_answer, taken_or_full, Pushes, Breaks};

use refusal::Refusal;

// The number that no strip holds: a mark sink writes it for a break.
pub const MARK: u32 = u32::MAX;

// Refuses the mark.
pub(crate) fn check_number(number: u32) -> Result<(), Refusal>
    ensures { result ≡ number_answer number }
{
    if number == MARK {
        return Err(Refusal::NumberTooLarge {
            number: u64::from(number),
        });
    }
    Ok(())
}

// A sink means closed strips, an open one, and the pairs of numbers and breaks that it can take.
// A call that is refused leaves it as it was.
pub trait Sink {
    // the closed strips, the open one, the pairs that are taken, and that smaller pairs are taken too
    ghost meaning: { Self → Strips };

    // the names of the references that it holds, by which a lender finds its own again
    ghost held: { Self → List GName };

    // Whether that many numbers and breaks can be taken.
    fn can_take(&self, numbers: usize, breaks: usize) -> bool
        ensures { result ≡ (meaning self.now).takes numbers breaks };

    // Refuses numbers and breaks that cannot be taken.
    fn check_room(&self, numbers: usize, breaks: usize) -> Result<(), Refusal>
        ensures { result ≡ taken_or_full (meaning self.now) numbers breaks }
    {
        if self.can_take(numbers, breaks) {
            Ok(())
        } else {
            Err(Refusal::SinkFull { numbers, breaks })
        }
    }

    // Lengthens the open strip.
    fn push(&mut self, number: u32) -> Result<(), Refusal>
        ensures { Pushes meaning held number self.old result self.new };

    // A break: closes the open strip and opens an empty one.
    fn end_strip(&mut self) -> Result<(), Refusal>
        ensures { Breaks meaning held self.old result self.new };
}
