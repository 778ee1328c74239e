// Writing a strip to any sink.
ghost use Rattle.std.specs.Prelude.{◌≡◌};
ghost use Rattle.strips.specs.Writing.{first_too_large, WritesStrip};

use crate::sink::{MARK, Sink};
use refusal::Refusal;

// The first number that, with the offset, is not below the mark.
fn first_too_large(numbers: &[u32], offset: u32) -> Option<u64>
    ensures { result ≡ first_too_large offset numbers.now }
{
    numbers
        .iter()
        .map(|number| u64::from(*number) + u64::from(offset))
        .find(|sum| *sum >= u64::from(MARK))
}

// Writes the numbers, each plus the offset, and a break. All is asked before the first write.
pub fn write_strip<K: Sink>(sink: &mut K, numbers: &[u32], offset: u32) -> Result<(), Refusal>
    ensures { WritesStrip K.Sink.meaning K.Sink.held numbers.now offset sink.old result sink.new }
{
    if let Some(number) = first_too_large(numbers, offset) {
        return Err(Refusal::NumberTooLarge { number });
    }
    sink.check_room(numbers.len(), 1)?;
    for number in numbers {
        sink.push(*number + offset)?;
    }
    sink.end_strip()
}
