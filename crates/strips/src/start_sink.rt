// A sink over two tables: one of numbers, and one of where strips start.
ghost use Rattle.std.specs.Prelude.{◌≡◌, ℕ, ◌≤◌};
ghost use Rattle.strips.specs.Starts.{StartsWithin, start_sink};
ghost use Rattle.strips.specs.Taking.{Empty};

use crate::filled::Filled;

// The numbers are those of all strips, one after another. At each break the table of starts takes
// how many numbers there are so far, which is where the next strip starts.
#[derive(Drop)]
pub struct StartSink<'a, 'b> {
    pub numbers: Filled<'a, u32>,
    pub starts: Filled<'b, usize>,
    ghost within: { StartsWithin starts.used starts.places.now numbers.used },
}

impl<'a, 'b> StartSink<'a, 'b> {
    // A sink with no strip closed, and nothing in the open one.
    pub fn new(numbers: &'a mut [u32], starts: &'b mut [usize]) -> StartSink<'a, 'b>
        ensures empty { Empty (start_sink result.numbers.used result.numbers.places.now result.starts.used result.starts.places.now) }
        ensures unused { (result.numbers.used ≡ 0) × (result.starts.used ≡ 0) }
        ensures numbers_lent { (result.numbers.places.now ≡ numbers.old) × (result.numbers.places.ghost_name ≡ numbers.entry.ghost_name) }
        ensures starts_lent { (result.starts.places.now ≡ starts.old) × (result.starts.places.ghost_name ≡ starts.entry.ghost_name) }
    {
        StartSink {
            numbers: Filled::empty(numbers),
            starts: Filled::empty(starts),
        }
    }

    // How many numbers all strips have.
    pub fn used(&self) -> usize
        ensures { result ≡ self.now.numbers.used }
    {
        self.numbers.used
    }

    // How many strips are closed.
    pub fn breaks(&self) -> usize
        ensures { result ≡ self.now.starts.used }
    {
        self.starts.used
    }
}
