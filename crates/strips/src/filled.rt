// A lent table whose first places are filled. It is the caller's memory, and so no `Vec`.
ghost use Rattle.std.specs.Prelude.{◌≡◌, ◌-◌, ◌<◌, length};
ghost use Rattle.strips.specs.Filled.{Fills};

#[derive(Drop)]
pub struct Filled<'a, T> {
    pub places: &'a mut [T],
    pub used: usize,
}

impl<'a, T: Copy> Filled<'a, T> {
    // The table with no place filled.
    pub(crate) fn empty(places: &'a mut [T]) -> Filled<'a, T>
        ensures unused { result.used ≡ 0 }
        ensures lent { (result.places.now ≡ places.old) × (result.places.ghost_name ≡ places.entry.ghost_name) }
    {
        Filled { places, used: 0 }
    }

    // How many places are free.
    pub(crate) fn free(&self) -> usize
        ensures { result ≡ length self.now.places.now - self.now.used }
    {
        self.places.len().saturating_sub(self.used)
    }

    // Fills the next place.
    pub(crate) fn push(&mut self, value: T)
        requires { self.old.used < length self.old.places.now }
        ensures { Fills self.old value self.new }
    {
        let at = self.used;
        self.places[at] = value;
        self.used = at + 1;
    }
}
