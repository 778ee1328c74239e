// Positions of a list.
ghost use Rattle.shape.specs.Lists.{At};

// What stands at position `i`, and none beyond the list.
pub fn element<T: Copy>(list: &[T], i: usize) -> Option<T>
    ensures { At list.now i result }
{
    list.get(i).copied()
}
