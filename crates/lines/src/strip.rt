// The numbers of one strip, gathered before they are written.
use arrayvec::ArrayVec;

// No strip of a triangle or an edge has more than 101 numbers.
pub(crate) type Strip = ArrayVec<u32, 128>;
