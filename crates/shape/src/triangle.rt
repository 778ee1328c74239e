// A triangle of a base shape.

// Corners a, b, c by the numbers of their points, and the edge numbers of the sides ab, bc, ca.
#[derive(Clone, Copy, PartialEq, Eq, Default, Debug)]
pub struct Triangle {
    pub a: u32,
    pub b: u32,
    pub c: u32,
    pub ab: usize,
    pub bc: usize,
    pub ca: usize,
}
