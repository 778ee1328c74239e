// Why a call was refused.
#![tactic(auto)]

ghost use Rattle.std.specs.Prelude.{◌≡◌};
ghost use Rattle.refusal.specs.Refusals.{refusal_number, refusal_triangle};

use thiserror::Error;

// One case for each question that can be answered no, with the values that tell where, and what it says
// to people: a sentence without its full stop. docs/RULES.md has the questions under the same numbers.
#[derive(Clone, Copy, PartialEq, Eq, Debug, Error)]
pub enum Refusal {
    // 1: more than 12 subdivisions
    #[error("a mesh has at most 12 subdivisions, and {count} were asked for")]
    TooManySubdivisions { count: usize },
    // 2: not 1 to 32 triangles
    #[error("a base has 1 to 32 triangles, and this one has {triangles}")]
    TriangleCount { triangles: usize },
    // 3: not 3 to 96 points and 3 to 96 edges
    #[error("a base has 3 to 96 points and 3 to 96 edges, and this one has {points} and {edges}")]
    PointOrEdgeCount { points: usize, edges: usize },
    // 4: a corner or an edge number is not below its count
    #[error("triangle {triangle} has a corner that is no point of the base, or an edge number that is no edge of it")]
    OutOfRange { triangle: usize },
    // 5: a triangle has a corner twice
    #[error("triangle {triangle} has the same corner twice")]
    RepeatedCorner { triangle: usize },
    // 6: an edge number joins two pairs of corners, or a pair has two edge numbers
    #[error("triangle {triangle} has an edge number that joins other corners elsewhere, or corners that have another edge number elsewhere")]
    EdgeMismatch { triangle: usize },
    // 7: an edge is used twice in one direction
    #[error("triangle {triangle} runs along an edge in a direction in which the edge is used already")]
    EdgeDirection { triangle: usize },
    // 8: two triangles have the same corners
    #[error("triangle {triangle} has the same three corners as an earlier triangle")]
    RepeatedTriangle { triangle: usize },
    // 9: an edge that no triangle uses, or a point that is no corner
    #[error("{unused}")]
    Unused { unused: Unused },
    // 10: more than 4,294,967,295 vertices
    #[error("a mesh has at most 4,294,967,295 vertices, and this one would have {vertices}")]
    TooManyVertices { vertices: usize },
    // 11: more than 12 subdivisions after a further subdivision
    #[error("a mesh has at most 12 subdivisions, and {amount} were to be added to {count}")]
    SubdividedTooOften { count: usize, amount: usize },
    // 12: no such triangle
    #[error("there is no triangle {triangle}: the mesh has {triangles}")]
    NoTriangle { triangle: usize, triangles: usize },
    // 13: a buffer too short for the numbers
    #[error("{needed} numbers are to be written, and the length of the buffer is {length}")]
    BufferTooShort { needed: usize, length: usize },
    // 14: a number that is not below 4,294,967,295
    #[error("the number {number} is not below 4,294,967,295")]
    NumberTooLarge { number: u64 },
    // 15: a sink that cannot take the numbers and breaks
    #[error("the sink cannot take what is to be written: numbers {numbers}, breaks {breaks}")]
    SinkFull { numbers: usize, breaks: usize },
    // 16: more than 3,360 vertices listed, or one that is not among the points
    #[error("the list of vertices has more than 3,360 numbers (its length is {listed}), or one that is not below {points}")]
    InvalidListing { listed: usize, points: usize },
    // 17: a data slice shorter than the vertices
    #[error("the mesh has {vertices} vertices, and the length of the data is {length}")]
    DataTooShort { vertices: usize, length: usize },
}

// The first edge that no triangle uses, or, where all are used, the first point that is no corner.
#[derive(Clone, Copy, PartialEq, Eq, Debug, Error)]
pub enum Unused {
    #[error("no triangle uses edge {0}")]
    Edge(usize),
    #[error("point {0} is no corner of a triangle")]
    Point(usize),
}

impl Refusal {
    // The number of the question, by which people and docs/RULES.md name it.
    pub fn number(&self) -> u8
        ensures { result ≡ refusal_number self.now }
    {
        match self {
            Refusal::TooManySubdivisions { .. } => 1,
            Refusal::TriangleCount { .. } => 2,
            Refusal::PointOrEdgeCount { .. } => 3,
            Refusal::OutOfRange { .. } => 4,
            Refusal::RepeatedCorner { .. } => 5,
            Refusal::EdgeMismatch { .. } => 6,
            Refusal::EdgeDirection { .. } => 7,
            Refusal::RepeatedTriangle { .. } => 8,
            Refusal::Unused { .. } => 9,
            Refusal::TooManyVertices { .. } => 10,
            Refusal::SubdividedTooOften { .. } => 11,
            Refusal::NoTriangle { .. } => 12,
            Refusal::BufferTooShort { .. } => 13,
            Refusal::NumberTooLarge { .. } => 14,
            Refusal::SinkFull { .. } => 15,
            Refusal::InvalidListing { .. } => 16,
            Refusal::DataTooShort { .. } => 17,
        }
    }

    // Of the questions 4 to 8 the smallest triangle at which they fail, of all others 0, as docs/RULES.md has it.
    pub fn triangle(&self) -> usize
        ensures { result ≡ refusal_triangle self.now }
    {
        match self {
            Refusal::OutOfRange { triangle }
            | Refusal::RepeatedCorner { triangle }
            | Refusal::EdgeMismatch { triangle }
            | Refusal::EdgeDirection { triangle }
            | Refusal::RepeatedTriangle { triangle } => *triangle,
            _ => 0,
        }
    }
}
