// What was expected where a line cannot be read, in words for people.
use thiserror::Error;

#[derive(Clone, Copy, PartialEq, Eq, Debug, Error)]
pub enum Expected {
    // what a line is made of
    #[error("expected text in UTF-8")]
    Text,
    // the forms of a line
    #[error("expected base, edges, point, triangle or check")]
    Instruction,
    #[error("expected base triangle, base square or base list")]
    BaseLine,
    #[error("expected edges E, a whole number below 18446744073709551616")]
    EdgesLine,
    #[error("expected point X Y Z, three decimal numbers that an f32 can hold")]
    PointLine,
    #[error("expected triangle a b c ab bc ca, six whole numbers, of which a b c are below 4294967296")]
    TriangleLine,
    #[error("expected check and nothing after it")]
    CheckLine,
    // a line that does not fit where it stands
    #[error("expected base first, since no order is begun")]
    BaseFirst,
    #[error("expected check first, since an order is begun")]
    CheckFirst,
    #[error("expected check before the input ends, since an order is begun")]
    CheckBeforeEnd,
    #[error("expected check, since only a list base takes edges, points and triangles")]
    ListBase,
    #[error("expected no second edges line in one order")]
    OneEdges,
    #[error("expected edges before check, since a list base needs them")]
    EdgesFirst,
}
