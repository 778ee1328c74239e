// Orders from the first line to the answer or the problem, as a person sees them.
use order::reader::Reader;
use refusal::{Refusal, Unused};
use std::alloc::Global;
use std::fmt::Write;
use std::test::Fail;

// The answers to the orders in the text, and the problem that ends it.
fn answers(alloc: Global, text: &str) -> Result<String, Fail> {
    let mut out = String::new(alloc);
    let mut reader = Reader::new(alloc);
    for line in text.lines() {
        match reader.read(line) {
            Ok(None) => {}
            Ok(Some(report)) => writeln!(out, "{report}")?,
            Err(problem) => {
                write!(out, "{problem}")?;
                return Ok(out);
            }
        }
    }
    if let Err(problem) = reader.finish() {
        write!(out, "{problem}")?;
    }
    Ok(out)
}

const ACCEPTED: &str = "accepted: a mesh can be made over this base\n";

// orders, and what is answered
const CASES: [(&str, &str); 22] = [
    ("", ""),
    ("# nothing\n\n \t\r\n", ""),
    (
        "base hexagon",
        "line 1: expected base triangle, base square or base list",
    ),
    (
        "base triangle now",
        "line 1: expected base triangle, base square or base list",
    ),
    (
        "\nshow",
        "line 2: expected base, edges, point, triangle or check",
    ),
    (
        "Base triangle",
        "line 1: expected base, edges, point, triangle or check",
    ),
    (
        "check",
        "line 1: expected base first, since no order is begun",
    ),
    (
        "point 0 0 0",
        "line 1: expected base first, since no order is begun",
    ),
    (
        "base square\npoint 0 0 0",
        "line 2: expected check, since only a list base takes edges, points and triangles",
    ),
    (
        "base square\nbase square",
        "line 2: expected check first, since an order is begun",
    ),
    (
        "base list\nedges 3\nedges 3",
        "line 3: expected no second edges line in one order",
    ),
    (
        "base list\ncheck",
        "line 2: expected edges before check, since a list base needs them",
    ),
    (
        "base list\nedges -1",
        "line 2: expected edges E, a whole number below 18446744073709551616",
    ),
    (
        "base list\nedges 18446744073709551616",
        "line 2: expected edges E, a whole number below 18446744073709551616",
    ),
    (
        "base list\npoint 1 2",
        "line 2: expected point X Y Z, three decimal numbers that an f32 can hold",
    ),
    (
        "base list\npoint 1 2 nan",
        "line 2: expected point X Y Z, three decimal numbers that an f32 can hold",
    ),
    (
        "base list\npoint 1 -inf 2",
        "line 2: expected point X Y Z, three decimal numbers that an f32 can hold",
    ),
    (
        "base list\npoint 1 2 3.5e38",
        "line 2: expected point X Y Z, three decimal numbers that an f32 can hold",
    ),
    (
        "base list\ntriangle 0 1 4294967296 0 1 2",
        "line 2: expected triangle a b c ab bc ca, six whole numbers, of which a b c are below 4294967296",
    ),
    (
        "base triangle\ncheck 1",
        "line 2: expected check and nothing after it",
    ),
    (
        "base triangle",
        "line 2: expected check before the input ends, since an order is begun",
    ),
    (
        "base list\nedges 3#x\ncheck",
        "base list: 0 points, 3 edges, 0 triangles\nrefused with 2: a base has 1 to 32 triangles, and this one has 0\n",
    ),
];

#[test]
fn problems_are_told_with_their_line(rt: HostRuntime) -> Result<(), Fail> {
    for (order, answer) in &CASES {
        assert_eq!(rt; answers(rt.alloc(), order)?.as_str(), *answer);
    }
    Ok(())
}

const TWO: &str =
    "base triangle # one\n check\nbase list\nedges +3\npoint 1e0 -0 .5\npoint 0 0 0\npoint 2. 1 3E-2\ntriangle 0 1 2 0 1 2\ncheck\nbase list\nshow";

#[test]
fn orders_follow_one_another(rt: HostRuntime) -> Result<(), Fail> {
    let mut want = String::from_str(rt.alloc(), "base triangle\n")?;
    want.push_str(ACCEPTED)?;
    want.push_str("base list: 3 points, 3 edges, 1 triangle\n")?;
    want.push_str(ACCEPTED)?;
    want.push_str("line 11: expected base, edges, point, triangle or check")?;
    assert_eq!(rt; answers(rt.alloc(), TWO)?.as_str(), want.as_str());
    Ok(())
}

// each refusal, and its sentence
const SENTENCES: [(Refusal, &str); 18] = [
    (
        Refusal::TooManySubdivisions { count: 13 },
        "a mesh has at most 12 subdivisions, and 13 were asked for",
    ),
    (
        Refusal::TriangleCount { triangles: 33 },
        "a base has 1 to 32 triangles, and this one has 33",
    ),
    (
        Refusal::PointOrEdgeCount {
            points: 97,
            edges: 3,
        },
        "a base has 3 to 96 points and 3 to 96 edges, and this one has 97 and 3",
    ),
    (
        Refusal::OutOfRange { triangle: 4 },
        "triangle 4 has a corner that is no point of the base, or an edge number that is no edge of it",
    ),
    (
        Refusal::RepeatedCorner { triangle: 5 },
        "triangle 5 has the same corner twice",
    ),
    (
        Refusal::EdgeMismatch { triangle: 6 },
        "triangle 6 has an edge number that joins other corners elsewhere, or corners that have another edge number elsewhere",
    ),
    (
        Refusal::EdgeDirection { triangle: 7 },
        "triangle 7 runs along an edge in a direction in which the edge is used already",
    ),
    (
        Refusal::RepeatedTriangle { triangle: 8 },
        "triangle 8 has the same three corners as an earlier triangle",
    ),
    (
        Refusal::Unused {
            unused: Unused::Edge(2),
        },
        "no triangle uses edge 2",
    ),
    (
        Refusal::Unused {
            unused: Unused::Point(3),
        },
        "point 3 is no corner of a triangle",
    ),
    (
        Refusal::TooManyVertices {
            vertices: 4_294_967_296,
        },
        "a mesh has at most 4,294,967,295 vertices, and this one would have 4294967296",
    ),
    (
        Refusal::SubdividedTooOften {
            count: 10,
            amount: 3,
        },
        "a mesh has at most 12 subdivisions, and 3 were to be added to 10",
    ),
    (
        Refusal::NoTriangle {
            triangle: 2,
            triangles: 2,
        },
        "there is no triangle 2: the mesh has 2",
    ),
    (
        Refusal::BufferTooShort {
            needed: 12,
            length: 11,
        },
        "12 numbers are to be written, and the length of the buffer is 11",
    ),
    (
        Refusal::NumberTooLarge {
            number: 4_294_967_295,
        },
        "the number 4294967295 is not below 4,294,967,295",
    ),
    (
        Refusal::SinkFull {
            numbers: 4,
            breaks: 1,
        },
        "the sink cannot take what is to be written: numbers 4, breaks 1",
    ),
    (
        Refusal::InvalidListing {
            listed: 2,
            points: 6,
        },
        "the list of vertices has more than 3,360 numbers (its length is 2), or one that is not below 6",
    ),
    (
        Refusal::DataTooShort {
            vertices: 10,
            length: 9,
        },
        "the mesh has 10 vertices, and the length of the data is 9",
    ),
];

#[test]
fn each_refusal_has_its_sentence(rt: HostRuntime) -> Result<(), Fail> {
    for (refusal, sentence) in &SENTENCES {
        assert_eq!(rt; format!(in rt.alloc(); "{refusal}")?.as_str(), *sentence);
    }
    Ok(())
}
