// A report in words.
use crate::report::Report;
use line::instruction::Kind;
use std::fmt;

impl fmt::Display for Report {
    fn fmt<W: fmt::Write>(&self, f: &mut fmt::Formatter<W>) -> fmt::Result {
        write!(f, "base {}", self.kind)?;
        if self.kind == Kind::List {
            let points = Counted(self.points, "point");
            let edges = Counted(self.edges, "edge");
            let triangles = Counted(self.triangles, "triangle");
            write!(f, ": {points}, {edges}, {triangles}")?;
        }
        match self.verdict {
            Ok(()) => f.write_str("\naccepted: a mesh can be made over this base"),
            Err(refusal) => write!(f, "\nrefused with {}: {refusal}", refusal.number()),
        }
    }
}

// How many there are of what the word names; no derive tells one from many.
#[derive(Clone, Copy)]
struct Counted(usize, &'static str);

impl fmt::Display for Counted {
    fn fmt<W: fmt::Write>(&self, f: &mut fmt::Formatter<W>) -> fmt::Result {
        let Counted(count, name) = *self;
        let ending = if count == 1 { "" } else { "s" };
        write!(f, "{count} {name}{ending}")
    }
}
