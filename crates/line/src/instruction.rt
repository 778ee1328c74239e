// What a line of an order says.
use crate::expected::Expected;
use point::Vec3A;
use shape::triangle::Triangle;
use std::fmt;
use std::str::FromStr;

#[derive(Clone, Copy)]
pub enum Instruction {
    Base(Kind),
    Edges(usize),
    Point(Vec3A),
    Triangle(Triangle),
    Check,
}

// The kinds of base.
#[derive(Clone, Copy, Debug, PartialEq, Eq)]
pub enum Kind {
    Triangle,
    Square,
    List,
}

impl FromStr for Kind {
    ghost use Rattle.std.specs.Prelude.{◌≡◌};
    ghost use Rattle.std.specs.Option.{ok_or};
    ghost use Rattle.line.specs.declared.expected.Expected.TheVariants.{BaseLine};
    ghost use Rattle.line.specs.Lines.{kind_of};

    type Err = Expected;

    ghost from_str_gives = { λ w r. r ≡ ok_or (kind_of w) BaseLine };

    fn from_str(s: &str) -> Result<Kind, Expected> {
        match s {
            "triangle" => Ok(Kind::Triangle),
            "square" => Ok(Kind::Square),
            "list" => Ok(Kind::List),
            _ => Err(Expected::BaseLine),
        }
    }
}

impl fmt::Display for Kind {
    ghost use Rattle.std.specs.Prelude.{Some};
    ghost use Rattle.line.specs.Lines.{kind_name};

    ghost output = { λ kind. Some (kind_name kind) };

    fn fmt<W: fmt::Write>(&self, f: &mut fmt::Formatter<W>) -> fmt::Result {
        f.write_str(match self {
            Kind::Triangle => "triangle",
            Kind::Square => "square",
            Kind::List => "list",
        })
    }
}
