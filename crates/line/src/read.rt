// From a line to its instruction.
ghost use Rattle.std.specs.Prelude.{◌≡◌};
ghost use Rattle.line.specs.Words.{words};
ghost use Rattle.line.specs.Lines.{ReadsPoint, read_triangle, Means};

use crate::expected::Expected;
use crate::instruction::Instruction;
use crate::words::Words;
use point::Vec3A;
use shape::triangle::Triangle;

fn read_point(words: &mut Words) -> Option<Instruction>
    ensures { ReadsPoint words.old result }
{
    Some(Instruction::Point(Vec3A::new(words.read()?, words.read()?, words.read_last()?)))
}

fn read_triangle(words: &mut Words) -> Option<Instruction>
    ensures { result ≡ read_triangle words.old }
{
    Some(Instruction::Triangle(Triangle {
        a: words.read()?,
        b: words.read()?,
        c: words.read()?,
        ab: words.read()?,
        bc: words.read()?,
        ca: words.read_last()?,
    }))
}

// The instruction of a line, none where the line has no word.
pub fn read_line(line: &str) -> Result<Option<Instruction>, Expected>
    ensures { Means (words line.now) result }
{
    let mut words = Words::new(line);
    let Some(word) = words.next() else {
        return Ok(None);
    };
    let instruction = match word {
        "base" => words
            .read_last()
            .map(Instruction::Base)
            .ok_or(Expected::BaseLine)?,
        "edges" => words
            .read_last()
            .map(Instruction::Edges)
            .ok_or(Expected::EdgesLine)?,
        "point" => read_point(&mut words).ok_or(Expected::PointLine)?,
        "triangle" => read_triangle(&mut words).ok_or(Expected::TriangleLine)?,
        "check" => words
            .next()
            .is_none()
            .then_some(Instruction::Check)
            .ok_or(Expected::CheckLine)?,
        _ => return Err(Expected::Instruction),
    };
    Ok(Some(instruction))
}
