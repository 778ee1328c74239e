// Orders, line by line.
ghost use Rattle.std.specs.Prelude.{◌≡◌};
ghost use Rattle.line.specs.declared.expected.Expected.TheVariants.{Text};
ghost use Rattle.order.specs.declared.fault.Fault.TheVariants.{Unread};
ghost use Rattle.order.specs.Drafts.{empty_sheet, ended};
ghost use Rattle.order.specs.Reading.{ReadsLine, next_line, Reads, problem_at, expected_at};

use crate::draft::Draft;
use crate::fault::Fault;
use crate::report::Report;
use line::expected::Expected;
use line::read::read_line;
use std::alloc::Global;
use thiserror::Error;

// The lines read so far, and the order that they are part of. It has no model: contracts name
// both parts as they are.
#[derive(Drop)]
pub struct Reader {
    line: usize,
    draft: Draft,
}

// A fault, and the line at which it came.
#[derive(Clone, Copy, PartialEq, Eq, Debug, Error)]
#[error("line {line}: {fault}")]
pub struct Problem {
    pub line: usize,
    pub fault: Fault,
}

impl Reader {
    pub fn new(alloc: Global) -> Reader
        ensures lines { result.line ≡ 0 }
        ensures order { result.draft ≡ empty_sheet }
    {
        Reader {
            line: 0,
            draft: Draft::new(alloc),
        }
    }

    // Reads the next line. A line that ends an order gives the answer to it.
    pub fn read(&mut self, text: &str) -> Result<Option<Report>, Problem>
        ensures { Reads self.old text.now result self.new }
    {
        self.line = self.next_line();
        let line = self.line;
        follow(&mut self.draft, text).map_err(|fault| Problem { line, fault })
    }

    // The next line is no text.
    pub fn not_text(&self) -> Problem
        ensures { result ≡ problem_at (next_line self.now.line) (Unread Text) }
    {
        self.unread(Expected::Text)
    }

    // The input ends after the lines that were read.
    pub fn finish(&self) -> Result<(), Problem>
        ensures { result ≡ expected_at (next_line self.now.line) (ended self.now.draft.kind) }
    {
        self.draft
            .expect_end()
            .map_err(|expected| self.unread(expected))
    }

    // What was expected at the next line.
    fn unread(&self, expected: Expected) -> Problem
        ensures { result ≡ problem_at (next_line self.now.line) (Unread expected) }
    {
        Problem {
            line: self.next_line(),
            fault: Fault::Unread(expected),
        }
    }

    fn next_line(&self) -> usize
        ensures { result ≡ next_line self.now.line }
    {
        self.line.saturating_add(1)
    }
}

// What the line means is taken by the order.
fn follow(draft: &mut Draft, text: &str) -> Result<Option<Report>, Fault>
    ensures { ReadsLine draft.old text.now result draft.new }
{
    let Some(instruction) = read_line(text)? else {
        return Ok(None);
    };
    draft.take(instruction)
}
