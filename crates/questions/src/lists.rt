// The questions put to a base by its counts and its list of triangles.
ghost use Rattle.std.specs.Prelude.{◌≡◌};
ghost use Rattle.questions.specs.Answer.{counts_answer, triangles_answer, used_answer, list_answer};

use crate::question::Question;
use crate::used::{Part, first_unused};
use refusal::{Refusal, Unused};
use shape::triangle::Triangle;

// Are there 1 to 32 triangles, 3 to 96 points and 3 to 96 edges?
pub(crate) fn check_counts(points: usize, edges: usize, triangles: usize) -> Result<(), Refusal>
    ensures { result ≡ counts_answer points edges triangles }
{
    if triangles < 1 || triangles > 32 {
        return Err(Refusal::TriangleCount { triangles });
    }
    if points < 3 || points > 96 || edges < 3 || edges > 96 {
        return Err(Refusal::PointOrEdgeCount { points, edges });
    }
    Ok(())
}

// A base, as the questions 4 to 9 see it: how many points and edges it has, and its triangles.
#[derive(Clone, Copy)]
pub(crate) struct Lists<'a> {
    pub(crate) points: usize,
    pub(crate) edges: usize,
    pub(crate) triangles: &'a [Triangle],
}

impl<'a> Lists<'a> {
    // The questions 4 to 8, each put to all triangles before the next.
    fn check_triangles(&self) -> Result<(), Refusal>
        ensures { result ≡ triangles_answer self.now.points self.now.edges self.now.triangles.now }
    {
        let Lists {
            points,
            edges,
            triangles,
        } = *self;
        (Question::InRange { points, edges }).ask(triangles)?;
        Question::DifferentCorners.ask(triangles)?;
        Question::EdgesMatch.ask(triangles)?;
        Question::OneWayEach.ask(triangles)?;
        Question::DifferentSets.ask(triangles)
    }

    // Is every edge used, and every point a corner?
    fn check_used(&self) -> Result<(), Refusal>
        ensures { result ≡ used_answer self.now.points self.now.edges self.now.triangles.now }
    {
        let edge = first_unused(Part::Edge, self.edges, self.triangles).map(Unused::Edge);
        let point = || first_unused(Part::Point, self.points, self.triangles).map(Unused::Point);
        match edge.or_else(point) {
            Some(unused) => Err(Refusal::Unused { unused }),
            None => Ok(()),
        }
    }

    // The questions 4 to 9.
    pub(crate) fn check(&self) -> Result<(), Refusal>
        ensures { result ≡ list_answer self.now.points self.now.edges self.now.triangles.now }
    {
        self.check_triangles()?;
        self.check_used()
    }
}
