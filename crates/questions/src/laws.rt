// What is proved of the verdict on a base, whatever the base.
ghost use Rattle.questions.specs.Laws.{EveryBaseHasOneVerdict, Examples};

// Every base has exactly one verdict.
pub fn one_verdict_stands()
    ensures { EveryBaseHasOneVerdict }
{}

// The triangle, the square and a tetrahedron are accepted; a triangle seen from both sides is
// refused with 8 at triangle 1, and a turned copy of a triangle with 7 at triangle 1.
pub fn examples_stand()
    ensures { Examples }
{}
