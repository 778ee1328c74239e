// The faces and the line strips of a whole mesh, and the promises proved of them.
#![tactic(auto)]

pub mod formulas;

ghost use Rattle.mesh.specs.Blank.{BlankStands};
ghost use Rattle.mesh.specs.Calls.{AcceptedFits};
ghost use Rattle.mesh.specs.Examples.{Examples};
ghost use Rattle.mesh.specs.Recorded.{AllAgree};
ghost use Rattle.mesh.specs.Faces.{FacesAreCounted, ReadingsStand, SidesOnce};
ghost use Rattle.mesh.specs.Making.{AcceptedMade, EveryMakingHasOneAnswer};
ghost use Rattle.mesh.specs.Numbering.{VerticesOnce};
ghost use Rattle.mesh.specs.Sinks.{SinksFilled};
ghost use Rattle.mesh.specs.Strips.{LinesAreCounted, NumbersAreBelow, StripsOnce};

// How many vertices there are at every reached count, and that each number below is given once.
pub fn vertices_stand()
    ensures { VerticesOnce }
{}

// An accepted base is made at every count up to 12.
pub fn making_stands()
    ensures { AcceptedMade }
{}

// A making has one answer, and leaves one mesh.
pub fn one_making_stands()
    ensures { EveryMakingHasOneAnswer }
{}

// The mesh of a refused making has no vertex, however often it is subdivided; no call writes anything of it.
pub fn blank_stands()
    ensures { BlankStands }
{}

// Which way a triangle reads an edge: forward exactly where it walks the edge as its first use does.
pub fn readings_stand()
    ensures { ReadingsStand }
{}

// Of every accepted base, at every reached count: each face side, as it is walked, occurs once in the whole face list,
// and its reverse exactly when it is not on the boundary.
pub fn sides_stand()
    ensures { SidesOnce }
{}

// The full line drawing shows each face side once, each closing side twice, and no other.
pub fn strips_stand()
    ensures { StripsOnce }
{}

// How many numbers the face calls write.
pub fn faces_stand()
    ensures { FacesAreCounted }
{}

// How many numbers and breaks the line calls write.
pub fn lines_stand()
    ensures { LinesAreCounted }
{}

// Every number of a face or a strip is a vertex's.
pub fn numbers_stand()
    ensures { NumbersAreBelow }
{}

// What an accepted call writes fits into its buffer, slice or sink, and no number is too large for a push.
pub fn calls_stand()
    ensures { AcceptedFits }
{}

// What a sink is after strips were written to it, and that none of it is refused where the sink could take the whole.
pub fn sinks_stand()
    ensures { SinksFilled }
{}

// The worked examples.
pub fn examples_stand()
    ensures { Examples }
{}

// Answers of the Rust crate, recorded: the definitions give the same.
pub fn recorded_stand()
    ensures { AllAgree }
{}
