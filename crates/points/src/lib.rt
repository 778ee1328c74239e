// The points of a mesh, and the promises proved of every run of calls.
#![tactic(auto)]

ghost use Rattle.points.specs.Calculating.{AlongStands};
ghost use Rattle.points.specs.Examples.{Examples};
ghost use Rattle.points.specs.Recorded.{AllAgree};
ghost use Rattle.points.specs.Filling.{FillingStands};
ghost use Rattle.points.specs.Places.{PointsPlaced};
ghost use Rattle.points.specs.Promises.{CountOfRuns, PlacedOfRuns, VerticesOfRuns, FacesOfRuns, StripsOfRuns, PointsOfRuns, Vec3AOfRuns};

// After calculating, each vertex has the point of its place, and what is no vertex is untouched.
pub fn points_placed<P, F>()
    ensures { PointsPlaced P F }
{}

// Interpolating along an edge is interpolating along the list of its vertices.
pub fn along_stands<P, F>()
    ensures { AlongStands P F }
{}

// Whatever the calls: every number below the total is one vertex, and the total is known from the base and the count.
pub fn vertices_of_runs<P, F>()
    ensures { VerticesOfRuns P F }
{}

// Whatever the calls: the count is the number of the making plus the accepted amounts.
pub fn count_of_runs<P, F>()
    ensures { CountOfRuns P F }
{}

// Whatever the calls: a settled mesh has at each vertex the point of its place.
pub fn placed_of_runs<P, F>()
    ensures { PlacedOfRuns P F }
{}

// Whatever the calls: in the whole face list each side occurs once, and its reverse exactly if it is not on the boundary.
pub fn faces_of_runs<P, F>()
    ensures { FacesOfRuns P F }
{}

// Whatever the calls: a full line call shows each face side once, each closing side twice, and no other.
pub fn strips_of_runs<P, F>()
    ensures { StripsOfRuns P F }
{}

// Equal bases, equal counts, whatever the calls: equal points, place by place of the whole face list.
pub fn points_of_runs<P, F>()
    ensures { PointsOfRuns P F }
{}

// The same of points of three f32 components.
pub fn vec3a_of_runs()
    ensures { Vec3AOfRuns }
{}

// Filling hands each vertex's point once, in rising order, to the generator, and puts the answer at its place.
pub fn filling_stands<P, D, S>()
    ensures { FillingStands P D S }
{}

// The worked examples.
pub fn examples_stand()
    ensures { Examples }
{}

// Answers of the Rust crate, recorded: the definitions give the same.
pub fn recorded_stand()
    ensures { AllAgree }
{}
