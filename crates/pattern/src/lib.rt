// The laws of one triangle's faces, strips and contents.
#![tactic(auto)]

ghost use Rattle.pattern.specs.Amounts.{AmountsStand};
ghost use Rattle.pattern.specs.Laws.{SpotsSound, StepsSound};

// At each count from 0 to 12, over the spots of one triangle: each directed side occurs at most once, its reverse
// occurs unless it is a side of the border, and the strips show each inner side once, a closing side twice, no other.
pub fn spots_stand()
    ensures { SpotsSound }
{}

// How many faces a triangle has at each count from 0 to 12, and how many numbers and breaks its strips take.
pub fn amounts_stand()
    ensures { AmountsStand }
{}

// One step of a triangle's contents takes them to the next count, and takes the next free numbers, each once.
pub fn steps_stand()
    ensures { StepsSound }
{}
