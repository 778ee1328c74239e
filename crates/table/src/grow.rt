// Subdividing the table of a mesh.
ghost use Rattle.std.specs.Prelude.{◌≡◌, ℕ, ◌+◌, ◌≤◌, Err};
ghost use Rattle.mesh.specs.Calls.{answered_or, too_often, unless_refused};
ghost use Rattle.mesh.specs.Numbering.{grown};
ghost use Rattle.refusal.specs.declared.Refusal.{Refusal};
ghost use Rattle.table.specs.Tables.{numbering, SameBase};

use crate::table::Table;
use growing::subdivide::subdivide_all;
use refusal::Refusal;

// The most subdivisions that a mesh has.
pub const MAX_SUBDIVISIONS: usize = 12;

impl Table {
    // As many subdivisions more.
    pub(crate) fn grow(&mut self, amount: usize)
        requires { self.old.n + amount ≤ 12 }
        ensures numbered { numbering self.new ≡ grown amount (numbering self.old) }
        ensures based { SameBase self.old self.new }
    {
        self.total = subdivide_all(
            &mut self.edges,
            &mut self.contents,
            &mut self.rings,
            self.n,
            amount,
            self.total,
        );
        self.n += amount;
    }

    // As many subdivisions more, unless that makes more than 12.
    pub fn subdivide(&mut self, amount: usize) -> Result<(), Refusal>
        ensures answers { result ≡ answered_or (too_often (numbering self.old) amount) tt }
        ensures numbered { numbering self.new ≡ unless_refused (too_often (numbering self.old) amount) (grown amount (numbering self.old)) (numbering self.old) }
        ensures based { SameBase self.old self.new }
        ensures refused { (e : Refusal) → result ≡ Err e → self.new ≡ self.old }
    {
        if amount > MAX_SUBDIVISIONS - self.n {
            return Err(Refusal::SubdividedTooOften {
                count: self.n,
                amount,
            });
        }
        self.grow(amount);
        Ok(())
    }
}
