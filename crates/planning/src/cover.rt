// Which label makes another needless.
ghost use Rattle.planning.specs.Plain.{Plainly};
ghost use Rattle.std.proofs.Common.{arith, ◌∙◌, rules};

use crate::Label;
use frontier::Covers;
use rules::book::Figures;

impl<R: Figures> Covers for Label<R> {
    ghost covers = { Plainly R.Figures.better };

    ghost reflexive = { Prim.search rules };

    ghost transitive = { λ a b c p q. (p.0 ∙ q.0, p.1 ∙ q.1, omega (arith, p.2, q.2), R.Figures.transitive _ _ _ p.3 q.3) };

    fn covers(&self, other: &Self) -> bool {
        self.stop == other.stop
            && self.service == other.service
            && self.drive <= other.drive
            && self.row.dominates(&other.row)
    }
}
