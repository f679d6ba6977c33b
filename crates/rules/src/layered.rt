// One book piled on another: what both allow is allowed, and the lower one names its breach first.
ghost use Rattle.std.specs.Prelude.{◌≡◌, ◌+◌, ◌<◌, min};
ghost use Rattle.rules.specs.Layers.{raised, first_named, moved};
ghost use Rattle.std.proofs.Common.{rules, arith, inl, inr};
ghost use Rattle.rules.specs.LayersLemmas.{named_none, named-both, moved-both, allowed_parts, allowed-both, moved_same, named_cases};

use crate::book::{Figures, RuleBook};
use crate::breach::Violation;
use duty::Duty;

// A book of its own over the book below it, or the rows of the two.
#[derive(Clone, Copy)]
pub struct Layered<L, B> {
    pub own: L,
    pub below: B,
}

impl<O: Figures, U: Figures> Figures for Layered<O, U> {
    ghost better = { λ a b. O.Figures.better a.own b.own × U.Figures.better a.below b.below };

    ghost reflexive = { Prim.search rules };

    ghost transitive = { Prim.search rules };

    fn dominates(&self, other: &Self) -> bool {
        self.own.dominates(&other.own) && self.below.dominates(&other.below)
    }
}

impl<L: RuleBook, B: RuleBook> RuleBook for Layered<L, B> {
    type Row = Layered<L::Row, B::Row>;

    const LOWEST: u8 = L::LOWEST;

    const HIGHEST: u8 = L::HIGHEST;

    ghost LOWEST = { L.RuleBook.LOWEST };

    ghost HIGHEST = { L.RuleBook.HIGHEST };

    ghost figures = { λ b. record { own = L.RuleBook.figures b.own; below = B.RuleBook.figures b.below } };

    ghost sound = { λ s. L.RuleBook.sound s.own × B.RuleBook.sound s.below };

    ghost names = { λ s q x. first_named (B.RuleBook.names s.below q x) (raised B.RuleBook.layers (L.RuleBook.names s.own q x)) };

    ghost after = { λ s q x. moved (first_named (B.RuleBook.names s.below q x) (L.RuleBook.names s.own q x)) (record { own = L.RuleBook.after s.own q x; below = B.RuleBook.after s.below q x }) s };

    ghost opened = { λ s. record { own = L.RuleBook.opened s.own; below = B.RuleBook.opened s.below } };

    ghost remade = { λ s. record { own = L.RuleBook.remade s.own; below = B.RuleBook.remade s.below } };

    ghost lawful = { λ s l. B.RuleBook.lawful s.below l × L.RuleBook.lawful s.own l };

    ghost layers = { min 255 (B.RuleBook.layers + L.RuleBook.layers) };

    ghost rests = { Prim.search rules };

    ghost keeps = { λ a b q x sa sb short better none.
        let n = named_none _ _ _ none in
        let up = L.RuleBook.keeps a.own b.own q x sa.0 sb.0 short better.0 n.1 in
        let low = B.RuleBook.keeps a.below b.below q x sa.1 sb.1 short better.1 n.0 in
        let ea = moved-both _ _ (record { own = L.RuleBook.after a.own q x; below = B.RuleBook.after a.below q x }) a low.0 up.0 in
        let eb = moved-both _ _ (record { own = L.RuleBook.after b.own q x; below = B.RuleBook.after b.below q x }) b n.0 n.1 in
        (named-both _ _ _ low.0 up.0, simp (ea, eb) (up.1, low.1)) };

    ghost relieves = { Prim.search rules };

    ghost judged = { λ s l ss short.
        let up = L.RuleBook.judged s.own l ss.0 short in
        let low = B.RuleBook.judged s.below l ss.1 short in (
          (λ h. allowed-both _ _ _ _ _ l _ 0 (low.0 h.0) (up.0 h.1)),
          (λ h. let p = allowed_parts _ _ _ _ _ l _ 0 h in (low.1 p.0, up.1 p.1)),
        ) };

    ghost stays = { Prim.search rules };

    ghost bounded = { Prim.search rules };

    ghost endures = { Prim.search rules };

    ghost fresh = { Prim.search rules };

    ghost valid = { Prim.search rules };

    ghost restores = { Prim.search rules };

    ghost fixed = { λ s q x l.
        let up = L.RuleBook.fixed s.own q x l in
        let low = B.RuleBook.fixed s.below q x l in
        moved_same
        (λ t. B.RuleBook.lawful t.below l × L.RuleBook.lawful t.own l)
        (first_named (B.RuleBook.names s.below q x) (L.RuleBook.names s.own q x))
        (record { own = L.RuleBook.after s.own q x; below = B.RuleBook.after s.below q x })
        s
        ((λ h. (low.0 h.0, up.0 h.1)), (λ h. (low.1 h.0, up.1 h.1))) };

    ghost renewed = { Prim.search rules };

    ghost based = { Prim.search rules };

    ghost placed = { λ s q x v e.
        elim (named_cases B.RuleBook.layers (B.RuleBook.names s.below q x) (L.RuleBook.names s.own q x) v e) [
          | inl low ↦ let p = B.RuleBook.placed s.below q x v low in omega (arith, p.0, p.1, B.RuleBook.based.1)
          | inr up ↦ let p = L.RuleBook.placed s.own q x up.0 up.1 in omega (arith, p.0, p.1, up.3)
        ] };

    ghost owns = { λ s q x v e short top.
        elim (named_cases B.RuleBook.layers (B.RuleBook.names s.below q x) (L.RuleBook.names s.own q x) v e) [
          | inl low ↦ let p = B.RuleBook.placed s.below q x v low in absurd (omega (arith, p.1, L.RuleBook.based.0, short, top))
          | inr up ↦
              let p = L.RuleBook.placed s.own q x up.0 up.1 in
              let few : L.RuleBook.layers < 255 = omega (arith, short) in
              let own : up.0.layer ≡ L.RuleBook.layers = omega (arith, p.1, up.3, top, short) in
              let h = L.RuleBook.owns s.own q x up.0 up.1 few own in
              (omega (arith, h.0, up.2), omega (arith, h.1, up.2))
        ] };

    fn depth() -> u8 {
        B::depth().saturating_add(L::depth())
    }

    fn opening(&self) -> Self {
        Layered {
            own: self.own.opening(),
            below: self.below.opening(),
        }
    }

    fn verdict(&self, quarter: usize, duty: Duty) -> Option<Violation> {
        self.below.verdict(quarter, duty).or_else(|| {
            self.own
                .verdict(quarter, duty)
                .map(|named| named.over(B::depth()))
        })
    }

    fn step(&mut self, quarter: usize, duty: Duty) {
        if self.verdict(quarter, duty).is_none() {
            self.own.step(quarter, duty);
            self.below.step(quarter, duty);
        }
    }

    // By the two books, which makes no row of the pile.
    fn dominates(&self, other: &Self) -> bool {
        self.below.dominates(&other.below) && self.own.dominates(&other.own)
    }

    fn row(&self) -> Self::Row {
        Layered {
            own: self.own.row(),
            below: self.below.row(),
        }
    }

    fn remake(row: &Self::Row) -> Self {
        Layered {
            own: L::remake(&row.own),
            below: B::remake(&row.below),
        }
    }
}
