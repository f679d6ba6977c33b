// The rule book: a state machine over duty statuses, with its meaning and the laws that it keeps.
ghost use Rattle.std.specs.Prelude.{◌≡◌, ℕ, ◌<◌, ◌≤◌, min, List, length, Some, None, Decides, Option};
ghost use Rattle.duty.specs.declared.Duty.{Duty};
ghost use Rattle.duty.specs.declared.Duty.TheVariants.{Rest, Drive};
ghost use Rattle.rules.specs.declared.breach.Violation.{Violation};
ghost use Rattle.rules.specs.Walk.{Allowed};

use crate::breach::Violation;
use duty::Duty;

// The plain figures of a state, and which of two is at least as well off. It has the shape of the frontier's `Covers`, and
// stays a trait of its own: it is the rules' word, and what is said of books knows no frontier.
pub trait Figures: Copy + Drop {
    ghost better: { Self → Self → Type 0 };

    fn dominates(&self, other: &Self) -> bool
        ensures { Decides result (better self.now other.now) };

    ghost reflexive: { (a : Self) → better a a };

    ghost transitive: { (a b c : Self) → better a b → better b c → better a c };
}

pub trait RuleBook: Copy + Drop {
    type Row: Figures;

    // The lowest and the highest number of the rules that the book itself owns.
    const LOWEST: u8;

    const HIGHEST: u8;

    // The same two, for clauses.
    ghost LOWEST: { ℕ };

    ghost HIGHEST: { ℕ };

    // The state as plain figures, and which figures a state can have.
    ghost figures: { Self → Self.Row };

    ghost sound: { Self.Row → Type 0 };

    // What the book says of a status at a quarter: nothing where it is allowed.
    ghost names: { Self.Row → ℕ → Duty → Option Violation };

    ghost after: { Self.Row → ℕ → Duty → Self.Row };

    ghost opened: { Self.Row → Self.Row };

    ghost remade: { Self.Row → Self.Row };

    // The meaning: which logs keep the rules.
    ghost lawful: { Self.Row → List Duty → Type 0 };

    ghost layers: { ℕ };

    // The number of layers, held at 255.
    fn depth() -> u8
        ensures { result ≡ layers };

    // The state before quarter 0, under the same figures.
    fn opening(&self) -> Self
        ensures { figures result ≡ opened (figures self.now) };

    // The rule that the status would break at the quarter, or nothing where it is allowed. A quarter and a status are two arguments here and
    // in `step` by the rules of the project.
    fn verdict(&self, quarter: usize, duty: Duty) -> Option<Violation>
        ensures { result ≡ names (figures self.now) (min quarter 2687) duty };

    // One quarter on; a status that is not allowed changes nothing.
    fn step(&mut self, quarter: usize, duty: Duty)
        ensures { figures self.new ≡ after (figures self.old) (min quarter 2687) duty };

    // Whether this state is at least as well off as the other.
    fn dominates(&self, other: &Self) -> bool
        ensures { Decides result (Self.Row.Figures.better (figures self.now) (figures other.now)) }
    {
        self.row().dominates(&other.row())
    }

    fn row(&self) -> Self::Row
        ensures { result ≡ figures self.now };

    // The state that has this row; some state where none has it.
    fn remake(row: &Self::Row) -> Self
        ensures { figures result ≡ remade row.now };

    ghost rests: { (s : Self.Row) (q : ℕ) → sound s → q < 2688 → names s q Rest ≡ None };

    ghost keeps: { (a b : Self.Row) (q : ℕ) (x : Duty) → sound a → sound b → q < 2688 → Self.Row.Figures.better a b → names b q x ≡ None → (names a q x ≡ None) × Self.Row.Figures.better (after a q x) (after b q x) };

    ghost relieves: { (s : Self.Row) (q : ℕ) → sound s → q < 2688 → names s q Drive ≡ None → Self.Row.Figures.better (after s q Rest) (after s q Drive) };

    ghost judged: { (s : Self.Row) (l : List Duty) → sound s → length l ≤ 2688 → (lawful s l → Allowed names after (opened s) 0 l) × (Allowed names after (opened s) 0 l → lawful s l) };

    ghost stays: { (s : Self.Row) (q : ℕ) (x : Duty) (v : Violation) → names s q x ≡ Some v → after s q x ≡ s };

    ghost bounded: { (b : Self) → sound (figures b) };

    ghost endures: { (s : Self.Row) (q : ℕ) (x : Duty) → sound s → sound (after s q x) };

    ghost fresh: { (s : Self.Row) → sound s → sound (opened s) };

    ghost valid: { (s : Self.Row) → sound (remade s) };

    ghost restores: { (s : Self.Row) → sound s → remade s ≡ s };

    ghost fixed: { (s : Self.Row) (q : ℕ) (x : Duty) (l : List Duty) → (lawful s l → lawful (after s q x) l) × (lawful (after s q x) l → lawful s l) };

    ghost renewed: { (s : Self.Row) (l : List Duty) → (lawful s l → lawful (opened s) l) × (lawful (opened s) l → lawful s l) };

    ghost based: { (1 ≤ layers) × (layers ≤ 255) };

    // A breach is named in one of the book's layers, and in its own, the topmost, by a rule of its own.
    ghost placed: { (s : Self.Row) (q : ℕ) (x : Duty) (v : Violation) → names s q x ≡ Some v → (1 ≤ v.layer) × (v.layer ≤ layers) };

    ghost owns: { (s : Self.Row) (q : ℕ) (x : Duty) (v : Violation) → names s q x ≡ Some v → layers < 255 → v.layer ≡ layers → (LOWEST ≤ v.rule) × (v.rule ≤ HIGHEST) };
}
