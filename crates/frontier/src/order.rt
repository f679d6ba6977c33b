// What covers what: a preorder, with a way to ask it.
ghost use Rattle.std.specs.Prelude.{Decides};

pub trait Covers: Copy + Drop {
    // The first makes the second needless.
    ghost covers: { Self → Self → Type 0 };

    fn covers(&self, other: &Self) -> bool
        ensures { Decides result (covers self.now other.now) };

    ghost reflexive: { (x : Self) → covers x x };

    ghost transitive: { (x y z : Self) → covers x y → covers y z → covers x z };
}
