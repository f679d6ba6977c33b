// What is said of a log that does not keep the rules.
ghost use Rattle.std.specs.Prelude.{◌≡◌, ◌+◌, min, Some};
ghost use Rattle.rules.specs.Refusals.{spelled_breach};

use std::fmt;

// A broken rule and the layer that has it, the bottom book being layer 1. A rule is a number and no enum, since a carrier's book adds its own.
#[derive(Clone, Copy, PartialEq, Eq, Debug)]
pub struct Violation {
    pub rule: u8,
    pub layer: u8,
}

impl Violation {
    // A rule of a single book, which is layer 1.
    pub fn own(rule: u8) -> Violation
        ensures { result ≡ record { rule = rule; layer = 1 } }
    {
        Violation { rule, layer: 1 }
    }

    // The breach that it is at a quarter.
    pub fn at(self, quarter: usize) -> Breach
        ensures { result ≡ record { quarter = quarter; rule = self.rule; layer = self.layer } }
    {
        let Violation { rule, layer } = self;
        Breach {
            quarter,
            rule,
            layer,
        }
    }

    // The same, named over so many layers: its own comes after those. Layer numbers are held at 255.
    pub fn over(self, depth: u8) -> Violation
        ensures { result ≡ record { rule = self.rule; layer = min 255 (depth + self.layer) } }
    {
        Violation {
            rule: self.rule,
            layer: depth.saturating_add(self.layer),
        }
    }
}

// The first quarter that breaks a rule, with the rule and its layer.
#[derive(Clone, Copy, PartialEq, Eq, Debug)]
pub struct Breach {
    pub quarter: usize,
    pub rule: u8,
    pub layer: u8,
}

impl fmt::Display for Breach {
    ghost output = { λ b. Some (spelled_breach b) };

    fn fmt<W: fmt::Write>(&self, f: &mut fmt::Formatter<W>) -> fmt::Result {
        let Breach {
            quarter,
            rule,
            layer,
        } = *self;
        write!(f, "{quarter},{rule},{layer}")
    }
}
