// Framed texts: of each its length in bytes as a number and a line end, then its bytes, then one more line end.
ghost use Rattle.std.specs.Prelude.{◌≡◌, ℕ, List, MatchOption, length};
ghost use Rattle.std.specs.Iterator.{at_most};
ghost use Rattle.framed_texts.specs.Frames.{Framed};

use fields::cuts::cut_at;
use fields::numbers::read_number;

// The framed text that the stream begins with and what stands after it, or nothing where it begins with none.
pub fn cut_text(stream: &[u8]) -> Option<(&[u8], &[u8])>
    ensures { MatchOption result ((text rest : List ℕ) → Framed stream.now text rest → ⊥) (λ parts. Framed stream.now parts.0.now parts.1.now) }
{
    let (digits, after) = cut_at(stream, b'\n')?;
    let length = usize::from(read_number(digits)?);
    let (text, rest) = after.split_at_checked(length)?;
    let rest = rest.strip_prefix(b"\n")?;
    Some((text, rest))
}

// The framed texts that a stream begins with, one after the other.
#[derive(Clone, Copy)]
pub struct Frames<'a> {
    rest: &'a [u8],
}

impl<'a> Frames<'a> {
    pub fn of(stream: &'a [u8]) -> Self
        ensures { result.rest.now ≡ stream.now }
    {
        Frames { rest: stream }
    }
}

impl<'a> Iterator for Frames<'a> {
    type Item = &'a [u8];

    // Each text with its frame goes from the front of what is left, and nothing goes where none is there.
    ghost next_gives = { λ s r t. MatchOption r (((text rest : List ℕ) → Framed s.rest.now text rest → ⊥) × (t.rest.now ≡ s.rest.now)) (λ text. Framed s.rest.now text.now t.rest.now) };

    ghost remaining = { λ s. at_most (length s.rest.now) };

    fn next(&mut self) -> Option<&'a [u8]> {
        let (text, rest) = cut_text(self.rest)?;
        self.rest = rest;
        Some(text)
    }
}
