// Bytes cut at a mark.
ghost use Rattle.std.specs.Prelude.{◌≡◌, ℕ, [], ◌∷◌, MatchOption, ◌≢◌};
ghost use Rattle.fields.specs.Cuts.{Lacks, Parted, FirstLine};

// What stands before the first mark and what stands after it, or nothing where there is no mark.
pub fn cut_at(bytes: &[u8], mark: u8) -> Option<(&[u8], &[u8])>
    ensures { MatchOption result (Lacks mark bytes.now) (λ parts. Parted mark bytes.now parts.0.now parts.1.now) }
{
    let i = bytes.iter().position(|byte| *byte == mark)?;
    Some((&bytes[..i], &bytes[i + 1..]))
}

// The byte that is the whole field, or nothing where there are more or none.
pub fn single(field: &[u8]) -> Option<u8>
    ensures { MatchOption result ((byte : ℕ) → field.now ≢ byte ∷ []) (λ byte. field.now ≡ byte ∷ []) }
{
    match field {
        [byte] => Some(*byte),
        _ => None,
    }
}

// The bytes before the first line end, and those after it; all of them where no line ends.
pub fn first_line(text: &[u8]) -> (&[u8], &[u8])
    ensures { FirstLine text.now result.0.now result.1.now }
{
    cut_at(text, b'\n').unwrap_or((text, &[]))
}
