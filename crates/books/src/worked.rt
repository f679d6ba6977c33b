// The worked cases, as a theorem about the sentences of the named sets.
ghost use Rattle.books.specs.Worked.{Worked};

// Nothing to compute: the contract is the theorem.
pub fn worked_cases()
    ensures { Worked }
{}
