// How large a search is.
ghost use Rattle.std.specs.Prelude.{◌≤◌};

// The labels kept a quarter, and the quarters to search.
#[derive(Clone, Copy)]
pub(crate) struct Size {
    pub(crate) width: usize,
    pub(crate) span: usize,
    ghost some: { 1 ≤ width },
    ghost narrow: { width ≤ 4096 },
}
