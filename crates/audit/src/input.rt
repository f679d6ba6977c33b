// The input in its two parts: a name in the first line, and a log in what stands after it.
ghost use Rattle.std.specs.Prelude.{◌≡◌, IfOk, filter};
ghost use Rattle.audit.specs.Input.{inked, Cut};

use fields::cuts::first_line;
use std::alloc::{AllocError, Global};

#[derive(Clone, Copy)]
pub struct Input<'a> {
    pub name: &'a [u8],
    pub log: &'a [u8],
}

impl<'a> Input<'a> {
    // The bytes before the first line end, and those after it.
    pub fn of(text: &'a [u8]) -> Self
        ensures { Cut text.now result.name.now result.log.now }
    {
        let (name, log) = first_line(text);
        Input { name, log }
    }

    // What is left of the log without its white space: a blank, a tab, a line end, a form feed or a carriage return. The library's test asks in
    // three ranges, and takes nearly twice as long where most bytes are blanks.
    pub fn letters(&self, heap: Global) -> Result<Vec<u8>, AllocError>
        ensures { IfOk result (λ v. v.items ≡ filter inked self.now.log.now) }
    {
        self.log
            .iter()
            .filter(|byte| !matches!(**byte, b' ' | b'\t' | b'\n' | 0x0c | b'\r'))
            .copied()
            .collect(heap)
    }
}
