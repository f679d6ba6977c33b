// What `./hours` prints for a text.
ghost use Rattle.std.specs.Prelude.{IfOk};
ghost use Rattle.replies.specs.Printing.{Printed};
ghost use Rattle.replies.specs.Promised.{BreachesFirst};

use crate::answer::answer;
use std::alloc::{AllocError, Global};

// The bytes that a reply can have.
const MOST_REPLY: usize = 65536;

// The reply to a text, or the one line that refuses the whole of it. Where the reply names a breach, it is the first one by the sentences.
// The line is no `refusal_line`: a whole text is never refused for a breach, and to say so would be longer than to spell it.
pub fn printed(heap: Global, text: &[u8]) -> Result<Vec<u8>, AllocError>
    ensures value { IfOk result (λ bytes. Printed text.now bytes.items) }
    ensures breaches { BreachesFirst }
{
    let mut output = vec![in heap; 0u8; MOST_REPLY]?;
    match answer(heap, text, output.as_mut_slice())? {
        Ok(length) => {
            output.truncate(length);
            Ok(output)
        }
        Err(why) => {
            let number = u8::from(why);
            let line = format!(in heap; "refused,0,{number}\n")?;
            Ok(line.into_bytes())
        }
    }
}
