// The lines of a reply, in the order of the lines that they answer.
ghost use Rattle.std.specs.Prelude.{◌≡◌, length, IfOk};
ghost use Rattle.lines.specs.Texts.{calls_read};
ghost use Rattle.replies.specs.Replies.{Replied};

use crate::spelling::Reply;
use lines::line::Line;
use planner::call::Answer;
use rules::refusal::Refusal;
use std::alloc::{AllocError, Global};

// The reply to the lines of a text, by the answers to their calls.
pub(crate) fn spell_reply(
    heap: Global,
    readings: &[Result<Line, Refusal>],
    answers: &[Answer],
) -> Result<Vec<u8>, AllocError>
    requires { length (calls_read readings.now) ≡ length answers.now }
    ensures { IfOk result (λ reply. Replied 1 readings.now answers.now reply.items) }
{
    let mut reply = Reply {
        heap,
        bytes: Vec::new(heap),
    };
    let mut left = answers;
    for (i, reading) in readings.iter().enumerate() {
        left = reply.write_line(i + 1, *reading, left)?;
    }
    Ok(reply.bytes)
}
