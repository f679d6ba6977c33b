// Answers spelled as the lines of a reply.
ghost use Rattle.std.specs.Prelude.{◌≡◌, ℕ, ◌≤◌, List, ◌++◌, length, IfOk, string_bytes, vec_items, OnOk};
ghost use Rattle.std.specs.List.{flat_map};
ghost use Rattle.std.specs.Option.{option_len};
ghost use Rattle.lines.specs.Texts.{call_read};
ghost use Rattle.replies.specs.Replies.{LineReplied};
ghost use Rattle.replies.specs.Spelled.{run_line, refused_line, PlanLines, AnswerLines};

use crate::runs::{Run, runs_of};
use lines::line::Line;
use planner::call::{Answer, Schedule};
use rules::refusal::Refusal;
use std::alloc::{AllocError, Global};

// The line that says why the line at that place was refused.
fn refusal_line(heap: Global, place: usize, why: Refusal) -> Result<String, AllocError>
    ensures { IfOk result (λ line. string_bytes line ≡ refused_line place why) }
{
    format!(in heap; "refused,{place},{why}\n")
}

// A reply as far as it is written, and the heap that its lines are spelled in.
#[derive(Drop)]
pub(crate) struct Reply {
    pub(crate) heap: Global,
    pub(crate) bytes: Vec<u8>,
}

impl Reply {
    // Writes a run's line: its first quarter, its letter and its length. The letter goes as a byte: printed, one over 127 would be two.
    fn write_run(&mut self, run: Run) -> Result<(), AllocError>
        ensures { OnOk result (self.new.bytes.items ≡ self.old.bytes.items ++ run_line run) }
    {
        let Run {
            first,
            letter,
            count,
        } = run;
        let before = format!(in self.heap; "{first},")?;
        let after = format!(in self.heap; ",{count}\n")?;
        self.bytes.extend_from_slice(before.as_bytes())?;
        self.bytes.push(letter)?;
        self.bytes.extend_from_slice(after.as_bytes())?;
        Ok(())
    }

    // Writes the runs of a schedule, a line each.
    fn write_runs(&mut self, runs: &[Run]) -> Result<(), AllocError>
        ensures { OnOk result (self.new.bytes.items ≡ self.old.bytes.items ++ flat_map run_line runs.now) }
    {
        for run in runs {
            self.write_run(*run)?;
        }
        Ok(())
    }

    // Writes the lines of a plan: its place in the text, the runs of its letters, and its end.
    fn write_plan(&mut self, place: usize, schedule: &Schedule) -> Result<(), AllocError>
        ensures { OnOk result (((lines : List ℕ) × PlanLines place schedule.now.end (vec_items schedule.now.letters) lines × (self.new.bytes.items ≡ self.old.bytes.items ++ lines))) }
    {
        let end = schedule.end;
        let head = format!(in self.heap; "plan,{place}\n")?;
        let runs = runs_of(self.heap, end, schedule.letters.as_slice())?;
        let tail = format!(in self.heap; "end,{end}\n")?;
        self.bytes.extend_from_slice(head.as_bytes())?;
        self.write_runs(runs.as_slice())?;
        self.bytes.extend_from_slice(tail.as_bytes())?;
        Ok(())
    }

    // Writes why the line at that place was refused.
    fn write_refusal(&mut self, place: usize, why: Refusal) -> Result<(), AllocError>
        ensures { OnOk result (self.new.bytes.items ≡ self.old.bytes.items ++ refused_line place why) }
    {
        let line = refusal_line(self.heap, place, why)?;
        self.bytes.extend_from_slice(line.as_bytes())?;
        Ok(())
    }

    // Writes what the answer to the line at that place says.
    fn write_answer(&mut self, place: usize, answer: &Answer) -> Result<(), AllocError>
        ensures { OnOk result (((lines : List ℕ) × AnswerLines place answer.now lines × (self.new.bytes.items ≡ self.old.bytes.items ++ lines))) }
    {
        match answer {
            Ok(None) => Ok(()),
            Ok(Some(schedule)) => self.write_plan(place, schedule),
            Err(why) => self.write_refusal(place, *why),
        }
    }

    // Writes what answers the line at that place, by the first of the answers if it asks for a call, and gives the answers left.
    pub(crate) fn write_line<'a>(
        &mut self,
        place: usize,
        reading: Result<Line, Refusal>,
        answers: &'a [Answer],
    ) -> Result<&'a [Answer], AllocError>
        requires { option_len (call_read reading) ≤ length answers.now }
        ensures { IfOk result (λ left. ((lines : List ℕ) × LineReplied place reading answers.now lines left.now × (self.new.bytes.items ≡ self.old.bytes.items ++ lines))) }
    {
        match reading {
            Ok(Line::Rules(_)) => Ok(answers),
            Ok(Line::Call(_)) => {
                self.write_answer(place, &answers[0])?;
                Ok(&answers[1..])
            }
            Err(why) => {
                self.write_refusal(place, why)?;
                Ok(answers)
            }
        }
    }
}
