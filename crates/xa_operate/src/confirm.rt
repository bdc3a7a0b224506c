//! A task that can't be taken back is asked of a server only after a yes.
ghost use Rattle.std.specs.Prelude.{◌≤◌, length};
ghost use Rattle.xa_limits.specs.declared.TheConstants.{MOST_INFO};
ghost use Rattle.xa_operate.specs.Confirms.{Confirms, Told};
ghost use Rattle.xa_talk.specs.declared.dial.Connection.{Connection};

use crate::fault::OperateFault;
use crate::format::Format;
use crate::preview::preview_of;
use crate::question::{is_yes, question_text};
use crate::run::{operate_run, print_text};
use crate::task::Task;
use std::alloc::Global;
use std::io::{BufRead, Read, Write};
use xa_talk::{Dial, read_next, without_end};

/// Shows what a task is about, asks whether it is to be done, and reads a line. If that is `y` or `yes`, a server is asked
/// the task, as by `operate_run`. Else nothing more is asked (`Declined`).
///
/// What is shown, by a connection of its own, and the question go to `errors`. The faults are those of `operate_run`; and a
/// line that couldn't be read (`Read`).
pub fn confirm_run<I: BufRead, E: Write, O: Write, R: Read + Drop, W: Write + Drop, D: Dial<R, W>>(
    alloc: Global,
    input: &mut I,
    errors: &mut E,
    output: &mut O,
    dial: &mut D,
    name: &str,
    task: &Task,
    format: Format,
) -> Result<(), OperateFault>
    requires { length name.now ≤ MOST_INFO }
    ensures { Confirms {C = Connection R W} format task.now (λ c. W.contents c.writer) (λ c. R.remaining c.reader) name.now
        result (I.remaining input.old) (I.remaining input.new) (E.contents errors.old) (E.contents errors.new)
        (O.contents output.old) (O.contents output.new) }
{
    let preview = preview_of(task);
    operate_run(alloc, errors, dial, name, &preview, Format::Text)?;
    if is_told(alloc, input, errors, task)? {
        operate_run(alloc, output, dial, name, task, format)
    } else {
        Err(OperateFault::Declined)
    }
}

/// Asks whether a task is to be done, and reads the answer.
fn is_told<I: BufRead, E: Write>(
    alloc: Global,
    input: &mut I,
    errors: &mut E,
    task: &Task,
) -> Result<bool, OperateFault>
    ensures { Told task.now result (I.remaining input.old) (I.remaining input.new)
        (E.contents errors.old) (E.contents errors.new) }
{
    let question = question_text(alloc, task)?;
    print_text(errors, question.as_slice())?;
    let mut line = Vec::new(alloc);
    match read_next(input, &mut line) {
        Ok(true) => Ok(is_yes(without_end(line.as_slice()))),
        Ok(false) => Ok(false),
        Err(fault) => Err(OperateFault::Talk(fault)),
    }
}
