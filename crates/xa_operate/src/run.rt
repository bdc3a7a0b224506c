//! A task is asked of a server.
ghost use Rattle.std.specs.Io.KnownBytes.{Appends};
ghost use Rattle.std.specs.Prelude.{◌≤◌, All, List, OnOk, ℕ, length};
ghost use Rattle.xa_limits.specs.declared.TheConstants.{MOST_INFO};
ghost use Rattle.xa_operate.specs.Askings.{IsAsking};
ghost use Rattle.xa_operate.specs.Courses.{Operates, Prints, QuestionEnds};
ghost use Rattle.xa_talk.specs.declared.dial.Connection.{Connection};

use crate::agenda::{asked_first, push_behind};
use crate::answer::{answers, refusal};
use crate::asking::{Asking, bring};
use crate::fault::OperateFault;
use crate::format::Format;
use crate::shown::shown;
use crate::task::Task;
use std::alloc::Global;
use std::collections::VecDeque;
use std::io::{Read, Write};
use xa_output::write_text;
use xa_talk::{Connection, Dial, TalkFault};

/// Opens a connection and asks a server what a task asks, one question after the other, each once the one before it is
/// answered. What an answer says is printed in a format, and flushed, before the next one is asked.
///
/// It ends once all is done, or with the first fault: no connection (`Connect`); one that broke (`Broken`), or brought what
/// is no reply (`NoReply`); a reply that refuses (`Refused`); an answer that couldn't be printed (`Write`); no memory.
pub fn operate_run<O: Write, R: Read + Drop, W: Write + Drop, D: Dial<R, W>>(
    alloc: Global,
    output: &mut O,
    dial: &mut D,
    name: &str,
    task: &Task,
    format: Format,
) -> Result<(), OperateFault>
    requires { length name.now ≤ MOST_INFO }
    ensures { Operates {C = Connection R W} format task.now (λ c. W.contents c.writer) (λ c. R.remaining c.reader) name.now
        result (O.contents output.old) (O.contents output.new) }
{
    let mut agenda = asked_first(alloc, name, task)?;
    let Ok(mut connection) = dial.dial() else {
        return Err(OperateFault::Talk(TalkFault::Connect));
    };
    for _ in 0..u64::MAX {
        let Some(question) = agenda.pop_front() else {
            return Ok(());
        };
        ask(
            alloc,
            output,
            &mut connection,
            &mut agenda,
            task,
            format,
            &question,
        )?;
    }
    Err(OperateFault::Talk(TalkFault::Broken))
}

/// Asks a question, prints its answer, and adds what that leads to.
fn ask<O: Write, R: Read, W: Write>(
    alloc: Global,
    output: &mut O,
    connection: &mut Connection<R, W>,
    agenda: &mut VecDeque<Asking>,
    task: &Task,
    format: Format,
    question: &Asking,
) -> Result<(), OperateFault>
    requires asked { IsAsking question.now }
    requires agenda { All IsAsking agenda.old.items }
    ensures ends { (text : List ℕ) × Appends (O.contents output.old) (O.contents output.new) text
        × QuestionEnds {C = Connection R W} format task.now (λ c. W.contents c.writer) (λ c. R.remaining c.reader)
        question.now result agenda.old.items agenda.new.items text connection.old connection.new }
    ensures limits { OnOk result (All IsAsking agenda.new.items) }
{
    let reply = match bring(alloc, connection, question) {
        Ok(reply) => reply,
        Err(fault) => return Err(OperateFault::Talk(fault)),
    };
    if !answers(task, question, &reply) {
        return Err(refusal(&reply));
    }
    let text = shown(alloc, format, task, question, &reply)?;
    push_behind(alloc, agenda, task, &reply)?;
    print_text(output, text.as_slice())
}

/// Prints a text, and flushes it.
pub fn print_text<O: Write>(output: &mut O, text: &[u8]) -> Result<(), OperateFault>
    ensures { Prints result text.now (O.contents output.old) (O.contents output.new) }
{
    if !write_text(output, text) {
        return Err(OperateFault::Talk(TalkFault::Write));
    }
    match output.flush() {
        Ok(()) => Ok(()),
        Err(_) => Err(OperateFault::Talk(TalkFault::Write)),
    }
}
