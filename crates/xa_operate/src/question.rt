//! The question whether a task is to be done.
ghost use Rattle.std.specs.Prelude.{◌≡◌, ◌++◌, IfOk, OnOk, codes};
ghost use Rattle.xa_operate.specs.Previews.{is_yes, order_text, question_text};
ghost use Rattle.xa_operate.specs.Scripts.{direction_text};
ghost use Rattle.xa_xid.specs.Spelling.{text_of};

use crate::task::Task;
use arrayvec::ArrayVec;
use std::alloc::{AllocError, Global};
use xa_codes::Direction;
use xa_xid::{MOST_TEXT, Xid};

pub(crate) fn question_text(alloc: Global, task: &Task) -> Result<Vec<u8>, AllocError>
    ensures { IfOk result (λ text. text.items ≡ question_text task.now) }
{
    let mut text = Vec::new(alloc);
    push_order(alloc, &mut text, task)?;
    text.extend_from_slice(b"? [y/N] ")?;
    Ok(text)
}

/// Whether a line says that it is.
pub(crate) fn is_yes(line: &[u8]) -> bool
    ensures { result ≡ is_yes line.now }
{
    line == b"y".as_slice() || line == b"yes".as_slice()
}

/// Adds a task's words, as the command line has them.
fn push_order(alloc: Global, text: &mut Vec<u8>, task: &Task) -> Result<(), AllocError>
    ensures { OnOk result (text.new.items ≡ text.old.items ++ order_text task.now) }
{
    match task {
        Task::Commit(xid) => push_named(text, "commit ", xid),
        Task::Rollback(xid) => push_named(text, "rollback ", xid),
        Task::Forget(xid) => push_named(text, "forget ", xid),
        Task::Decide(direction, xid) => push_named(text, decision(*direction), xid),
        Task::Doom(xid) => push_named(text, "doom ", xid),
        Task::Disconnect(session) => {
            let words = format!(in alloc; "disconnect {session}")?;
            text.extend_from_slice(words.as_bytes())
        }
        Task::RollbackMarked => text.extend_from_slice(b"rollback-marked"),
        Task::Restart => text.extend_from_slice(b"restart"),
        _ => text.extend_from_slice(b"go on"),
    }
}

fn decision(direction: Direction) -> &'static str
    ensures { result.now ≡ codes "decide " ++ direction_text direction ++ codes " " }
{
    match direction {
        Direction::Commit => "decide commit ",
        Direction::Rollback => "decide rollback ",
    }
}

fn push_named(text: &mut Vec<u8>, words: &str, xid: &Xid) -> Result<(), AllocError>
    ensures { OnOk result (text.new.items ≡ text.old.items ++ (words.now ++ text_of xid.now)) }
{
    let mut spelled: ArrayVec<u8, MOST_TEXT> = ArrayVec::new();
    xid.put_text(&mut spelled);
    text.extend_from_slice(words.as_bytes())?;
    text.extend_from_slice(spelled.as_slice())
}
