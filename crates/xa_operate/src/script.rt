//! The script that asks what a task asks.
ghost use Rattle.std.specs.Fmt.{decimal};
ghost use Rattle.std.specs.Prelude.{◌≡◌, ◌++◌, IfOk, OnOk, codes};
ghost use Rattle.xa_operate.specs.Scripts.{call_text, direction_text, ended, further_text, listed_comments, marked_comments, more_branches};
ghost use Rattle.xa_operate.specs.Scripts.{open_text, script_of};
ghost use Rattle.xa_xid.specs.Spelling.{text_of};

use crate::task::Task;
use arrayvec::ArrayVec;
use std::alloc::{AllocError, Global};
use xa_codes::Direction;
use xa_xid::{MOST_TEXT, Xid};

/// The script of `xarm talk` that asks what a task asks, with what its answers lead to as comments.
pub fn script_text(alloc: Global, name: &str, task: &Task) -> Result<Vec<u8>, AllocError>
    ensures { IfOk result (λ text. text.items ≡ script_of name.now task.now) }
{
    let mut text = Vec::new(alloc);
    push_line(&mut text, "connect")?;
    push_open(&mut text, name, task)?;
    push_call(alloc, &mut text, task)?;
    push_further(&mut text, task)?;
    push_line(&mut text, "1 hangup")?;
    Ok(text)
}

/// Adds a line.
fn push_line(text: &mut Vec<u8>, line: &str) -> Result<(), AllocError>
    ensures { OnOk result (text.new.items ≡ text.old.items ++ ended line.now) }
{
    text.extend_from_slice(line.as_bytes())?;
    text.push(b'\n')?;
    Ok(())
}

/// Adds the line that opens the resource manager, where that is needed.
fn push_open(text: &mut Vec<u8>, name: &str, task: &Task) -> Result<(), AllocError>
    ensures { OnOk result (text.new.items ≡ text.old.items ++ open_text name.now task.now) }
{
    if task.opens_session() {
        text.extend_from_slice(b"1 open TMNOFLAGS ")?;
        push_line(text, name)?;
    }
    Ok(())
}

/// Adds the line of the task's question.
fn push_call(alloc: Global, text: &mut Vec<u8>, task: &Task) -> Result<(), AllocError>
    ensures { OnOk result (text.new.items ≡ text.old.items ++ ended (call_text task.now)) }
{
    match task {
        Task::Status | Task::Metrics | Task::AtWork => push_line(text, "1 status"),
        Task::Branches | Task::Branch(_) | Task::Abandoned | Task::RollbackMarked => {
            push_line(text, "1 branches 256")
        }
        Task::Recover => push_line(text, "1 recover TMSTARTRSCAN 256"),
        Task::Commit(xid) => push_about(text, "1 commit TMNOFLAGS ", xid),
        Task::Rollback(xid) => push_about(text, "1 rollback TMNOFLAGS ", xid),
        Task::Forget(xid) => push_about(text, "1 forget TMNOFLAGS ", xid),
        Task::Decide(direction, xid) => push_about(text, decide_words(*direction), xid),
        Task::Doom(xid) => push_about(text, "1 doom ", xid),
        Task::Disconnect(session) => push_session(alloc, text, *session),
        Task::Trim => push_line(text, "1 trim"),
        Task::Restart => push_line(text, "1 restart"),
    }
}

/// Adds the line that has a session hung up.
fn push_session(alloc: Global, text: &mut Vec<u8>, session: u64) -> Result<(), AllocError>
    ensures { OnOk result (text.new.items ≡ text.old.items ++ ended (codes "1 disconnect " ++ decimal session)) }
{
    let line = format!(in alloc; "1 disconnect {session}")?;
    push_line(text, line.as_str())
}

fn decide_words(direction: Direction) -> &'static str
    ensures { result.now ≡ codes "1 decide " ++ direction_text direction ++ codes " " }
{
    match direction {
        Direction::Commit => "1 decide commit ",
        Direction::Rollback => "1 decide rollback ",
    }
}

/// Adds a line that ends with an XID.
fn push_about(text: &mut Vec<u8>, words: &str, xid: &Xid) -> Result<(), AllocError>
    ensures { OnOk result (text.new.items ≡ text.old.items ++ ended (words.now ++ text_of xid.now)) }
{
    let mut spelled: ArrayVec<u8, MOST_TEXT> = ArrayVec::new();
    xid.put_text(&mut spelled);
    text.extend_from_slice(words.as_bytes())?;
    text.extend_from_slice(spelled.as_slice())?;
    text.push(b'\n')?;
    Ok(())
}

/// Adds what the answers lead to: a line where that is known, else comments.
fn push_further(text: &mut Vec<u8>, task: &Task) -> Result<(), AllocError>
    ensures { OnOk result (text.new.items ≡ text.old.items ++ further_text task.now) }
{
    match task {
        Task::Metrics => push_line(text, "1 metrics"),
        Task::Branches | Task::Branch(_) => push_listed(text),
        Task::Abandoned => push_more(text),
        Task::RollbackMarked => push_marked(text),
        Task::Recover => push_line(text, "# while 256 are listed: 1 recover TMNOFLAGS 256"),
        _ => Ok(()),
    }
}

fn push_listed(text: &mut Vec<u8>) -> Result<(), AllocError>
    ensures { OnOk result (text.new.items ≡ text.old.items ++ listed_comments) }
{
    push_line(
        text,
        "# each X with active or suspended associations: 1 sessions X",
    )?;
    push_more(text)
}

fn push_marked(text: &mut Vec<u8>) -> Result<(), AllocError>
    ensures { OnOk result (text.new.items ≡ text.old.items ++ marked_comments) }
{
    push_line(
        text,
        "# each X that is working, marked, and without associations: 1 rollback TMNOFLAGS X",
    )?;
    push_more(text)
}

fn push_more(text: &mut Vec<u8>) -> Result<(), AllocError>
    ensures { OnOk result (text.new.items ≡ text.old.items ++ ended more_branches) }
{
    push_line(
        text,
        "# while 256 are listed: 1 branches 256 X, above the last X",
    )
}
