//! The history that was audited: a script of what was asked, and the replies that the play of it prints.
ghost use Rattle.std.specs.Prelude.{◌≡◌, ◌++◌, IfErr, IfOk, OnOk};
ghost use Rattle.xa_server.specs.Histories.{IsEndFault, IsHistoryFault, event_line, replies_of, script_of};

use crate::history_file::HistoryFile;
use crate::serve_fault::ServeFault;
use std::alloc::{AllocError, Global};
use std::fs::{self, Files, OpenOptions};
use std::io::Write;
use std::os::unix::fs::OpenOptionsExt;
use xa_history::Receipt;
use xa_model::Event;
use xa_script::{reply_line, request_line};

/// The two files of a history: of the script, and of the replies.
#[derive(Drop)]
pub(crate) struct HistoryFiles<'a, F> {
    path: &'a str,
    script: F,
    replies: F,
}

/// Makes the files of a history at a path, if one is given: their owner's alone, where nothing is.
pub(crate) fn make_files<'a, R: AllocGlobal + Files>(
    rt: &R,
    path: Option<&'a str>,
) -> Result<Option<HistoryFiles<'a, R::File>>, ServeFault<'a>>
    ensures { IfErr result IsHistoryFault }
{
    let Some(path) = path else {
        return Ok(None);
    };
    let beside = format!(in rt.alloc(); "{path}.out")?;
    let script = make(rt, path, HistoryFile::script(path))?;
    match make(rt, beside.as_str(), HistoryFile::replies(path)) {
        Ok(replies) => Ok(Some(HistoryFiles {
            path,
            script,
            replies,
        })),
        Err(fault) => {
            let _ = fs::remove_file(rt, path);
            Err(fault)
        }
    }
}

fn make<'a, R: Files>(rt: &R, at: &str, file: HistoryFile<'a>) -> Result<R::File, ServeFault<'a>>
    ensures { IfErr result IsHistoryFault }
{
    let mut how = OpenOptions::new();
    how.write(true).create_new(true).mode(0o600);
    match how.open(rt, at) {
        Ok(made) => Ok(made),
        Err(error) => Err(ServeFault::History { file, error }),
    }
}

/// Writes a history to its files, if there are some.
pub(crate) fn write_history<'a, F: Write + Drop>(
    alloc: Global,
    files: Option<HistoryFiles<'a, F>>,
    history: &[Receipt],
) -> Result<(), ServeFault<'a>>
    ensures { IfErr result IsEndFault }
{
    let Some(
        HistoryFiles {
            path,
            mut script,
            mut replies,
        },
    ) = files
    else {
        return Ok(());
    };
    let asked = script_of(alloc, history)?;
    let answered = replies_of(alloc, history)?;
    write(&mut script, asked.as_slice(), HistoryFile::script(path))?;
    write(
        &mut replies,
        answered.as_slice(),
        HistoryFile::replies(path),
    )
}

fn write<'a, F: Write>(
    to: &mut F,
    bytes: &[u8],
    file: HistoryFile<'a>,
) -> Result<(), ServeFault<'a>>
    ensures { IfErr result IsEndFault }
{
    match to.write_all(bytes) {
        Ok(()) => Ok(()),
        Err(error) => Err(ServeFault::History { file, error }),
    }
}

// What was asked, a line each.
fn script_of(alloc: Global, history: &[Receipt]) -> Result<Vec<u8>, AllocError>
    ensures { IfOk result (λ text. text.items ≡ script_of history.now) }
{
    let mut text = Vec::new(alloc);
    for receipt in history {
        push_event(alloc, &mut text, &receipt.event)?;
    }
    Ok(text)
}

fn push_event(alloc: Global, text: &mut Vec<u8>, event: &Event) -> Result<(), AllocError>
    ensures { OnOk result (text.new.items ≡ text.old.items ++ event_line event.now) }
{
    match event {
        Event::Connect => text.extend_from_slice(b"connect\n"),
        Event::Hangup(session) => {
            let line = format!(in alloc; "{session} hangup\n")?;
            text.extend_from_slice(line.as_bytes())
        }
        Event::Call(session, request) => {
            let line = request_line(alloc, *session, request)?;
            text.extend_from_slice(line.as_slice())?;
            text.push(b'\n')?;
            Ok(())
        }
    }
}

// What each was answered, a line each.
fn replies_of(alloc: Global, history: &[Receipt]) -> Result<Vec<u8>, AllocError>
    ensures { IfOk result (λ text. text.items ≡ replies_of history.now) }
{
    let mut text = Vec::new(alloc);
    for receipt in history {
        let line = reply_line(alloc, &receipt.reply)?;
        text.extend_from_slice(line.as_slice())?;
    }
    Ok(text)
}
