ghost use Rattle.std.specs.Io.KnownBytes.{Appends};
ghost use Rattle.std.specs.Prelude.{◌≡◌, ◌↔◌, ◌⊎◌, IfErr, IfSome, IsErrOf, List, true, ℕ};
ghost use Rattle.xa_manager.specs.Believed.Opening.{IsBadSetting};
ghost use Rattle.xa_play.specs.Faults.{end_of};
ghost use Rattle.xa_play.specs.Played.{IsLinesFault, LineEnds, ReplyEnds, ScriptEnds};
ghost use Rattle.xa_play.specs.Plays.{IsTooLong, Plays, WasRead};
ghost use Rattle.xa_play.specs.Runs.{IsLawful};

use crate::answer::answer;
use crate::fault::PlayFault;
use crate::laws::{files_stand, runs_are_lawful};
use crate::opening::open_first;
use crate::script::read_script;
use std::alloc::Global;
use std::io::{self, Read, Write};
use xa_disk::MemDisk;
use xa_frame::Reply;
use xa_manager::{Manager, Settings, memory_is_trusted};
use xa_output::write_text;
use xa_script::{Line, Teller, first_part, read_line, reply_line};

/// Opens a manager on two empty disks in memory, reads the whole script, and then runs it: each line that asks
/// something is answered by one line. Of a line that asks nothing a teller is told, too.
///
/// Settings out of their limits are found before anything is read, a script that can't be read and one that is too long
/// before anything is written. What was answered before a later fault is written. What is printed is a legal run of the
/// sequential resource manager, with some outcomes of the disks. Behind a line `crash` that is said of every run to
/// whose state the files come that the crash left: then the lines after it go on with that run, opened again.
///
/// Of the run after each line: the committed branches read what they would read if they were executed one at a time,
/// in the order of their timestamps; and each XID whose prepare was answered XA_OK is listed, unless its completion was
/// asked for.
pub fn play_run<R: Read + Drop, W: Write, T: Teller>(
    alloc: Global,
    reader: &mut R,
    writer: &mut W,
    teller: &mut T,
    settings: Settings,
) -> Result<(), PlayFault>
    ensures played { Plays IsLawful settings.name settings.log_bytes result (R.remaining reader.old)
        (W.contents writer.old) (W.contents writer.new) }
    ensures setting { IsErrOf result PlayFault.Setting ↔ IsBadSetting settings.name settings.log_bytes }
    ensures unread { IsErrOf result PlayFault.Setting → (reader.new ≡ reader.old) × (writer.new ≡ writer.old) }
    ensures too_long { IsErrOf result PlayFault.TooLong → IfSome (R.remaining reader.old) IsTooLong }
    // The reader of a longer script may fail before its end is reached, and then `Read` or `Memory` comes.
    ensures longer { IfSome (R.remaining reader.old) (λ bytes. IsTooLong bytes
        → (¬ WasRead result) × (writer.new ≡ writer.old)) }
    ensures unwritten { IsErrOf result PlayFault.Read ⊎ IsErrOf result PlayFault.TooLong
        → writer.new ≡ writer.old }
{
    let (manager, kept) = open_first(alloc, settings)?;
    let script = read_script(alloc, reader)?;
    files_stand();
    let played = play_lines(alloc, manager, &kept, writer, teller, script.as_slice());
    let flushed = writer.flush();
    end_of(played, flushed)
}

/// The end of a play, by how its lines ended and by what the flush after them was answered.
fn end_of(played: Result<(), PlayFault>, flushed: io::Result<()>) -> Result<(), PlayFault>
    ensures { result ≡ end_of played flushed }
{
    played?;
    flushed.map_err(|_| PlayFault::Write)
}

fn play_lines<W: Write, T: Teller>(
    alloc: Global,
    manager: Manager<MemDisk>,
    settings: &Settings,
    writer: &mut W,
    teller: &mut T,
    script: &[u8],
) -> Result<(), PlayFault>
    requires { ¬ IsBadSetting settings.now.name settings.now.log_bytes }
    ensures played { (text : List ℕ) × Appends (W.contents writer.old) (W.contents writer.new) text
        × ScriptEnds settings.now.name settings.now.log_bytes result manager script.now text }
    ensures faults { IfErr result IsLinesFault }
{
    runs_are_lawful();
    let mut manager = manager;
    let mut calls = 0;
    let mut index: u64 = 0;
    let mut rest = Some(script);
    while let Some(lines) = rest {
        let (line, behind) = first_part(lines, b'\n');
        manager = play_line(
            alloc, manager, settings, writer, teller, index, line, &mut calls,
        )?;
        index = index.saturating_add(1);
        rest = behind;
    }
    Ok(())
}

// Counts the line, of which this many stand before it, if it is an event.
fn play_line<W: Write, T: Teller>(
    alloc: Global,
    manager: Manager<MemDisk>,
    settings: &Settings,
    writer: &mut W,
    teller: &mut T,
    index: u64,
    line: &[u8],
    calls: &mut u64,
) -> Result<Manager<MemDisk>, PlayFault>
    requires { ¬ IsBadSetting settings.now.name settings.now.log_bytes }
    ensures { (text : List ℕ) × Appends (W.contents writer.old) (W.contents writer.new) text
        × LineEnds settings.now.name settings.now.log_bytes result manager line.now text }
{
    memory_is_trusted();
    files_stand();
    runs_are_lawful();
    let said = read_line(alloc, line)?;
    tell_unknown(teller, index, line, &said);
    let before = *calls;
    if is_event(&said) {
        *calls = before.saturating_add(1);
    }
    let (manager, reply) = answer(alloc, manager, settings, said, before)?;
    write_reply(alloc, writer, reply)?;
    Ok(manager)
}

/// Tells of a line that asks nothing.
fn tell_unknown<T: Teller>(teller: &mut T, index: u64, line: &[u8], said: &Line) {
    if let Line::Unknown = said {
        teller.tell(index, line);
    }
}

/// Whether a line is an event of the history.
fn is_event(said: &Line) -> bool {
    matches!(said, Line::Connect | Line::Hangup(_) | Line::Call(_, _))
}

/// Writes the reply that a line shows, if it shows one.
fn write_reply<W: Write>(
    alloc: Global,
    writer: &mut W,
    reply: Option<Reply>,
) -> Result<(), PlayFault>
    ensures { (text : List ℕ) × Appends (W.contents writer.old) (W.contents writer.new) text
        × ReplyEnds result reply text }
{
    let Some(reply) = reply else {
        return Ok(());
    };
    let text = reply_line(alloc, &reply)?;
    if write_text(writer, text.as_slice()) {
        Ok(())
    } else {
        Err(PlayFault::Write)
    }
}
