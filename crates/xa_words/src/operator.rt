//! What the words of an operator's command ask for.
ghost use Rattle.std.specs.Prelude.{◌≡◌, IfErr, IfOk, List, Some, codes, false, true, ℕ};
ghost use Rattle.clap.specs.Matches.{found_of};
ghost use Rattle.clap.specs.Walk.{rows_of};
ghost use Rattle.xa_words.specs.Asks.{AsksBy, IsConfirmed, IsUnconfirmed, text_in};
ghost use Rattle.xa_script.specs.Requests.{direction_of, is_name};
ghost use Rattle.xa_words.specs.Orders.{IsDirectionIn, IsMalformedIn, IsTaskIn, IsXidIn, about_in, format_by, format_fault, format_named, is_metrics};
ghost use Rattle.xa_words.specs.Orders.{status_format};
ghost use Rattle.xa_words.specs.Verbs.{verb_of};

use crate::asked::Asked;
use crate::malformed::Malformed;
use crate::verb::Verb;
use crate::words::{flag_of, number_of, optional_text_of, reach_of, text_of};
use clap::ArgMatches;
use xa_codes::Direction;
use xa_operate::{Format, Task, is_name};
use xa_xid::Xid;

/// What the words after a command ask for.
pub(crate) fn operator_of<'a>(verb: Verb, matches: &ArgMatches<'a>) -> Asked<'a>
    ensures { (command : List ℕ) → verb_of command ≡ Some verb → AsksBy command (rows_of (found_of matches.now)) result }
{
    let name = text_of(matches, "name", "xarm");
    if !is_name(name) {
        return Asked::Malformed(Malformed::Name);
    }
    let Some(format) = format_by(verb, text_of(matches, "format", "text")) else {
        return Asked::Malformed(format_fault(verb));
    };
    match task_of(verb, matches) {
        Ok(task) => order_of(verb, matches, name, task, format),
        Err(malformed) => Asked::Malformed(malformed),
    }
}

/// What is asked of a task, by the options: its script, or what can't be taken back without `--yes`, or that it be done.
fn order_of<'a>(
    verb: Verb,
    matches: &ArgMatches<'a>,
    name: &'a str,
    task: Task,
    format: Format,
) -> Asked<'a>
    requires named { name.now ≡ text_in (rows_of (found_of matches.now)) (codes "name") (codes "xarm") }
    requires graphic { is_name name.now ≡ true }
    requires format { format_by verb (text_in (rows_of (found_of matches.now)) (codes "format") (codes "text")) ≡ Some format }
    requires task { IsTaskIn verb (rows_of (found_of matches.now)) task }
    ensures { (command : List ℕ) → verb_of command ≡ Some verb → AsksBy command (rows_of (found_of matches.now)) result }
{
    if flag_of(matches, "print-script") {
        return Asked::Script { name, task };
    }
    if !is_confirmed(matches, &task) {
        let about = about_of(matches, &task);
        return Asked::Unconfirmed {
            reach: reach_of(matches),
            user: optional_text_of(matches, "user"),
            seconds: number_of(matches, "seconds", 10),
            format,
            name,
            task,
            about,
        };
    }
    match reach_of(matches) {
        Some(reach) => Asked::Operate {
            reach,
            user: optional_text_of(matches, "user"),
            seconds: number_of(matches, "seconds", 10),
            format,
            name,
            task,
        },
        None => Asked::Nowhere,
    }
}

// What a task is about, as it was given.
fn about_of<'a>(matches: &ArgMatches<'a>, task: &Task) -> &'a str
    ensures { result.now ≡ about_in task.now (rows_of (found_of matches.now)) }
{
    match task {
        Task::Disconnect(_) => text_of(matches, "session", ""),
        _ => text_of(matches, "xid", ""),
    }
}

// Whether a task needs no `--yes`, or has it.
fn is_confirmed(matches: &ArgMatches<'_>, task: &Task) -> bool
    ensures confirmed { result ≡ true → IsConfirmed (rows_of (found_of matches.now)) task.now }
    ensures unconfirmed { result ≡ false → IsUnconfirmed (rows_of (found_of matches.now)) task.now }
{
    if task.decides() {
        flag_of(matches, "yes")
    } else {
        true
    }
}

// How a command's answers are to be printed.
fn format_by(verb: Verb, word: &str) -> Option<Format>
    ensures { result ≡ format_by verb word.now }
{
    match verb {
        Verb::Status => status_format(word),
        _ => read_format(word),
    }
}

// The same of a status: for Prometheus there is one format.
fn status_format(word: &str) -> Option<Format>
    ensures { result ≡ status_format word.now }
{
    match word {
        "prometheus" => Some(Format::Text),
        _ => read_format(word),
    }
}

fn format_fault(verb: Verb) -> Malformed
    ensures { result ≡ format_fault verb }
{
    match verb {
        Verb::Status => Malformed::StatusFormat,
        _ => Malformed::Format,
    }
}

fn task_of(verb: Verb, matches: &ArgMatches<'_>) -> Result<Task, Malformed>
    ensures task { IfOk result (IsTaskIn verb (rows_of (found_of matches.now))) }
    ensures malformed { IfErr result (IsMalformedIn (rows_of (found_of matches.now))) }
{
    match verb {
        Verb::Status => Ok(status_of(matches)),
        Verb::Branches => Ok(Task::Branches),
        Verb::Recover => Ok(Task::Recover),
        Verb::Commit => Ok(Task::Commit(xid_of(matches)?)),
        Verb::Rollback => Ok(Task::Rollback(xid_of(matches)?)),
        Verb::Forget => Ok(Task::Forget(xid_of(matches)?)),
        Verb::Decide => decision_of(matches),
        Verb::Doom => Ok(Task::Doom(xid_of(matches)?)),
        Verb::Disconnect => Ok(Task::Disconnect(number_of(matches, "session", 0))),
        Verb::Trim => Ok(Task::Trim),
        Verb::Restart => Ok(Task::Restart),
        Verb::RollbackMarked => Ok(Task::RollbackMarked),
    }
}

fn status_of(matches: &ArgMatches<'_>) -> Task
    ensures { IsTaskIn Verb.Status (rows_of (found_of matches.now)) result }
{
    if is_metrics(matches) {
        Task::Metrics
    } else {
        Task::Status
    }
}

// Whether a server's numbers are to be printed for Prometheus.
fn is_metrics(matches: &ArgMatches<'_>) -> bool
    ensures { result ≡ is_metrics (rows_of (found_of matches.now)) }
{
    text_of(matches, "format", "text") == "prometheus"
}

fn decision_of(matches: &ArgMatches<'_>) -> Result<Task, Malformed>
    ensures task { IfOk result (IsTaskIn Verb.Decide (rows_of (found_of matches.now))) }
    ensures malformed { IfErr result (IsMalformedIn (rows_of (found_of matches.now))) }
{
    let direction = direction_of(matches)?;
    let xid = xid_of(matches)?;
    Ok(Task::Decide(direction, xid))
}

fn xid_of(matches: &ArgMatches<'_>) -> Result<Xid, Malformed>
    ensures xid { IfOk result (IsXidIn (rows_of (found_of matches.now))) }
    ensures malformed { IfErr result (IsMalformedIn (rows_of (found_of matches.now))) }
{
    match Xid::take_text(text_of(matches, "xid", "").as_bytes()) {
        Some(xid) => Ok(xid),
        None => Err(Malformed::Xid),
    }
}

fn direction_of(matches: &ArgMatches<'_>) -> Result<Direction, Malformed>
    ensures direction { IfOk result (IsDirectionIn (rows_of (found_of matches.now))) }
    ensures malformed { IfErr result (IsMalformedIn (rows_of (found_of matches.now))) }
{
    match read_direction(text_of(matches, "direction", "")) {
        Some(direction) => Ok(direction),
        None => Err(Malformed::Direction),
    }
}

fn read_direction(word: &str) -> Option<Direction>
    ensures { result ≡ direction_of word.now }
{
    match word {
        "commit" => Some(Direction::Commit),
        "rollback" => Some(Direction::Rollback),
        _ => None,
    }
}

pub fn read_format(word: &str) -> Option<Format>
    ensures { result ≡ format_named word.now }
{
    match word {
        "text" => Some(Format::Text),
        "json" => Some(Format::Json),
        _ => None,
    }
}
