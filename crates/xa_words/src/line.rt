//! The command line, as `clap` reads it.
ghost use Rattle.std.specs.Prelude.{IfOk, ◌∷◌, []};
ghost use Rattle.clap.specs.Simple.{App, Shape, with_subcommand};
ghost use Rattle.clap.specs.Walk.{Rule};
ghost use Rattle.xa_words.specs.Line.{HasRule, HasShape, IsApp, bare, branch_order_shapes, check_shape, conduct_rules};
ghost use Rattle.xa_words.specs.Line.{copy_shape, file_shapes, service_rules};
ghost use Rattle.xa_words.specs.Line.{format_rule, login_rules, loop_rules, order_shapes, place_rules, play_shape};
ghost use Rattle.xa_words.specs.Line.{question_shapes, quiet_rules, reach_rules, scan_shape, serve_shape, served_rules};
ghost use Rattle.xa_words.specs.Line.{server_shapes, shutdown_shape, talk_shape, tick_shape, upkeep_rules, user_shape};
ghost use Rattle.xa_words.specs.Line.{verb_shape, with_commands, with_given, with_rules, xarm};

use crate::arguments::{
    accept_damage, audit, audit_out, branch_seconds, connections, copy_path, dest, every,
    exit_when_down, first_path, follow, frame_seconds, host, idle_seconds, listen, log, log_bytes,
    loops, name, names, path, play_name, port, serve_log_bytes, serve_socket, socket, strict, text,
    tick, trim, workers,
};
use crate::login_arguments::{
    action, open_to_all, password_file, role, socket_group, socket_mode, to_users, user, user_name,
    users,
};
use crate::operator_arguments::{
    direction, format, open_name, print_script, seconds, session, status_format, talk_seconds, xid,
    yes,
};
use crate::verb::Verb;
use clap::{Arg, Command};
use std::alloc::{AllocError, Global};

/// The command line with its commands.
pub fn command_line<'a>(alloc: Global) -> Result<Command<'a>, AllocError>
    ensures { IfOk result (IsApp xarm) }
{
    let line = with_files(alloc, bare_line(alloc))?;
    let line = with_servers(alloc, line)?;
    let line = with_questions(alloc, line)?;
    let line = with_branch_orders(alloc, line)?;
    with_orders(alloc, line)
}

// The command line with the commands that ask no server.
fn with_files<'a>(alloc: Global, line: Command<'a>) -> Result<Command<'a>, AllocError>
    ensures { (app : App) → IsApp app line.entry → IfOk result (IsApp (with_commands app file_shapes)) }
{
    let line = with_command(line, check_command(alloc))?;
    let line = with_command(line, copy_command(alloc))?;
    let line = with_command(line, play_command(alloc))?;
    let line = with_command(line, scan_command(alloc))?;
    with_command(line, user_command(alloc))
}

// The same with those that are a server, or ask one more than one thing.
fn with_servers<'a>(alloc: Global, line: Command<'a>) -> Result<Command<'a>, AllocError>
    ensures { (app : App) → IsApp app line.entry → IfOk result (IsApp (with_commands app server_shapes)) }
{
    let line = with_command(line, serve_command(alloc))?;
    let line = with_command(line, shutdown_command(alloc))?;
    let line = with_command(line, talk_command(alloc))?;
    with_command(line, tick_command(alloc))
}

// The same with those that ask a server how things are.
fn with_questions<'a>(alloc: Global, line: Command<'a>) -> Result<Command<'a>, AllocError>
    ensures { (app : App) → IsApp app line.entry → IfOk result (IsApp (with_commands app question_shapes)) }
{
    let line = with_command(line, verb_command(alloc, Verb::Status))?;
    let line = with_command(line, verb_command(alloc, Verb::Branches))?;
    with_command(line, verb_command(alloc, Verb::Recover))
}

// The same with those that have it do something to a branch.
fn with_branch_orders<'a>(alloc: Global, line: Command<'a>) -> Result<Command<'a>, AllocError>
    ensures { (app : App) → IsApp app line.entry → IfOk result (IsApp (with_commands app branch_order_shapes)) }
{
    let line = with_command(line, verb_command(alloc, Verb::Commit))?;
    let line = with_command(line, verb_command(alloc, Verb::Rollback))?;
    let line = with_command(line, verb_command(alloc, Verb::Forget))?;
    let line = with_command(line, verb_command(alloc, Verb::Decide))?;
    with_command(line, verb_command(alloc, Verb::Doom))
}

// The same with the other ones that have it do something.
fn with_orders<'a>(alloc: Global, line: Command<'a>) -> Result<Command<'a>, AllocError>
    ensures { (app : App) → IsApp app line.entry → IfOk result (IsApp (with_commands app order_shapes)) }
{
    let line = with_command(line, verb_command(alloc, Verb::Disconnect))?;
    let line = with_command(line, verb_command(alloc, Verb::Trim))?;
    let line = with_command(line, verb_command(alloc, Verb::Restart))?;
    with_command(line, verb_command(alloc, Verb::RollbackMarked))
}

// The line with one command more, if that could be made.
fn with_command<'a>(
    line: Command<'a>,
    command: Result<Command<'a>, AllocError>,
) -> Result<Command<'a>, AllocError>
    ensures { (app : App) (shape : Shape) → IsApp app line.entry → IfOk command.entry (HasShape shape)
        → IfOk result (IsApp (with_subcommand app shape)) }
{
    line.subcommand(command?)
}

fn verb_command<'a>(alloc: Global, verb: Verb) -> Result<Command<'a>, AllocError>
    ensures { IfOk result (HasShape (verb_shape verb)) }
{
    let command = Command::new(alloc, verb.text())
        .about(verb.about())
        .after_help(verb.after_help());
    let command = with_argument(command, direction(alloc), verb.names_direction())?;
    let command = with_argument(command, xid(alloc), verb.names_branch())?;
    let command = with_argument(command, session(alloc), verb.names_session())?;
    let command = with_reach(alloc, command)?;
    let command = with_argument(command, open_name(alloc), verb.opens_session())?;
    let command = command.arg(seconds(alloc))?;
    let command = with_argument(command, format_of(alloc, verb), verb.lists())?;
    let command = command.arg(print_script(alloc))?;
    with_argument(command, yes(alloc), verb.decides())
}

// How a command's answers are printed.
fn format_of<'a>(alloc: Global, verb: Verb) -> Arg<'a>
    ensures { HasRule format_rule result }
{
    match verb {
        Verb::Status => status_format(alloc),
        _ => format(alloc),
    }
}

// The command with the arguments that say how a server is reached, and who logs in to it.
fn with_reach<'a>(alloc: Global, command: Command<'a>) -> Result<Command<'a>, AllocError>
    ensures { (app : App) → IsApp app command.entry → IfOk result (IsApp (with_rules app reach_rules)) }
{
    let command = with_two(command, port(alloc), host(alloc))?;
    with_two(command, socket(alloc), user(alloc))
}

// The command with one argument more, if it is given.
fn with_argument<'a>(
    command: Command<'a>,
    argument: Arg<'a>,
    is_given: bool,
) -> Result<Command<'a>, AllocError>
    ensures { (app : App) (rule : Rule) → IsApp app command.entry → HasRule rule argument.entry
        → IfOk result (IsApp (with_given is_given rule app)) }
{
    if is_given {
        command.arg(argument)
    } else {
        Ok(command)
    }
}

// The command with two arguments more.
fn with_two<'a>(command: Command<'a>, one: Arg<'a>, two: Arg<'a>) -> Result<Command<'a>, AllocError>
    ensures { (app : App) (first second : Rule) → IsApp app command.entry → HasRule first one.entry → HasRule second two.entry
        → IfOk result (IsApp (with_rules app (first ∷ second ∷ []))) }
{
    command.arg(one)?.arg(two)
}

// The command line without its commands.
fn bare_line<'a>(alloc: Global) -> Command<'a>
    ensures { IsApp bare result }
{
    Command::new(alloc, "xarm")
        .version(
            "0.1.0\nlog: reads XARMLOG1 and XARMLOG2, writes XARMLOG2\nkit: rattle-kit-13 logic dac8208d650f15bf",
        )
        .about("A transactional key-value store: an XA resource manager")
        .subcommand_required(true)
}

fn check_command<'a>(alloc: Global) -> Result<Command<'a>, AllocError>
    ensures { IfOk result (HasShape check_shape) }
{
    Command::new(alloc, "check")
        .about("Tells what a log's two files are, and whether they are damaged")
        .after_help(
            "Example: xarm check bank.log\nStatus 0: a server opens what they have. 1: one is damaged, or they don't fit. 2: \
             they can't be read.",
        )
        .arg(first_path(alloc))?
        .arg(serve_log_bytes(alloc))
}

fn copy_command<'a>(alloc: Global) -> Result<Command<'a>, AllocError>
    ensures { IfOk result (HasShape copy_shape) }
{
    Command::new(alloc, "copy")
        .about("Copies a log whose server may run to two new files")
        .after_help(
            "Example: xarm copy bank.log backup/bank.log\nThe server isn't asked, and goes on. What it had answered when the \
             copy began is in the copy; with --follow, what it answered up to a tenth of a second ago.",
        )
        .arg(copy_path(alloc))?
        .arg(dest(alloc))?
        .arg(serve_log_bytes(alloc))?
        .arg(follow(alloc))
}

fn play_command<'a>(alloc: Global) -> Result<Command<'a>, AllocError>
    ensures { IfOk result (HasShape play_shape) }
{
    Command::new(alloc, "play")
        .about("Runs a script of calls from standard input and prints the replies")
        .after_help(
            "Example: xarm play < examples/first_branch.xa\nA script has at most 16777216 bytes.",
        )
        .arg(play_name(alloc))?
        .arg(log_bytes(alloc))
}

fn scan_command<'a>(alloc: Global) -> Result<Command<'a>, AllocError>
    ensures { IfOk result (HasShape scan_shape) }
{
    Command::new(alloc, "scan")
        .about("Prints the records of a log, one per line, and where the next one would begin")
        .after_help(
            "Example: xarm scan bank.log\nWith --format json each line is an object, which has the writes themselves.",
        )
        .arg(path(alloc))?
        .arg(format(alloc))
}

fn shutdown_command<'a>(alloc: Global) -> Result<Command<'a>, AllocError>
    ensures { IfOk result (HasShape shutdown_shape) }
{
    let command = Command::new(alloc, "shutdown")
        .about(
            "Ends a server once it has answered what was asked, and waits until it has closed the connection",
        )
        .after_help(
            "Example: xarm shutdown --port 4187\nStatus 0: it has closed the connection. 1: it takes no shutdown, as an \
             older one, or can't be reached.",
        );
    with_reach(alloc, command)
}

fn talk_command<'a>(alloc: Global) -> Result<Command<'a>, AllocError>
    ensures { IfOk result (HasShape talk_shape) }
{
    let command = Command::new(alloc, "talk")
        .about("Sends the calls of a script from standard input to a server and prints the replies")
        .after_help(
            "Example: xarm talk --port 4187\nEach connect opens a connection, at most 1024. \
             Each line is answered before the next one is read.",
        );
    with_reach(alloc, command)?
        .arg(names(alloc))?
        .arg(text(alloc))?
        .arg(strict(alloc))?
        .arg(talk_seconds(alloc))
}

fn tick_command<'a>(alloc: Global) -> Result<Command<'a>, AllocError>
    ensures { IfOk result (HasShape tick_shape) }
{
    let command = Command::new(alloc, "tick")
        .about("Sends a server the time, so that branches reach their time limits")
        .after_help(
            "Example: xarm tick --port 4187\nIt uses one of the server's connections, and runs until it is killed or the \
             server is gone.",
        );
    with_reach(alloc, command)?.arg(every(alloc))
}

fn user_command<'a>(alloc: Global) -> Result<Command<'a>, AllocError>
    ensures { IfOk result (HasShape user_shape) }
{
    Command::new(alloc, "user")
        .about("Adds a user to the file that says who may log in to a server")
        .after_help(
            "Example: xarm user add ada --role client --users users.toml\nThe secret is the first line of FILE, or of standard \
             input. The file of users has verifiers, never secrets.\nStatus 0: the user is added. 1: a fault.",
        )
        .arg(action(alloc))?
        .arg(user_name(alloc))?
        .arg(role(alloc))?
        .arg(to_users(alloc))?
        .arg(password_file(alloc))
}

fn serve_command<'a>(alloc: Global) -> Result<Command<'a>, AllocError>
    ensures { IfOk result (HasShape serve_shape) }
{
    let command = Command::new(alloc, "serve")
        .about(
            "Serves a resource manager on a port, a Unix socket or both, and prints ready for each once it can be reached",
        )
        .after_help("Example: xarm serve --log bank.log --name bank --port 4187");
    let command = with_service(alloc, command)?;
    with_conduct(alloc, command)
}

// The command with the arguments that say what is served, by how many loops, and where.
fn with_service<'a>(alloc: Global, command: Command<'a>) -> Result<Command<'a>, AllocError>
    ensures { (app : App) → IsApp app command.entry → IfOk result (IsApp (with_rules app service_rules)) }
{
    let command = with_served(alloc, command)?;
    let command = with_loops(alloc, command)?;
    with_places(alloc, command)
}

// The same with those that say whom it serves, and how it goes on.
fn with_conduct<'a>(alloc: Global, command: Command<'a>) -> Result<Command<'a>, AllocError>
    ensures { (app : App) → IsApp app command.entry → IfOk result (IsApp (with_rules app conduct_rules)) }
{
    let command = with_logins(alloc, command)?;
    let command = with_quiet(alloc, command)?;
    with_upkeep(alloc, command)
}

// The command with the arguments that say what is served, and on which port.
fn with_served<'a>(alloc: Global, command: Command<'a>) -> Result<Command<'a>, AllocError>
    ensures { (app : App) → IsApp app command.entry → IfOk result (IsApp (with_rules app served_rules)) }
{
    let command = with_two(command, log(alloc), name(alloc))?;
    with_two(command, port(alloc), serve_log_bytes(alloc))
}

// The same with those that say by how many loops, for how many connections, and whether that is audited.
fn with_loops<'a>(alloc: Global, command: Command<'a>) -> Result<Command<'a>, AllocError>
    ensures { (app : App) → IsApp app command.entry → IfOk result (IsApp (with_rules app loop_rules)) }
{
    let command = with_two(command, workers(alloc), audit(alloc))?;
    with_two(command, connections(alloc), loops(alloc))
}

// The same with those that say where it listens, apart from the port.
fn with_places<'a>(alloc: Global, command: Command<'a>) -> Result<Command<'a>, AllocError>
    ensures { (app : App) → IsApp app command.entry → IfOk result (IsApp (with_rules app place_rules)) }
{
    let command = with_two(command, listen(alloc), serve_socket(alloc))?;
    with_two(command, socket_mode(alloc), socket_group(alloc))
}

// The same with those that say who has to log in.
fn with_logins<'a>(alloc: Global, command: Command<'a>) -> Result<Command<'a>, AllocError>
    ensures { (app : App) → IsApp app command.entry → IfOk result (IsApp (with_rules app login_rules)) }
{
    command.arg(users(alloc))?.arg(open_to_all(alloc))
}

// The same with those that say for how long a connection may be quiet.
fn with_quiet<'a>(alloc: Global, command: Command<'a>) -> Result<Command<'a>, AllocError>
    ensures { (app : App) → IsApp app command.entry → IfOk result (IsApp (with_rules app quiet_rules)) }
{
    let command = with_two(command, frame_seconds(alloc), idle_seconds(alloc))?;
    command.arg(branch_seconds(alloc))
}

// The same with those that say what it does of its own accord, and when it ends.
fn with_upkeep<'a>(alloc: Global, command: Command<'a>) -> Result<Command<'a>, AllocError>
    ensures { (app : App) → IsApp app command.entry → IfOk result (IsApp (with_rules app upkeep_rules)) }
{
    let command = with_two(command, trim(alloc), tick(alloc))?;
    let command = with_two(command, exit_when_down(alloc), audit_out(alloc))?;
    command.arg(accept_damage(alloc))
}
