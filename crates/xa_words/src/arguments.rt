//! The arguments of the commands. The help names limits in texts of its own, and `.ci/commands` compares these with
//! the constants: a text that is made of a number would have to live as long as the words, since `clap` lends both alike.
ghost use Rattle.xa_words.specs.Line.{HasRule, accept_damage_rule, audit_rule, branch_seconds_rule, connections_rule, every_rule};
ghost use Rattle.xa_words.specs.Line.{audit_out_rule, dest_rule, exit_when_down_rule, follow_rule};
ghost use Rattle.xa_words.specs.Line.{frame_seconds_rule, idle_seconds_rule, listen_rule, log_bytes_rule};
ghost use Rattle.xa_words.specs.Line.{first_path_rule, log_rule, loops_rule, name_rule, names_rule, path_rule, play_name_rule};
ghost use Rattle.xa_words.specs.Line.{host_rule, strict_rule, text_rule};
ghost use Rattle.xa_words.specs.Line.{port_rule, serve_log_bytes_rule, socket_rule, tick_rule, trim_rule, workers_rule};

use clap::builder::ValueParser;
use clap::{Arg, ArgAction};
use std::alloc::Global;
use xa_limits::{LEAST_LOG, MOST_LOG};
use xa_service::{MOST_LOOPS, MOST_SERVED};
use xa_talk::MOST_EVERY;

/// The greatest number that a word may spell: `clap` reads numbers of 63 bits.
const MOST_NUMBER: u64 = 9_223_372_036_854_775_807;

/// The most seconds that a connection may be quiet inside a frame, if that has an end.
const MOST_FRAME_SECONDS: u64 = 3_600;

/// The most seconds that a connection may be quiet between frames, if that has an end: a day.
const MOST_IDLE_SECONDS: u64 = 86_400;

pub fn play_name<'a>(alloc: Global) -> Arg<'a>
    ensures { HasRule play_name_rule result }
{
    Arg::new(alloc, "name")
        .long("name")
        .value_name("NAME")
        .help("The name under which sessions open the resource manager: 0 to 255 bytes")
        .action(ArgAction::Set)
        .default_value("xarm")
}

pub fn log_bytes<'a>(alloc: Global) -> Arg<'a>
    ensures { HasRule log_bytes_rule result }
{
    Arg::new(alloc, "log-bytes")
        .long("log-bytes")
        .value_name("N")
        .help("The maximum size of each of the two log files, in bytes: 64 to 1073741824")
        .value_parser(ValueParser::unsigned(0, MOST_NUMBER))
        .action(ArgAction::Set)
        .default_value("1073741824")
}

pub fn path<'a>(alloc: Global) -> Arg<'a>
    ensures { HasRule path_rule result }
{
    Arg::new(alloc, "path")
        .value_name("PATH")
        .help(
            "One of the log's two files, of at most 1073741824 bytes. It is opened read-only, and refused while a server has it open",
        )
        .required(true)
        .action(ArgAction::Set)
}

pub fn first_path<'a>(alloc: Global) -> Arg<'a>
    ensures { HasRule first_path_rule result }
{
    Arg::new(alloc, "path")
        .value_name("PATH")
        .help(
            "The log's first file; the second one is PATH.2. Both are opened read-only, and refused while a server has them open",
        )
        .required(true)
        .action(ArgAction::Set)
}

pub fn copy_path<'a>(alloc: Global) -> Arg<'a>
    ensures { HasRule first_path_rule result }
{
    Arg::new(alloc, "path")
        .value_name("PATH")
        .help(
            "The log's first file; the second one is PATH.2. Both are only read, and may be in use",
        )
        .required(true)
        .action(ArgAction::Set)
}

pub fn dest<'a>(alloc: Global) -> Arg<'a>
    ensures { HasRule dest_rule result }
{
    Arg::new(alloc, "dest")
        .value_name("DEST")
        .help("The copy's first file; the second one is DEST.2. Neither may be there")
        .required(true)
        .action(ArgAction::Set)
}

pub fn names<'a>(alloc: Global) -> Arg<'a>
    ensures { HasRule names_rule result }
{
    Arg::new(alloc, "names")
        .long("names")
        .help("Prints the name of each code after its number, as in 104 XA_RBOTHER LogFull")
        .action(ArgAction::SetTrue)
}

pub fn text<'a>(alloc: Global) -> Arg<'a>
    ensures { HasRule text_rule result }
{
    Arg::new(alloc, "text")
        .long("text")
        .help(
            "Prints values as text in quotes, as they may be written in the script, and not in hexadecimal",
        )
        .action(ArgAction::SetTrue)
}

pub fn strict<'a>(alloc: Global) -> Arg<'a>
    ensures { HasRule strict_rule result }
{
    Arg::new(alloc, "strict")
        .long("strict")
        .help(
            "Ends with status 1 after the first reply that is an error: a code other than 0 and 3, but of a recover",
        )
        .action(ArgAction::SetTrue)
}

pub fn follow<'a>(alloc: Global) -> Arg<'a>
    ensures { HasRule follow_rule result }
{
    Arg::new(alloc, "follow")
        .long("follow")
        .help("Goes on: takes each record that the server appends, until it is ended")
        .action(ArgAction::SetTrue)
}

pub fn log<'a>(alloc: Global) -> Arg<'a>
    ensures { HasRule log_rule result }
{
    Arg::new(alloc, "log")
        .long("log")
        .value_name("PATH")
        .help("The log's first file; the second one is PATH.2. Missing files are created")
        .required(true)
        .action(ArgAction::Set)
}

pub fn serve_log_bytes<'a>(alloc: Global) -> Arg<'a>
    ensures { HasRule serve_log_bytes_rule result }
{
    Arg::new(alloc, "log-bytes")
        .long("log-bytes")
        .value_name("N")
        .help("The maximum size of each of the two log files, in bytes: 64 to 1073741824")
        .value_parser(ValueParser::unsigned(LEAST_LOG, MOST_LOG))
        .action(ArgAction::Set)
        .default_value("1073741824")
}

pub fn name<'a>(alloc: Global) -> Arg<'a>
    ensures { HasRule name_rule result }
{
    Arg::new(alloc, "name")
        .long("name")
        .value_name("NAME")
        .help("The name under which sessions open the resource manager: 0 to 255 bytes")
        .required(true)
        .action(ArgAction::Set)
}

pub fn loops<'a>(alloc: Global) -> Arg<'a>
    ensures { HasRule loops_rule result }
{
    Arg::new(alloc, "loops")
        .long("loops")
        .value_name("N")
        .help("The number of event-loop threads: 1 to 64. If not given, one per core, at most 4")
        .value_parser(ValueParser::unsigned(1, MOST_LOOPS))
        .action(ArgAction::Set)
}

pub fn workers<'a>(alloc: Global) -> Arg<'a>
    ensures { HasRule workers_rule result }
{
    Arg::new(alloc, "workers")
        .long("workers")
        .value_name("N")
        .help(
            "The number of event-loop threads, with --audit: 1 to 64. --trim and --tick are then 0 if not given",
        )
        .value_parser(ValueParser::unsigned(1, MOST_LOOPS))
        .action(ArgAction::Set)
}

pub fn audit<'a>(alloc: Global) -> Arg<'a>
    ensures { HasRule audit_rule result }
{
    Arg::new(alloc, "audit")
        .long("audit")
        .help("Keeps the whole history in memory, and audits at the end what clients were answered")
        .action(ArgAction::SetTrue)
}

pub fn audit_out<'a>(alloc: Global) -> Arg<'a>
    ensures { HasRule audit_out_rule result }
{
    Arg::new(alloc, "audit-out")
        .long("audit-out")
        .value_name("PATH")
        .help(
            "Audits, and at the end writes the history to a new file, as a script, and its replies to a second one, PATH.out",
        )
        .action(ArgAction::Set)
}

pub fn connections<'a>(alloc: Global) -> Arg<'a>
    ensures { HasRule connections_rule result }
{
    Arg::new(alloc, "connections")
        .long("connections")
        .value_name("C")
        .help(
            "The number of connections after which the server exits: 1 to 1000000. If not given, no limit; 1000000 with --workers",
        )
        .value_parser(ValueParser::unsigned(1, MOST_SERVED))
        .action(ArgAction::Set)
}

pub fn listen<'a>(alloc: Global) -> Arg<'a>
    ensures { HasRule listen_rule result }
{
    Arg::new(alloc, "listen")
        .long("listen")
        .value_name("ADDR")
        .help(
            "The address to listen on. One that other machines may reach needs --users or --open-to-all",
        )
        .action(ArgAction::Set)
        .default_value("127.0.0.1")
}

pub fn frame_seconds<'a>(alloc: Global) -> Arg<'a>
    ensures { HasRule frame_seconds_rule result }
{
    Arg::new(alloc, "frame-seconds")
        .long("frame-seconds")
        .value_name("S")
        .help(
            "Closes a connection that has stopped inside a frame for S seconds: 0 (never) to 3600",
        )
        .value_parser(ValueParser::unsigned(0, MOST_FRAME_SECONDS))
        .action(ArgAction::Set)
        .default_value("30")
}

pub fn idle_seconds<'a>(alloc: Global) -> Arg<'a>
    ensures { HasRule idle_seconds_rule result }
{
    Arg::new(alloc, "idle-seconds")
        .long("idle-seconds")
        .value_name("S")
        .help(
            "Closes a connection that has been quiet for S seconds, unless its session has an active or suspended association with a branch that isn't marked: 0 (never) to 86400",
        )
        .value_parser(ValueParser::unsigned(0, MOST_IDLE_SECONDS))
        .action(ArgAction::Set)
        .default_value("0")
}

pub fn branch_seconds<'a>(alloc: Global) -> Arg<'a>
    ensures { HasRule branch_seconds_rule result }
{
    Arg::new(alloc, "branch-seconds")
        .long("branch-seconds")
        .value_name("S")
        .help(
            "Closes a connection that has been quiet for S seconds, if its session has an active or suspended association: 0 (never) to 86400",
        )
        .value_parser(ValueParser::unsigned(0, MOST_IDLE_SECONDS))
        .action(ArgAction::Set)
        .default_value("0")
}

pub fn trim<'a>(alloc: Global) -> Arg<'a>
    ensures { HasRule trim_rule result }
{
    Arg::new(alloc, "trim")
        .long("trim")
        .value_name("BYTES")
        .help(
            "Trims the log when it ends above this many bytes: 0 (never) to 1073741824. If that is above half of --log-bytes, a quarter of --log-bytes is used",
        )
        .value_parser(ValueParser::unsigned(0, MOST_LOG))
        .action(ArgAction::Set)
        .default_value("67108864")
}

pub fn tick<'a>(alloc: Global) -> Arg<'a>
    ensures { HasRule tick_rule result }
{
    Arg::new(alloc, "tick")
        .long("tick")
        .value_name("S")
        .help(
            "Tells the resource manager the time every S seconds, for time limits: 0 (never; run xarm tick) to 3600",
        )
        .value_parser(ValueParser::unsigned(0, MOST_EVERY))
        .action(ArgAction::Set)
        .default_value("1")
}

pub fn exit_when_down<'a>(alloc: Global) -> Arg<'a>
    ensures { HasRule exit_when_down_rule result }
{
    Arg::new(alloc, "exit-when-down")
        .long("exit-when-down")
        .help("Exits with status 1 when the resource manager goes down")
        .action(ArgAction::SetTrue)
}

pub fn accept_damage<'a>(alloc: Global) -> Arg<'a>
    ensures { HasRule accept_damage_rule result }
{
    Arg::new(alloc, "accept-damage")
        .long("accept-damage")
        .help(
            "Opens what stands of a damaged log, and leaves out the rest. First both files are copied: to PATH.damaged-1 and PATH.2.damaged-1, or the next free number",
        )
        .action(ArgAction::SetTrue)
}

pub fn port<'a>(alloc: Global) -> Arg<'a>
    ensures { HasRule port_rule result }
{
    Arg::new(alloc, "port")
        .long("port")
        .value_name("P")
        .help("The TCP port: 1 to 65535")
        .value_parser(ValueParser::unsigned(1, u64::from(u16::MAX)))
        .action(ArgAction::Set)
}

pub fn host<'a>(alloc: Global) -> Arg<'a>
    ensures { HasRule host_rule result }
{
    Arg::new(alloc, "host")
        .long("host")
        .value_name("ADDR")
        .help("The server's address, or a name that has one")
        .action(ArgAction::Set)
        .default_value("127.0.0.1")
}

pub fn socket<'a>(alloc: Global) -> Arg<'a>
    ensures { HasRule socket_rule result }
{
    Arg::new(alloc, "socket")
        .long("socket")
        .value_name("PATH")
        .help("A Unix socket to use instead of the port")
        .action(ArgAction::Set)
}

pub fn serve_socket<'a>(alloc: Global) -> Arg<'a>
    ensures { HasRule socket_rule result }
{
    Arg::new(alloc, "socket")
        .long("socket")
        .value_name("PATH")
        .help(
            "A Unix socket to use beside the port, or instead of it. The last 4 of 1023 connections are for it, or without it for loopback addresses",
        )
        .action(ArgAction::Set)
}

pub fn every<'a>(alloc: Global) -> Arg<'a>
    ensures { HasRule every_rule result }
{
    Arg::new(alloc, "every")
        .long("every")
        .value_name("S")
        .help("The number of seconds between two ticks: 1 to 3600")
        .value_parser(ValueParser::unsigned(1, MOST_EVERY))
        .action(ArgAction::Set)
        .default_value("1")
}
