//! What the words of a command line ask for.
ghost use Rattle.std.specs.Prelude.{◌≡◌, IfOk, IsSomeAnd, Some, codes, map, option_map, string_bytes};
ghost use Rattle.clap.specs.{Faults.fault_of, Kinds.FailsBy, Matches.found_of, Simple.subcommand_of, Simple.subcommand_rows_of};
ghost use Rattle.clap.specs.Walk.{first_of, one_of, rows_of};
ghost use Rattle.xa_words.specs.Asks.{AsksBy, AsksOf, IsCommand, IsOther, IsReachIn, IsSet, most_16, most_64, number_in, text_in};
ghost use Rattle.xa_words.specs.Line.{xarm};
ghost use Rattle.xa_words.specs.Logins.{is_addition};
ghost use Rattle.xa_words.specs.Serving.{IsAtIn, IsServiceIn, gives_workers, mode_in, own_number_in, workers_in};

use crate::asked::Asked;
use crate::given::is_given;
use crate::line::command_line;
use crate::malformed::Malformed;
use crate::mode::read_mode;
use crate::operator::{operator_of, read_format};
use crate::verb::read_verb;
use clap::{ArgMatches, Error};
use std::alloc::Global;
use xa_commands::Reach;
use xa_limits::MOST_LOG;
use xa_roles::Role;
use xa_script::Style;
use xa_service::{At, MOST_SERVED, Service};

/// What the words of a command line ask for, the program's name first.
pub fn read_words<'a>(alloc: Global, words: &'a [String]) -> Result<Asked<'a>, Error>
    ensures fails { FailsBy (fault_of xarm (map string_bytes words.now)) result }
    ensures asks { IfOk result (AsksOf (subcommand_of xarm (map string_bytes words.now))) }
{
    match command_line(alloc)?.try_get_matches_from(words) {
        Ok(matches) => Ok(read_matches(&matches)),
        Err(fault) => Err(fault),
    }
}

// What the words that a command takes ask for. `clap` has refused a word that is missing or out of its range.
fn read_matches<'a>(matches: &ArgMatches<'a>) -> Asked<'a>
    requires { IsSomeAnd (subcommand_rows_of matches.now) (λ found. IsCommand found.0) }
    ensures { AsksOf (subcommand_rows_of matches.now) result }
{
    match matches.subcommand() {
        Some((command, found)) => read_command(command, found),
        None => Asked::Play {
            name: "xarm",
            log_bytes: MOST_LOG,
        },
    }
}

fn read_command<'a>(command: &str, matches: &ArgMatches<'a>) -> Asked<'a>
    requires { IsCommand command.now }
    ensures { AsksBy command.now (rows_of (found_of matches.now)) result }
{
    match read_verb(command) {
        Some(verb) => operator_of(verb, matches),
        None => read_other(command, matches),
    }
}

fn read_other<'a>(command: &str, matches: &ArgMatches<'a>) -> Asked<'a>
    requires { IsOther command.now }
    ensures { AsksBy command.now (rows_of (found_of matches.now)) result }
{
    match command {
        "check" => Asked::Check {
            path: text_of(matches, "path", ""),
            log_bytes: number_of(matches, "log-bytes", MOST_LOG),
        },
        "copy" => Asked::Copy {
            path: text_of(matches, "path", ""),
            to: text_of(matches, "dest", ""),
            log_bytes: number_of(matches, "log-bytes", MOST_LOG),
            follows: flag_of(matches, "follow"),
        },
        "scan" => scan_of(matches),
        "serve" => serve_of(matches),
        "shutdown" => shutdown_of(matches),
        "talk" => talk_of(matches),
        "tick" => tick_of(matches),
        "user" => new_user_of(matches),
        _ => play_of(matches),
    }
}

fn play_of<'a>(matches: &ArgMatches<'a>) -> Asked<'a>
    ensures { AsksBy (codes "play") (rows_of (found_of matches.now)) result }
{
    Asked::Play {
        name: text_of(matches, "name", "xarm"),
        log_bytes: number_of(matches, "log-bytes", MOST_LOG),
    }
}

fn scan_of<'a>(matches: &ArgMatches<'a>) -> Asked<'a>
    ensures { AsksBy (codes "scan") (rows_of (found_of matches.now)) result }
{
    match read_format(text_of(matches, "format", "text")) {
        Some(format) => Asked::Scan {
            path: text_of(matches, "path", ""),
            format,
        },
        None => Asked::Malformed(Malformed::Format),
    }
}

fn serve_of<'a>(matches: &ArgMatches<'a>) -> Asked<'a>
    ensures { AsksBy (codes "serve") (rows_of (found_of matches.now)) result }
{
    let workers = number_of(matches, "workers", 0);
    if workers != 0 && is_given(matches, "loops") {
        return Asked::Conflict;
    }
    let Some(mode) = read_mode(text_of(matches, "socket-mode", "0600")) else {
        return Asked::Malformed(Malformed::SocketMode);
    };
    match at_of(matches) {
        Some(at) => Asked::Serve {
            service: service_of(matches, at, workers, mode),
            accepts_damage: flag_of(matches, "accept-damage"),
        },
        None => Asked::Nowhere,
    }
}

// What is to be served at this place, by the number of workers, 0 if none is given: with workers as many loops, and an
// audit; and by a Unix socket with these permissions.
fn service_of<'a>(matches: &ArgMatches<'a>, at: At<'a>, workers: u64, mode: u32) -> Service<'a>
    requires at { IsAtIn (rows_of (found_of matches.now)) (Some at) }
    requires workers { workers ≡ workers_in (rows_of (found_of matches.now)) }
    requires mode { mode_in (rows_of (found_of matches.now)) ≡ Some mode }
    ensures { IsServiceIn (rows_of (found_of matches.now)) result }
{
    let has_workers = workers != 0;
    let is_audited = flag_of(matches, "audit");
    let history = optional_text_of(matches, "audit-out");
    Service {
        path: text_of(matches, "log", ""),
        name: text_of(matches, "name", ""),
        at,
        log_bytes: number_of(matches, "log-bytes", MOST_LOG),
        loops: if has_workers {
            workers
        } else {
            number_of(matches, "loops", 0)
        },
        connections: number_of(
            matches,
            "connections",
            if has_workers { MOST_SERVED } else { 0 },
        ),
        frame_seconds: number_of(matches, "frame-seconds", 30),
        idle_seconds: number_of(matches, "idle-seconds", 0),
        branch_seconds: number_of(matches, "branch-seconds", 0),
        trim_bytes: own_number_of(matches, has_workers, "trim", 67_108_864),
        tick_seconds: own_number_of(matches, has_workers, "tick", 1),
        ends_when_down: flag_of(matches, "exit-when-down"),
        audits: is_audited || has_workers || history.is_some(),
        history,
        users: optional_text_of(matches, "users"),
        opens_to_all: flag_of(matches, "open-to-all"),
        socket_mode: mode,
        socket_group: optional_text_of(matches, "socket-group"),
    }
}

// By which number a server calls its manager of its own accord: with workers 0, unless the words give it.
fn own_number_of(matches: &ArgMatches<'_>, has_workers: bool, id: &str, absent: u64) -> u64
    requires { has_workers ≡ gives_workers (rows_of (found_of matches.now)) }
    ensures { result ≡ own_number_in (rows_of (found_of matches.now)) id.now absent }
{
    if has_workers && !is_given(matches, id) {
        0
    } else {
        number_of(matches, id, absent)
    }
}

fn talk_of<'a>(matches: &ArgMatches<'a>) -> Asked<'a>
    ensures { AsksBy (codes "talk") (rows_of (found_of matches.now)) result }
{
    let Some(reach) = reach_of(matches) else {
        return Asked::Nowhere;
    };
    Asked::Talk {
        reach,
        user: optional_text_of(matches, "user"),
        seconds: number_of(matches, "seconds", 0),
        style: Style {
            has_names: flag_of(matches, "names"),
            has_texts: flag_of(matches, "text"),
        },
        is_strict: flag_of(matches, "strict"),
    }
}

fn tick_of<'a>(matches: &ArgMatches<'a>) -> Asked<'a>
    ensures { AsksBy (codes "tick") (rows_of (found_of matches.now)) result }
{
    let user = optional_text_of(matches, "user");
    let every = number_of(matches, "every", 1);
    match reach_of(matches) {
        Some(reach) => Asked::Tick { reach, user, every },
        None => Asked::Nowhere,
    }
}

fn shutdown_of<'a>(matches: &ArgMatches<'a>) -> Asked<'a>
    ensures { AsksBy (codes "shutdown") (rows_of (found_of matches.now)) result }
{
    let user = optional_text_of(matches, "user");
    match reach_of(matches) {
        Some(reach) => Asked::Shutdown { reach, user },
        None => Asked::Nowhere,
    }
}

// Who is to be added to those who may log in.
fn new_user_of<'a>(matches: &ArgMatches<'a>) -> Asked<'a>
    ensures { AsksBy (codes "user") (rows_of (found_of matches.now)) result }
{
    if !is_addition(matches) {
        return Asked::Malformed(Malformed::Action);
    }
    match Role::of_text(text_of(matches, "role", "")) {
        Some(role) => Asked::AddUser {
            path: text_of(matches, "users", ""),
            name: text_of(matches, "name", ""),
            role,
            secret: optional_text_of(matches, "password-file"),
        },
        None => Asked::Malformed(Malformed::Role),
    }
}

fn is_addition(matches: &ArgMatches<'_>) -> bool
    ensures { result ≡ is_addition (rows_of (found_of matches.now)) }
{
    text_of(matches, "action", "") == "add"
}

// Where a server is to listen: at the path and on the port, as they are given.
fn at_of<'a>(matches: &ArgMatches<'a>) -> Option<At<'a>>
    ensures { IsAtIn (rows_of (found_of matches.now)) result }
{
    let port = port_of(matches);
    let address = text_of(matches, "listen", "127.0.0.1");
    match optional_text_of(matches, "socket") {
        Some(path) if port == 0 => Some(At::Socket(path)),
        Some(path) => Some(At::Both {
            address,
            port,
            path,
        }),
        None if port == 0 => None,
        None => Some(At::Port { address, port }),
    }
}

// How a server is to be reached: at the path, if one is given, else on the port.
pub(crate) fn reach_of<'a>(matches: &ArgMatches<'a>) -> Option<Reach<'a>>
    ensures { IsReachIn (rows_of (found_of matches.now)) result }
{
    if let Some(path) = optional_text_of(matches, "socket") {
        return Some(Reach::Socket(path));
    }
    let port = port_of(matches);
    let host = text_of(matches, "host", "127.0.0.1");
    if port == 0 {
        None
    } else {
        Some(Reach::Port { host, port })
    }
}

pub(crate) fn optional_text_of<'a>(matches: &ArgMatches<'a>, id: &str) -> Option<&'a str>
    ensures { option_map (λ text. text.now) result ≡ first_of id.now (rows_of (found_of matches.now)) }
{
    matches.get_str(id)
}

pub(crate) fn flag_of(matches: &ArgMatches<'_>, id: &str) -> bool
    ensures { IsSet (one_of id.now (rows_of (found_of matches.now))) result }
{
    matches.get_flag(id)
}

pub(crate) fn text_of<'a>(matches: &ArgMatches<'a>, id: &str, absent: &'a str) -> &'a str
    ensures { result.now ≡ text_in (rows_of (found_of matches.now)) id.now absent.entry.now }
{
    matches.get_str(id).unwrap_or(absent)
}

pub(crate) fn number_of(matches: &ArgMatches<'_>, id: &str, absent: u64) -> u64
    ensures { result ≡ number_in (rows_of (found_of matches.now)) id.now most_64 absent }
{
    matches.get_one(id).unwrap_or(absent)
}

fn port_of(matches: &ArgMatches<'_>) -> u16
    ensures { result ≡ number_in (rows_of (found_of matches.now)) (codes "port") most_16 0 }
{
    matches.get_one("port").unwrap_or(0)
}
