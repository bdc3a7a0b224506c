//! The arguments of an operator's commands, and how long a talk waits.
ghost use Rattle.xa_words.specs.Line.{HasRule, direction_rule, format_rule, play_name_rule, print_script_rule, seconds_rule};
ghost use Rattle.xa_words.specs.Line.{session_rule, talk_seconds_rule, xid_rule, yes_rule};

use clap::builder::ValueParser;
use clap::{Arg, ArgAction};
use std::alloc::Global;

/// The most seconds that an answer may be waited for.
const MOST_SECONDS: u64 = 3_600;

pub fn direction<'a>(alloc: Global) -> Arg<'a>
    ensures { HasRule direction_rule result }
{
    Arg::new(alloc, "direction")
        .value_name("DIRECTION")
        .help("What becomes of the branch: commit or rollback")
        .required(true)
        .action(ArgAction::Set)
}

pub fn xid<'a>(alloc: Global) -> Arg<'a>
    ensures { HasRule xid_rule result }
{
    Arg::new(alloc, "xid")
        .value_name("XID")
        .help(
            "The branch, as 1:aa:bb: its format number in decimal, and both parts of its XID in lower case hexadecimal",
        )
        .required(true)
        .action(ArgAction::Set)
}

pub fn session<'a>(alloc: Global) -> Arg<'a>
    ensures { HasRule session_rule result }
{
    Arg::new(alloc, "session")
        .value_name("SESSION")
        .help("The session, by its number: 1 to 18446744073709551615")
        .value_parser(ValueParser::unsigned(1, u64::MAX))
        .required(true)
        .action(ArgAction::Set)
}

pub fn open_name<'a>(alloc: Global) -> Arg<'a>
    ensures { HasRule play_name_rule result }
{
    Arg::new(alloc, "name")
        .long("name")
        .value_name("NAME")
        .help("The name under which the resource manager is opened: 1 to 255 bytes from ! to ~")
        .action(ArgAction::Set)
        .default_value("xarm")
}

pub fn seconds<'a>(alloc: Global) -> Arg<'a>
    ensures { HasRule seconds_rule result }
{
    Arg::new(alloc, "seconds")
        .long("seconds")
        .value_name("S")
        .help("How many seconds each answer is waited for: 1 to 3600")
        .value_parser(ValueParser::unsigned(1, MOST_SECONDS))
        .action(ArgAction::Set)
        .default_value("10")
}

pub fn talk_seconds<'a>(alloc: Global) -> Arg<'a>
    ensures { HasRule talk_seconds_rule result }
{
    Arg::new(alloc, "seconds")
        .long("seconds")
        .value_name("S")
        .help("How many seconds each answer is waited for: 0 (without end) to 3600")
        .value_parser(ValueParser::unsigned(0, MOST_SECONDS))
        .action(ArgAction::Set)
        .default_value("0")
}

pub fn format<'a>(alloc: Global) -> Arg<'a>
    ensures { HasRule format_rule result }
{
    Arg::new(alloc, "format")
        .long("format")
        .value_name("FORMAT")
        .help("How it is printed: text, or json, an object a line")
        .action(ArgAction::Set)
        .default_value("text")
}

/// The same of a status.
pub fn status_format<'a>(alloc: Global) -> Arg<'a>
    ensures { HasRule format_rule result }
{
    Arg::new(alloc, "format")
        .long("format")
        .value_name("FORMAT")
        .help(
            "How it is printed: text, or json, an object a line, or prometheus, its text format 0.0.4",
        )
        .action(ArgAction::Set)
        .default_value("text")
}

pub fn print_script<'a>(alloc: Global) -> Arg<'a>
    ensures { HasRule print_script_rule result }
{
    Arg::new(alloc, "print-script")
        .long("print-script")
        .help("Prints the script of xarm talk that asks the same, and does nothing else")
        .action(ArgAction::SetTrue)
}

pub fn yes<'a>(alloc: Global) -> Arg<'a>
    ensures { HasRule yes_rule result }
{
    Arg::new(alloc, "yes")
        .long("yes")
        .help(
            "Does it, which can't be taken back; without it, it is asked on a terminal whether to, and else told what would be done",
        )
        .action(ArgAction::SetTrue)
}
