//! The arguments about who may ask a server: who may log in and who may connect, and who logs in.
ghost use Rattle.xa_words.specs.Line.{HasRule, action_rule, open_to_all_rule, password_file_rule, role_rule, socket_group_rule};
ghost use Rattle.xa_words.specs.Line.{socket_mode_rule, to_users_rule, user_name_rule, user_rule, users_rule};

use clap::{Arg, ArgAction};
use std::alloc::Global;

pub fn user<'a>(alloc: Global) -> Arg<'a>
    ensures { HasRule user_rule result }
{
    Arg::new(alloc, "user")
        .long("user")
        .value_name("NAME")
        .help(
            "Logs in under this name, by the first line of the file that the environment variable XARM_PASSWORD_FILE names, or by what is typed",
        )
        .action(ArgAction::Set)
}

pub fn users<'a>(alloc: Global) -> Arg<'a>
    ensures { HasRule users_rule result }
{
    Arg::new(alloc, "users")
        .long("users")
        .value_name("PATH")
        .help(
            "The file that says who may log in, and with which role. If not given, whoever can connect can do anything",
        )
        .action(ArgAction::Set)
}

pub fn open_to_all<'a>(alloc: Global) -> Arg<'a>
    ensures { HasRule open_to_all_rule result }
{
    Arg::new(alloc, "open-to-all")
        .long("open-to-all")
        .help(
            "Listens also without --users at an address that other machines may reach: whoever does can do anything",
        )
        .action(ArgAction::SetTrue)
}

pub fn socket_mode<'a>(alloc: Global) -> Arg<'a>
    ensures { HasRule socket_mode_rule result }
{
    Arg::new(alloc, "socket-mode")
        .long("socket-mode")
        .value_name("MODE")
        .help(
            "The permissions of the Unix socket, as three or four octal digits, at most 0777: by 0600 only its owner and root connect",
        )
        .action(ArgAction::Set)
        .default_value("0600")
}

pub fn socket_group<'a>(alloc: Global) -> Arg<'a>
    ensures { HasRule socket_group_rule result }
{
    Arg::new(alloc, "socket-group")
        .long("socket-group")
        .value_name("GROUP")
        .help(
            "The group of the Unix socket, by its name or number. If not given, that of the server's user",
        )
        .action(ArgAction::Set)
}

/// What is to become of a user.
pub fn action<'a>(alloc: Global) -> Arg<'a>
    ensures { HasRule action_rule result }
{
    Arg::new(alloc, "action")
        .value_name("ACTION")
        .help("What to do with the user: add")
        .required(true)
        .action(ArgAction::Set)
}

pub fn user_name<'a>(alloc: Global) -> Arg<'a>
    ensures { HasRule user_name_rule result }
{
    Arg::new(alloc, "name")
        .value_name("NAME")
        .help("The user's name: 1 to 64 letters, digits, '-', '_', '.' and '@'")
        .required(true)
        .action(ArgAction::Set)
}

pub fn role<'a>(alloc: Global) -> Arg<'a>
    ensures { HasRule role_rule result }
{
    Arg::new(alloc, "role")
        .long("role")
        .value_name("ROLE")
        .help("What the user may ask a server: monitor, client or operator")
        .required(true)
        .action(ArgAction::Set)
}

/// The file to which a user is added.
pub fn to_users<'a>(alloc: Global) -> Arg<'a>
    ensures { HasRule to_users_rule result }
{
    Arg::new(alloc, "users")
        .long("users")
        .value_name("PATH")
        .help("The file that says who may log in. A missing one is created")
        .required(true)
        .action(ArgAction::Set)
}

pub fn password_file<'a>(alloc: Global) -> Arg<'a>
    ensures { HasRule password_file_rule result }
{
    Arg::new(alloc, "password-file")
        .long("password-file")
        .value_name("FILE")
        .help("The file whose first line is the secret. If not given, standard input is read")
        .action(ArgAction::Set)
}
