//! The program `xarm`, an XA resource manager.
//!
//! - `play` runs a script of calls on a resource manager in memory, and prints what each is answered
//! - `serve` serves a resource manager on a port, a Unix socket or both, by event loops, and audits it if that is asked for
//! - `talk` sends the calls of a script to a server, and prints the same
//! - `status`, `branches`, `recover`, `commit` and the like ask a server one thing; `tick` tells it the time, again and
//!   again; `shutdown` asks it to end
//! - `scan` prints the records of a log; `check` tells what its two files are; `copy` copies them, also while a server has them
//!
//! `xa_words` reads the command line, and does what it asks for, except to serve, which `xa_server` does.
#![tactic(auto)]

use std::io::IsTerminal;
use std::process::ExitCode;
use xa_commands::served;
use xa_server::serve;
use xa_words::{Ran, Terminals, given_words, run};

fn main(rt: HostRuntime) -> ExitCode {
    let words = given_words(&rt);
    let terminals = Terminals {
        input: rt.stdin().is_terminal(),
        errors: rt.stderr().is_terminal(),
    };
    match run(&rt, &words, terminals) {
        Ran::Ended(status) => status,
        Ran::Serves(service) => served(&rt, &serve(&rt, &service)),
    }
}
