use std::process::ExitCode;
use xa_service::Service;

/// What a command line came to: a status, or a server that is to run.
#[derive(Debug, Drop)]
pub enum Ran<'a> {
    Ended(ExitCode),
    Serves(Service<'a>),
}
