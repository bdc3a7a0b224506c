use crate::fault::TalkFault;
use std::error::Error;
use std::fmt;
use xa_codes::{Code, Detail, code_name};

/// Why a client isn't logged in. Its text is what `xarm` prints after its name.
#[derive(Clone, Copy, Debug, PartialEq, Eq)]
pub enum LoginFault {
    /// The server refused a message of the login so.
    Refused(Code, Detail),
    /// What came is no challenge to what the client opened with, nor a refusal.
    NoChallenge,
    /// What came last isn't what a server says that keeps a verifier of the secret, nor a refusal.
    Stranger,
    /// The connection broke, or brought what is no answer; or memory ran out.
    Talk(TalkFault),
}

impl fmt::Display for LoginFault {
    fn fmt<W: fmt::Write>(&self, f: &mut fmt::Formatter<W>) -> fmt::Result {
        match self {
            LoginFault::Refused(_, Detail::Access) => {
                f.write_str("the server refuses the name or the secret")
            }
            LoginFault::Refused(_, Detail::Frame) => f.write_str("the server takes no logins"),
            LoginFault::Refused(code, Detail::Nothing) => write!(f, "{code} {}", code_name(*code)),
            LoginFault::Refused(code, detail) => {
                write!(f, "{code} {} {detail:?}", code_name(*code))
            }
            LoginFault::NoChallenge => f.write_str("the server's challenge is none"),
            LoginFault::Stranger => f.write_str(
                "the server doesn't know the secret's verifier: it isn't who it says",
            ),
            LoginFault::Talk(fault) => write!(f, "{fault}"),
        }
    }
}

impl Error for LoginFault {}
