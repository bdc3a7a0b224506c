use thiserror::Error;

/// Which word of a command isn't as it has to be. Its text is what `xarm` prints.
#[derive(Clone, Copy, Debug, PartialEq, Eq, Error)]
pub enum Malformed {
    #[error("invalid value for '<XID>': it is a decimal format number, a colon, 1 to 64 bytes in lower case hexadecimal, a colon, and 0 to 64 such bytes, as 1:aa:bb")]
    Xid,
    #[error("invalid value for '<DIRECTION>': it is commit or rollback")]
    Direction,
    #[error("invalid value for '--name <NAME>': it is 1 to 255 bytes from ! to ~")]
    Name,
    #[error("invalid value for '--format <FORMAT>': it is text or json")]
    Format,
    #[error("invalid value for '--format <FORMAT>': it is text, json or prometheus")]
    StatusFormat,
    #[error("invalid value for '--socket-mode <MODE>': it is three or four octal digits, at most 0777")]
    SocketMode,
    #[error("invalid value for '<ACTION>': it is add")]
    Action,
    #[error("invalid value for '--role <ROLE>': it is monitor, client or operator")]
    Role,
}
