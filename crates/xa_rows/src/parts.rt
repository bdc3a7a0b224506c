/// A line of a script, and the reply that it shows: none if that is empty.
pub type Line = (&'static str, &'static str);

/// What is played: parts of a script, one after another.
pub type Play = &'static [&'static [Line]];

pub const OK: &str = "0 Nothing";

/// One session.
pub const P1: [Line; 2] = [
    ("connect", "0 Nothing number 1"),
    ("1 open TMNOFLAGS xarm", OK),
];

pub const NONE_LISTED: [Line; 1] = [("1 recover TMSTARTRSCAN|TMENDRSCAN 10", "0 Nothing xids")];

pub const RESTART: [Line; 1] = [("1 restart", OK)];
