//! The client's side of a login, with a server's bytes in memory: the exchange of RFC 7677, 3.
use crate::doors::{Sink, Source};
use crate::tests::rows::none_wrong;
use std::alloc::{AllocError, Global};
use xa_codes::{Detail, XAER_INVAL, XAER_RMERR};
use xa_rows::first_wrong;
use xa_scram::{Name, Nonce};
use xa_talk::{Connection, LoginFault, TalkFault, log_in};

/// A frame: its length, what comes first in it, and a text.
type Frame = (u8, &'static [u8], &'static [u8]);

const OPENING: Frame = (34, &[1, 74], b"n,,n=user,r=rOprNGfwEbeRWgbNEkqO");

const FINAL: Frame = (
    108,
    &[1, 75],
    b"c=biws,r=rOprNGfwEbeRWgbNEkqO%hvYDpWUa2RaTCAfuxFIlj)hNlF$k0,p=dHzbZapWIk4jUhN+Ute9ytag9zjfMHgsqmmiz7AndVQ=",
);

const CHALLENGE: Frame = (
    101,
    &[1, 0, 0, 0, 0, 0, 0, 0, 0, 0, 0, 0, 0, 0, 11],
    b"r=rOprNGfwEbeRWgbNEkqO%hvYDpWUa2RaTCAfuxFIlj)hNlF$k0,s=W22ZaJ0SNY7soEsUEjb6gQ==,i=4096",
);

/// The same, but the server's nonce doesn't begin with the client's.
const STRANGE_CHALLENGE: Frame = (
    101,
    &[1, 0, 0, 0, 0, 0, 0, 0, 0, 0, 0, 0, 0, 0, 11],
    b"r=rOprNGfwEbeRWgbNEkqP%hvYDpWUa2RaTCAfuxFIlj)hNlF$k0,s=W22ZaJ0SNY7soEsUEjb6gQ==,i=4096",
);

const WELCOME: Frame = (
    61,
    &[1, 0, 0, 0, 0, 0, 0, 0, 0, 0, 0, 0, 0, 0, 12],
    b"v=6rriTRBi23WpRR/wtup+mMhUZUn/dB5nLTJRsjl95G4=",
);

/// The same with one bit of the signature changed.
const STRANGE_WELCOME: Frame = (
    61,
    &[1, 0, 0, 0, 0, 0, 0, 0, 0, 0, 0, 0, 0, 0, 12],
    b"v=7rriTRBi23WpRR/wtup+mMhUZUn/dB5nLTJRsjl95G4=",
);

/// -5 Access.
const REFUSAL: Frame = (
    15,
    &[1, 255, 255, 255, 251, 8],
    &[0, 0, 0, 0, 0, 0, 0, 0, 0],
);

/// -5 Frame.
const NO_LOGINS: Frame = (
    15,
    &[1, 255, 255, 255, 251, 6],
    &[0, 0, 0, 0, 0, 0, 0, 0, 0],
);

/// What a server answers that does what it is asked.
const DONE: Frame = (15, &[1, 0, 0, 0, 0, 0], &[0, 0, 0, 0, 0, 0, 0, 0, 0]);

/// Frames one after the other.
fn bytes_of(alloc: Global, frames: &[Frame]) -> Result<Vec<u8>, AllocError> {
    let mut bytes = Vec::new(alloc);
    for (length, head, text) in frames {
        bytes.extend_from_slice(&[0, 0, 0, *length])?;
        bytes.extend_from_slice(head)?;
        bytes.extend_from_slice(text)?;
    }
    Ok(bytes)
}

/// How a login of `user` ends, with the secret `pencil`, and what it sends.
#[derive(Drop)]
struct Login {
    end: Result<(), LoginFault>,
    sent: Vec<u8>,
}

/// The server gives these bytes, and takes this many.
fn ended(alloc: Global, answers: &[u8], room: usize, fails: bool) -> Option<Login> {
    let name = Name::new(b"user")?;
    let nonce = Nonce::new(b"rOprNGfwEbeRWgbNEkqO")?;
    let mut connection = Connection {
        reader: Source {
            bytes: answers,
            step: 7,
            fails,
        },
        writer: Sink::new(alloc, room, 9, fails),
    };
    let end = log_in(alloc, &mut connection, &name, b"pencil", &nonce);
    let Connection {
        reader: _reader,
        writer,
    } = connection;
    Some(Login {
        end,
        sent: writer.taken,
    })
}

/// What a server answers, how the login ends, and which messages of the client are sent.
#[derive(Clone, Copy)]
struct Row {
    answers: &'static [Frame],
    end: Result<(), LoginFault>,
    messages: &'static [Frame],
}

const ROWS: [Row; 9] = [
    Row {
        answers: &[CHALLENGE, WELCOME],
        end: Ok(()),
        messages: &[OPENING, FINAL],
    },
    Row {
        answers: &[CHALLENGE, STRANGE_WELCOME],
        end: Err(LoginFault::Stranger),
        messages: &[OPENING, FINAL],
    },
    Row {
        answers: &[CHALLENGE, DONE],
        end: Err(LoginFault::Stranger),
        messages: &[OPENING, FINAL],
    },
    Row {
        answers: &[CHALLENGE, REFUSAL],
        end: Err(LoginFault::Refused(XAER_INVAL, Detail::Access)),
        messages: &[OPENING, FINAL],
    },
    Row {
        answers: &[NO_LOGINS, WELCOME],
        end: Err(LoginFault::Refused(XAER_INVAL, Detail::Frame)),
        messages: &[OPENING],
    },
    Row {
        answers: &[STRANGE_CHALLENGE, WELCOME],
        end: Err(LoginFault::NoChallenge),
        messages: &[OPENING],
    },
    Row {
        answers: &[WELCOME],
        end: Err(LoginFault::NoChallenge),
        messages: &[OPENING],
    },
    Row {
        answers: &[CHALLENGE],
        end: Err(LoginFault::Talk(TalkFault::Broken)),
        messages: &[OPENING, FINAL],
    },
    Row {
        answers: &[],
        end: Err(LoginFault::Talk(TalkFault::Broken)),
        messages: &[OPENING],
    },
];

fn is_row(alloc: Global, row: &Row) -> bool {
    let Ok(answers) = bytes_of(alloc, row.answers) else {
        return false;
    };
    let Ok(messages) = bytes_of(alloc, row.messages) else {
        return false;
    };
    match ended(alloc, answers.as_slice(), usize::MAX, false) {
        Some(ended) => ended.end == row.end && ended.sent.as_slice() == messages.as_slice(),
        None => false,
    }
}

fn wrong_row(alloc: Global, rows: &[Row]) -> Option<usize> {
    first_wrong(rows, |row| is_row(alloc, row))
}

/// A connection that breaks: how many bytes come, and how many go.
type Break = (usize, usize);

/// Before the first message, within it, before the challenge, within its length, its head and its text, before the last message,
/// within it, before the welcome, within its length, its head and its text.
const BREAKS: [Break; 12] = [
    (170, 0),
    (170, 37),
    (0, 180),
    (3, 180),
    (18, 180),
    (104, 180),
    (170, 38),
    (170, 149),
    (105, 180),
    (108, 180),
    (123, 180),
    (169, 180),
];

fn is_broken(alloc: Global, at: &Break, fails: bool) -> bool {
    let (come, go) = *at;
    let Ok(answers) = bytes_of(alloc, &[CHALLENGE, WELCOME]) else {
        return false;
    };
    let Ok(messages) = bytes_of(alloc, &[OPENING, FINAL]) else {
        return false;
    };
    let come = answers.as_slice().get(..come).unwrap_or(answers.as_slice());
    match ended(alloc, come, go, fails) {
        Some(ended) => {
            ended.end == Err(LoginFault::Talk(TalkFault::Broken))
                && messages.as_slice().starts_with(ended.sent.as_slice())
        }
        None => false,
    }
}

fn wrong_break(alloc: Global, breaks: &[Break]) -> Option<usize> {
    first_wrong(breaks, |at| {
        is_broken(alloc, at, false) && is_broken(alloc, at, true)
    })
}

/// A fault, and what an operator is told of it.
type Told = (LoginFault, &'static str);

const TOLD: [Told; 6] = [
    (
        LoginFault::Refused(XAER_INVAL, Detail::Access),
        "the server refuses the name or the secret",
    ),
    (
        LoginFault::Refused(XAER_INVAL, Detail::Frame),
        "the server takes no logins",
    ),
    (
        LoginFault::Refused(XAER_RMERR, Detail::Limit),
        "-3 XAER_RMERR Limit",
    ),
    (LoginFault::NoChallenge, "the server's challenge is none"),
    (
        LoginFault::Stranger,
        "the server doesn't know the secret's verifier: it isn't who it says",
    ),
    (LoginFault::Talk(TalkFault::Broken), "connection lost"),
];

fn is_told(alloc: Global, told: &Told) -> bool {
    let (fault, text) = *told;
    match format!(in alloc; "{fault}") {
        Ok(line) => line.as_str() == text,
        Err(_) => false,
    }
}

fn wrong_text(alloc: Global, told: &[Told]) -> Option<usize> {
    first_wrong(told, |row| is_told(alloc, row))
}

#[test]
fn logins(rt: HostRuntime) {
    none_wrong(&rt, wrong_row(rt.alloc(), &ROWS));
    none_wrong(&rt, wrong_break(rt.alloc(), &BREAKS));
    none_wrong(&rt, wrong_text(rt.alloc(), &TOLD));
}
