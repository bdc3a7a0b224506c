ghost use Rattle.std.specs.Int.{to_be_bytes, w64};
ghost use Rattle.std.specs.Prelude.{◌≡◌, ◌<◌, ◌^◌, ◌++◌, All, OnOk};
ghost use Rattle.std.specs.List.{flat_map};
ghost use Rattle.xa_control.specs.Answers.{HoldsAnswer, IsAnswer, bytes_of_answer};
ghost use Rattle.xa_frame.specs.Spelling.{counted_bytes};

use crate::hello::{Hello, put_hello};
use crate::message::{Message, put_message};
use crate::numbers::Numbers;
use std::alloc::AllocError;
use xa_bytes::{put_u16, put_u64};
use xa_codes::{Code, Detail, XA_OK};
use xa_frame::{Reply, put_reply};

/// What a server answers.
#[derive(Debug, Drop)]
pub enum Answer {
    /// It has done it.
    Done,
    /// It hasn't: why, by a code other than 0 and a detail.
    Refused(Code, Detail),
    /// What it speaks.
    Hello(Hello),
    /// What it has counted.
    Metrics(Numbers),
    /// The sessions that were asked for.
    Sessions(Numbers),
    /// What a login goes on with: the server-first-message (RFC 7677).
    Challenge(Message),
    /// The login is done: the server-final-message, by which the server proves itself to the client (RFC 5802).
    Welcome(Message),
}

/// What the content of a hello begins with: the version, code 0, detail 0, place 0, the kind.
pub(crate) const GREETED: [u8; 15] = [1, 0, 0, 0, 0, 0, 0, 0, 0, 0, 0, 0, 0, 0, 8];

/// The same of what was counted.
pub(crate) const COUNTED: [u8; 15] = [1, 0, 0, 0, 0, 0, 0, 0, 0, 0, 0, 0, 0, 0, 9];

/// The same of sessions.
pub(crate) const LISTED: [u8; 15] = [1, 0, 0, 0, 0, 0, 0, 0, 0, 0, 0, 0, 0, 0, 10];

/// The same of what a login goes on with.
pub(crate) const CHALLENGED: [u8; 15] = [1, 0, 0, 0, 0, 0, 0, 0, 0, 0, 0, 0, 0, 0, 11];

/// The same of a login that is done.
pub(crate) const WELCOMED: [u8; 15] = [1, 0, 0, 0, 0, 0, 0, 0, 0, 0, 0, 0, 0, 0, 12];

fn put_numbers(out: &mut Vec<u8>, numbers: &[u64]) -> Result<(), AllocError>
    ensures bytes { OnOk result (out.new.items ≡ out.old.items ++ flat_map (to_be_bytes w64) numbers.now) }
    ensures holds { OnOk result (All (λ n. n < 2 ^ 64) numbers.now) }
{
    for number in numbers {
        put_u64(out, *number)?;
    }
    Ok(())
}

// The numbers, after how many they are.
fn put_counted(out: &mut Vec<u8>, numbers: &Numbers) -> Result<(), AllocError>
    ensures bytes { OnOk result (out.new.items ≡ out.old.items ++ counted_bytes (to_be_bytes w64) numbers.now) }
    ensures holds { OnOk result (All (λ n. n < 2 ^ 64) numbers.now) }
{
    let numbers = numbers.as_slice();
    put_u16(out, numbers.len() as u16)?;
    put_numbers(out, numbers)
}

/// Appends the content that spells the answer.
pub fn put_answer(out: &mut Vec<u8>, answer: &Answer) -> Result<(), AllocError>
    requires { IsAnswer answer.now }
    ensures bytes { OnOk result (out.new.items ≡ out.old.items ++ bytes_of_answer answer.now) }
    ensures holds { OnOk result (HoldsAnswer answer.now) }
{
    match answer {
        Answer::Done => put_reply(out, &Reply::detailed(XA_OK, Detail::Nothing)),
        Answer::Refused(code, detail) => put_reply(out, &Reply::detailed(*code, *detail)),
        Answer::Hello(hello) => {
            out.extend_from_slice(&GREETED)?;
            put_hello(out, *hello)
        }
        Answer::Metrics(metrics) => {
            out.extend_from_slice(&COUNTED)?;
            put_counted(out, metrics)
        }
        Answer::Sessions(sessions) => {
            out.extend_from_slice(&LISTED)?;
            put_counted(out, sessions)
        }
        Answer::Challenge(message) => {
            out.extend_from_slice(&CHALLENGED)?;
            put_message(out, message)
        }
        Answer::Welcome(message) => {
            out.extend_from_slice(&WELCOMED)?;
            put_message(out, message)
        }
    }
}
