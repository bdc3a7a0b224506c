ghost use Rattle.std.specs.Int.{to_be_bytes, w64};
ghost use Rattle.std.specs.Prelude.{◌≡◌, ◌≢◌, ◌<◌, ◌^◌, ◌*◌, ◌++◌, ◌∷◌, ◌≤◌, ℕ, List, [], All, IfOk, IfSome, Some, length};
ghost use Rattle.std.specs.List.{flat_map};
ghost use Rattle.xa_control.specs.Answers.{IsCounted, Says, SpellsAnswer, well_bytes};
ghost use Rattle.xa_control.specs.declared.answer.Answer.{Answer};

use crate::answer::{Answer, CHALLENGED, COUNTED, GREETED, LISTED, WELCOMED};
use crate::hello::hello_of;
use crate::message::message_of;
use crate::numbers::{MOST_NUMBERS, Numbers};
use std::alloc::{AllocError, Global};
use xa_bytes::{take_u16, take_u64};
use xa_codes::{Detail, XA_OK};
use xa_frame::{Body, FrameFault, Reply, decode_reply};

/// The answer whose content these bytes are, or `None` if they are of none.
pub fn answer_of(alloc: Global, content: &[u8]) -> Result<Option<Answer>, AllocError>
    // What is found has this spelling.
    ensures found { IfOk result (λ answer. IfSome answer (SpellsAnswer content.now)) }
    // What has this spelling is found.
    ensures only { (a : Answer) → SpellsAnswer content.now a → IfOk result (λ answer. answer ≡ Some a) }
{
    if content.len() < 15 {
        return Ok(None);
    }
    let (front, rest) = content.split_at(15);
    if front == GREETED.as_slice() {
        return Ok(greeted(rest));
    }
    if front == COUNTED.as_slice() {
        return measured(alloc, rest);
    }
    if front == LISTED.as_slice() {
        return listed(alloc, rest);
    }
    if front == CHALLENGED.as_slice() {
        return Ok(challenged(rest));
    }
    if front == WELCOMED.as_slice() {
        return Ok(welcomed(rest));
    }
    if rest.is_empty() {
        return bare(alloc, front);
    }
    Ok(None)
}

// That it was done, or refused: what is spelled as a reply is.
fn bare(alloc: Global, content: &[u8]) -> Result<Option<Answer>, AllocError>
    requires long { length content.now ≡ 15 }
    requires plain { (content.now ≢ well_bytes ++ 11 ∷ []) × (content.now ≢ well_bytes ++ 12 ∷ []) }
    ensures found { IfOk result (λ answer. IfSome answer (SpellsAnswer content.now)) }
    ensures only { (a : Answer) → SpellsAnswer content.now a → IfOk result (λ answer. answer ≡ Some a) }
{
    match decode_reply(alloc, content) {
        Ok(reply) => Ok(plain(reply)),
        Err(FrameFault::Memory) => Err(AllocError),
        Err(_) => Ok(None),
    }
}

// What a reply of as many bytes answers.
fn plain(reply: Reply) -> Option<Answer>
    ensures found { IfSome result (Says reply) }
    ensures only { (a : Answer) → Says reply a → result ≡ Some a }
{
    if reply.place != 0 || !matches!(reply.body, Body::Nothing) {
        return None;
    }
    if reply.code != XA_OK {
        return Some(Answer::Refused(reply.code, reply.detail));
    }
    if reply.detail == Detail::Nothing {
        Some(Answer::Done)
    } else {
        None
    }
}

// What the server speaks, after the kind of the body.
fn greeted(rest: &[u8]) -> Option<Answer>
    ensures found { IfSome result (SpellsAnswer (well_bytes ++ 8 ∷ rest.now)) }
    ensures only { (a : Answer) → SpellsAnswer (well_bytes ++ 8 ∷ rest.now) a → result ≡ Some a }
{
    Some(Answer::Hello(hello_of(rest)?))
}

// What it has counted, after the kind of the body.
fn measured(alloc: Global, rest: &[u8]) -> Result<Option<Answer>, AllocError>
    ensures found { IfOk result (λ answer. IfSome answer (SpellsAnswer (well_bytes ++ 9 ∷ rest.now))) }
    ensures only { (a : Answer) → SpellsAnswer (well_bytes ++ 9 ∷ rest.now) a → IfOk result (λ answer. answer ≡ Some a) }
{
    match counted(alloc, rest)? {
        Some(metrics) => Ok(Some(Answer::Metrics(metrics))),
        None => Ok(None),
    }
}

// The sessions that it lists, after the kind of the body.
fn listed(alloc: Global, rest: &[u8]) -> Result<Option<Answer>, AllocError>
    ensures found { IfOk result (λ answer. IfSome answer (SpellsAnswer (well_bytes ++ 10 ∷ rest.now))) }
    ensures only { (a : Answer) → SpellsAnswer (well_bytes ++ 10 ∷ rest.now) a → IfOk result (λ answer. answer ≡ Some a) }
{
    match counted(alloc, rest)? {
        Some(sessions) => Ok(Some(Answer::Sessions(sessions))),
        None => Ok(None),
    }
}

// What a login goes on with, after the kind of the body.
fn challenged(rest: &[u8]) -> Option<Answer>
    ensures found { IfSome result (SpellsAnswer (well_bytes ++ 11 ∷ rest.now)) }
    ensures only { (a : Answer) → SpellsAnswer (well_bytes ++ 11 ∷ rest.now) a → result ≡ Some a }
{
    Some(Answer::Challenge(message_of(rest)?))
}

// What the server ends a login with, after the kind of the body.
fn welcomed(rest: &[u8]) -> Option<Answer>
    ensures found { IfSome result (SpellsAnswer (well_bytes ++ 12 ∷ rest.now)) }
    ensures only { (a : Answer) → SpellsAnswer (well_bytes ++ 12 ∷ rest.now) a → result ≡ Some a }
{
    Some(Answer::Welcome(message_of(rest)?))
}

// The numbers after how many they are.
fn counted(alloc: Global, rest: &[u8]) -> Result<Option<Numbers>, AllocError>
    ensures found { IfOk result (λ numbers. IfSome numbers (IsCounted rest.now)) }
    ensures only { (ns : List ℕ) → IsCounted rest.now ns → IfOk result (λ numbers. numbers ≡ Some ns) }
{
    let Some((count, numbers)) = take_u16(rest) else {
        return Ok(None);
    };
    let count = usize::from(count);
    if count > MOST_NUMBERS {
        return Ok(None);
    }
    if numbers.len() != 8 * count {
        return Ok(None);
    }
    let numbers = numbers_of(alloc, count, numbers)?;
    Ok(Numbers::new(numbers))
}

// So many numbers.
fn numbers_of(alloc: Global, count: usize, bytes: &[u8]) -> Result<Vec<u64>, AllocError>
    requires { (length bytes.now ≡ 8 * count) × (count ≤ 1024) }
    ensures spelled { IfOk result (λ v. bytes.now ≡ flat_map (to_be_bytes w64) v.items) }
    ensures holds { IfOk result (λ v. All (λ n. n < 2 ^ 64) v.items) }
    ensures count { IfOk result (λ v. length v.items ≡ count) }
{
    let mut numbers = Vec::with_capacity(alloc, count)?;
    let mut rest = bytes;
    for _ in 0..count {
        let Some((number, after)) = take_u64(rest) else {
            unreachable!()
        };
        numbers.push(number)?;
        rest = after;
    }
    Ok(numbers)
}
