ghost use Rattle.std.specs.Prelude.{◌≡◌, IfOk, IfErr, Err, None};
ghost use Rattle.xa_frame.specs.{declared.fault.FrameFault.TheVariants.Memory, Answers.IsOrWants, Answers.IsFault};
ghost use Rattle.xa_frame.specs.Questions.{IsQuestion, SpellsQuestion, bytes_of_question, fault_of_question};

use crate::encode::{VERSION, encode_request};
use crate::fault::FrameFault;
use crate::fields::end;
use crate::request::Request;
use crate::request_decoder::decode_request;
use std::alloc::{AllocError, Global};
use xa_limits::MOST_CONTENT;

/// The operation that asks for the status.
const STATUS: u8 = 67;

/// What a content asks: a call, which is an event of the history, or how the server is doing, which isn't.
#[derive(Debug, Drop)]
pub enum Question {
    Call(Request),
    Status,
}

/// The content that spells the question.
pub fn encode_question(alloc: Global, question: &Question) -> Result<Vec<u8>, AllocError>
    requires { IsQuestion question.now }
    ensures spells { IfOk result (λ v. SpellsQuestion v.items question.now) }
    ensures bytes { IfOk result (λ v. v.items ≡ bytes_of_question question.now) }
{
    match question {
        Question::Call(request) => encode_request(alloc, request),
        Question::Status => {
            let mut content = Vec::with_capacity(alloc, 2)?;
            content.push(VERSION)?;
            content.push(STATUS)?;
            Ok(content)
        }
    }
}

/// The question whose content these bytes are, or the first fault, read from left to right. Memory is needed only if
/// they have none.
pub fn decode_question(alloc: Global, content: &[u8]) -> Result<Question, FrameFault>
    // What is decoded has this spelling.
    ensures found { IfOk result (λ q. SpellsQuestion content.now q) }
    // What has this spelling is decoded, unless memory runs out.
    ensures only { (q : Question) → SpellsQuestion content.now q → IsOrWants result q }
    ensures fault { IfErr result (IsFault (fault_of_question content.now)) }
    ensures memory { result ≡ Err Memory → fault_of_question content.now ≡ None }
{
    match content {
        [VERSION, STATUS, rest @ ..] if content.len() <= MOST_CONTENT => {
            end(rest)?;
            Ok(Question::Status)
        }
        _ => Ok(Question::Call(decode_request(alloc, content)?)),
    }
}
