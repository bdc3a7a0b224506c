//! The line that shows what a server answers that is asked something.
ghost use Rattle.std.specs.Prelude.{◌≡◌, ◌++◌, IfOk, OnOk};
ghost use Rattle.xa_script.specs.Answers.{answer_line, answer_text, code_of, detail_of, numbers_text};

use crate::reply::{line_front, push_number};
use std::alloc::{AllocError, Global};
use xa_codes::{Code, Detail, XA_OK};
use xa_control::Answer;

/// The line that shows an answer: the code, with its name where there are names, the detail's name and what it carries,
/// with the line's end.
pub fn answer_line(alloc: Global, answer: &Answer, has_names: bool) -> Result<Vec<u8>, AllocError>
    ensures { IfOk result (λ line. line.items ≡ answer_line has_names answer.now) }
{
    let mut line = line_front(alloc, code_of(answer), detail_of(answer), has_names)?;
    push_answer(alloc, &mut line, answer)?;
    line.push(b'\n')?;
    Ok(line)
}

fn code_of(answer: &Answer) -> Code
    ensures { result ≡ code_of answer.now }
{
    match answer {
        Answer::Refused(code, _) => *code,
        _ => XA_OK,
    }
}

fn detail_of(answer: &Answer) -> Detail
    ensures { result ≡ detail_of answer.now }
{
    match answer {
        Answer::Refused(_, detail) => *detail,
        _ => Detail::Nothing,
    }
}

fn push_answer(alloc: Global, line: &mut Vec<u8>, answer: &Answer) -> Result<(), AllocError>
    ensures { OnOk result (line.new.items ≡ line.old.items ++ answer_text answer.now) }
{
    match answer {
        Answer::Done | Answer::Refused(..) => Ok(()),
        Answer::Hello(hello) => {
            line.extend_from_slice(b" hello")?;
            push_number(alloc, line, u64::from(hello.revision))?;
            push_number(alloc, line, hello.features)
        }
        Answer::Metrics(metrics) => {
            line.extend_from_slice(b" metrics")?;
            push_numbers(alloc, line, metrics.as_slice())
        }
        Answer::Sessions(sessions) => {
            line.extend_from_slice(b" sessions")?;
            push_numbers(alloc, line, sessions.as_slice())
        }
        Answer::Challenge(_) => line.extend_from_slice(b" challenge"),
        Answer::Welcome(_) => line.extend_from_slice(b" welcome"),
    }
}

fn push_numbers(alloc: Global, line: &mut Vec<u8>, numbers: &[u64]) -> Result<(), AllocError>
    ensures { OnOk result (line.new.items ≡ line.old.items ++ numbers_text numbers.now) }
{
    for number in numbers {
        push_number(alloc, line, *number)?;
    }
    Ok(())
}
