ghost use Rattle.std.specs.Prelude.{◌≡◌, ◌↔◌, [], drop, length, IfOk, IfErr, OnErr, IsSome, IsTrue};
ghost use Rattle.xa_connection.specs.Believed.Access.{no_access};
ghost use Rattle.xa_control.specs.Answers.{IsAnswer};
ghost use Rattle.xa_frame.specs.{Limits.IsReply, Questions.IsQuestion, Questions.SpellsQuestion};
ghost use Rattle.xa_connection.specs.Calls.{AnswersServer, AsksServer, IsReady, Asks, AsksBy, Feeds, IsAsked, IsPut, IsRefused, Replies, Turns, new_connection, room_of};
ghost use Rattle.xa_connection.specs.Fronts.{IsInsideFrame, IsShortFront};

use crate::answering::Answering;
use crate::asked::Asked;
use crate::buffer::Buffer;
use crate::front::{Front, front_of};
use std::alloc::{AllocError, Global};
use xa_codes::{Detail, XAER_INVAL, XAER_RMFAIL};
use xa_control::{Answer, Control, control_of};
use xa_desk::{Door, Served};
use xa_frame::{Body, FrameFault, Question, Reply, decode_question};
use xa_limits::MOST_CONTENT;
use xa_roles::{Role, may_ask, may_order};

/// The most bytes that are kept of what came in: those of the longest frame.
pub const MOST_INPUT: usize = 4 + MOST_CONTENT;

/// One connection, without its socket: what came in and isn't answered, what has to be sent of the last reply, and
/// whether it has to end.
///
/// A caller feeds it what its peer sent, as far as there is room, lets it answer, and sends what has to be sent, until
/// there is nothing more to answer. While a reply isn't sent there is no room, so a peer that takes no replies is read
/// no further, and no further frame of it is answered.
#[derive(Debug, Drop)]
pub struct Connection {
    input: Buffer,
    output: Buffer,
    /// `TooLong` or `Memory`, if it has to end after what has to be sent.
    end: Option<Served>,
}

impl Connection {
    pub fn new(alloc: Global) -> Connection
        ensures { result ≡ new_connection }
    {
        Connection {
            input: Buffer::new(alloc),
            output: Buffer::new(alloc),
            end: None,
        }
    }

    /// How many bytes it takes now: none while a reply has to be sent, nor if it has to end.
    pub fn room(&self) -> usize
        ensures { result ≡ room_of self.now }
    {
        if self.is_closing() || self.output.len() > 0 {
            0
        } else {
            MOST_INPUT.saturating_sub(self.input.len())
        }
    }

    /// Takes bytes that came in: as many of the first ones as there is room for. Returns how many.
    pub fn feed(&mut self, bytes: &[u8]) -> Result<usize, AllocError>
        ensures ok { IfOk result (λ count. Feeds self.old bytes.now count self.new) }
        ensures err { OnErr result (self.new ≡ self.old) }
    {
        let count = self.room().min(bytes.len());
        self.input.put(&bytes[..count])?;
        Ok(count)
    }

    /// Answers the frame at the front, if it is whole and nothing has to be sent, to who has shown this role, or none: what
    /// may not be asked is answered -5 Access, and reaches no door. A length above `MOST_CONTENT` is answered as a bad frame,
    /// and the connection has to end after that.
    pub fn answer<D: Door>(
        &mut self,
        alloc: Global,
        standing: Option<Role>,
        door: &mut D,
        session: u64,
    ) -> Answering
        ensures { Turns standing (D.called session) self.old door.old result self.new door.new }
    {
        let asked = self.asked(alloc, standing);
        self.answer_asked(standing, door, session, asked)
    }

    /// Answers what the front asks for, to who has shown this.
    pub fn answer_asked<D: Door>(
        &mut self,
        _standing: Option<Role>,
        door: &mut D,
        session: u64,
        asked: Asked,
    ) -> Answering
        requires asks { Asks _standing self.old asked }
        requires limits { IsAsked asked }
        ensures { Turns _standing (D.called session) self.old door.old result self.new door.new }
    {
        match asked {
            Asked::Idle | Asked::Control(_, _) => Answering::Idle,
            Asked::One(count, question) => {
                let reply = put_to(door, session, question);
                self.reply(Front::Whole(count), &reply)
            }
            Asked::Refused(front, reply) => self.reply(front, &reply),
        }
    }

    /// What the front asks for, if it is whole and nothing has to be sent, where who asks has shown this role, or none. It
    /// stays until it is replied to.
    pub fn asked(&self, alloc: Global, standing: Option<Role>) -> Asked
        ensures asks { Asks standing self.now result }
        ensures limits { IsAsked result }
    {
        if self.is_closing() || self.output.len() > 0 {
            return Asked::Idle;
        }
        let input = self.input.as_slice();
        match front_of(input) {
            Front::Cut => Asked::Idle,
            Front::TooLong => Asked::Refused(Front::TooLong, Reply::bad_frame()),
            Front::Whole(count) => asked_by(alloc, standing, count, &input[4..4 + count]),
        }
    }

    /// Replies to what is at the front: a frame is taken, and after a length that is too great the connection has to end. So it
    /// does if there is no memory for the reply.
    pub fn reply(&mut self, front: Front, reply: &Reply) -> Answering
        requires front { IsShortFront front }
        requires limits { IsReply reply.now }
        ensures { Replies self.old front reply.now result self.new }
    {
        match front {
            Front::Cut => return Answering::Idle,
            Front::TooLong => self.end = Some(Served::TooLong),
            Front::Whole(count) => self.input.take(4 + count),
        }
        if self.output.hold(reply).is_ok() {
            return Answering::Answered;
        }
        self.end = Some(Served::Memory);
        Answering::Memory
    }

    /// Answers what the front asks of the server itself: its frame is taken, and the answer's has to be sent. Where there is
    /// no memory for that, the connection has to end.
    pub fn answer_control(&mut self, count: usize, _control: Control, answer: &Answer) -> Answering
        requires asks { AsksServer self.old.input count _control × IsReady self.old }
        requires limits { IsAnswer answer.now }
        ensures { AnswersServer self.old _control answer.now result self.new }
    {
        self.input.take(4 + count);
        if self.output.hold_answer(answer).is_ok() {
            return Answering::Answered;
        }
        self.end = Some(Served::Memory);
        Answering::Memory
    }

    /// What has to be sent.
    pub fn unsent(&self) -> &[u8]
        ensures { result.now ≡ self.now.output }
    {
        self.output.as_slice()
    }

    /// `count` bytes were sent of what had to be sent, or all of them.
    pub fn sent(&mut self, count: usize)
        ensures { self.new ≡ record self.old { output = drop count self.old.output } }
    {
        self.output.take(count);
    }

    /// Whether what came in and isn't answered is a part of a frame, and not the whole of one: so at the end of what the
    /// peer sends, once there is nothing more to answer, it says whether the peer ended inside a frame or between two.
    pub fn is_inside_frame(&self) -> bool
        ensures { IsTrue result ↔ IsInsideFrame self.now.input }
    {
        if self.input.len() == 0 {
            return false;
        }
        match front_of(self.input.as_slice()) {
            Front::Cut => true,
            Front::Whole(_) | Front::TooLong => false,
        }
    }

    /// Whether it has to end: it takes no more bytes, and answers nothing more.
    pub fn is_closing(&self) -> bool
        ensures { IsTrue result ↔ IsSome self.now.end }
    {
        self.end.is_some()
    }

    /// Whether it has ended: it has to end, and nothing is left to send.
    pub fn is_done(&self) -> bool
        ensures { IsTrue result ↔ (IsSome self.now.end × (self.now.output ≡ [])) }
    {
        self.is_closing() && self.output.len() == 0
    }
}

// What a content of `count` bytes at the front asks for, where who asks has shown this.
fn asked_by(alloc: Global, standing: Option<Role>, count: usize, content: &[u8]) -> Asked
    requires { count ≡ length content.now }
    ensures asks { AsksBy standing count content.now result }
    ensures limits { IsAsked result }
{
    if let Some(control) = control_of(content) {
        return if may_order(standing, &control) {
            Asked::Control(count, control)
        } else {
            Asked::Refused(Front::Whole(count), no_access())
        };
    }
    match question_of(alloc, content) {
        Ok(question) => {
            if may_ask(standing, &question) {
                Asked::One(count, question)
            } else {
                Asked::Refused(Front::Whole(count), no_access())
            }
        }
        Err(reply) => Asked::Refused(Front::Whole(count), reply),
    }
}

// What is answered where it may not be asked.
fn no_access() -> Reply
    ensures is { result ≡ no_access }
    ensures limits { IsReply result }
{
    Reply::detailed(XAER_INVAL, Detail::Access)
}

// The reply to a question.
fn put_to<D: Door>(door: &mut D, session: u64, question: Question) -> Reply
    requires { IsQuestion question }
    ensures put { IsPut (D.called session) door.old question result door.new }
    ensures limits { IsReply result }
{
    match question {
        Question::Call(request) => door.call(session, request),
        Question::Status => Reply::carrying(Body::Status(door.status())),
    }
}

// The question that a content spells, or the reply to one that has a fault or ran out of memory when it was decoded.
fn question_of(alloc: Global, content: &[u8]) -> Result<Question, Reply>
    ensures spelled { IfOk result (λ q. SpellsQuestion content.now q) }
    ensures asked { IfOk result IsQuestion }
    ensures refused { IfErr result (IsRefused content.now) }
    ensures limits { IfErr result IsReply }
{
    match decode_question(alloc, content) {
        Ok(question) => Ok(question),
        Err(FrameFault::Memory) => Err(Reply::detailed(XAER_RMFAIL, Detail::Memory)),
        Err(_) => Err(Reply::bad_frame()),
    }
}
