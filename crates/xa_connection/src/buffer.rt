ghost use Rattle.std.specs.Int.{to_be_bytes, w32};
ghost use Rattle.std.specs.Prelude.{◌≡◌, ◌≤◌, ◌↔◌, ◌++◌, [], drop, length, vec_len, IsTrue, OnOk, OnErr};
ghost use Rattle.xa_frame.specs.Limits.{IsReply};
ghost use Rattle.xa_control.specs.Answers.{IsAnswer};
ghost use Rattle.xa_desk.specs.Believed.Frames.{reply_frame};
ghost use Rattle.xa_connection.specs.Calls.{answer_frame};

use std::alloc::{AllocError, Global};
use std::marker::Model;
use xa_bytes::put_u32;
use xa_control::{Answer, put_answer};
use xa_desk::make_frame;
use xa_frame::Reply;

/// Bytes in a row: what comes is appended, and they are taken from the front. Contracts see those that are left.
///
/// Bytes that were taken stay until they are as many as those that are left. So a byte that stays is moved once at most
/// for each that was taken, and the block is at most twice as long as what it held at its fullest.
#[derive(Debug, Drop)]
pub struct Buffer {
    bytes: Vec<u8>,
    /// How many of them were taken.
    taken: usize,
}

impl Model for Buffer {
    ghost use Rattle.std.specs.Prelude.{ℕ, List, ◌≤◌, drop, length};

    ghost Value = { List ℕ };

    ghost view = { λ b. drop b.taken b.bytes.items };

    ghost invariant = { λ b. b.taken ≤ length b.bytes.items };
}

impl Buffer {
    pub fn new(alloc: Global) -> Buffer
        ensures { result ≡ [] }
    {
        Buffer {
            bytes: Vec::new(alloc),
            taken: 0,
        }
    }

    pub fn as_slice(&self) -> &[u8]
        ensures { result.now ≡ self.now }
    {
        &self.bytes.as_slice()[self.taken..]
    }

    pub fn len(&self) -> usize
        ensures { result ≡ length self.now }
    {
        self.bytes.len() - self.taken
    }

    /// Appends these bytes, or none of them.
    pub fn put(&mut self, more: &[u8]) -> Result<(), AllocError>
        ensures ok { OnOk result (self.new ≡ self.old ++ more.now) }
        ensures err { OnErr result (self.new ≡ self.old) }
    {
        self.bytes.extend_from_slice(more)
    }

    /// Holds the frame of a reply in place of what it held, or nothing. Takes no memory if its block is long enough.
    pub fn hold(&mut self, reply: &Reply) -> Result<(), AllocError>
        requires { IsReply reply.now }
        ensures ok { OnOk result (self.new ≡ reply_frame reply.now) }
        ensures err { OnErr result (self.new ≡ []) }
    {
        self.taken = 0;
        let held = make_frame(&mut self.bytes, reply);
        if held.is_err() {
            self.bytes.clear();
        }
        held
    }

    /// The same with the frame of an answer.
    pub fn hold_answer(&mut self, answer: &Answer) -> Result<(), AllocError>
        requires { IsAnswer answer.now }
        ensures ok { OnOk result (self.new ≡ answer_frame answer.now) }
        ensures err { OnErr result (self.new ≡ []) }
    {
        self.taken = 0;
        let held = make_answer_frame(&mut self.bytes, answer);
        if held.is_err() {
            self.bytes.clear();
        }
        held
    }

    /// Takes `count` bytes from the front, or all.
    pub fn take(&mut self, count: usize)
        ensures { self.new ≡ drop count self.old }
    {
        if count >= self.len() {
            self.bytes.clear();
            self.taken = 0;
            return;
        }
        self.taken += count;
        if self.taken >= self.bytes.len() - self.taken {
            remove_front(&mut self.bytes, self.taken);
            self.taken = 0;
        }
    }
}

fn remove_front(bytes: &mut Vec<u8>, count: usize)
    requires { count ≤ vec_len bytes.old }
    ensures { bytes.new.items ≡ drop count bytes.old.items }
{
    let len = bytes.len();
    bytes.as_mut_slice().copy_within(count..len, 0);
    bytes.truncate(len - count);
}

// Makes these bytes the frame of an answer, in place of what they were.
fn make_answer_frame(bytes: &mut Vec<u8>, answer: &Answer) -> Result<(), AllocError>
    requires { IsAnswer answer.now }
    ensures { OnOk result (bytes.new.items ≡ answer_frame answer.now) }
{
    bytes.clear();
    put_u32(bytes, 0)?;
    put_answer(bytes, answer)?;
    let count = (bytes.len() - 4) as u32;
    set_front(bytes.as_mut_slice(), count);
    Ok(())
}

// Sets the first four bytes to a number.
fn set_front(bytes: &mut [u8], number: u32)
    requires { 4 ≤ length bytes.old }
    ensures { bytes.new ≡ to_be_bytes w32 number ++ drop 4 bytes.old }
{
    bytes[..4].copy_from_slice(&number.to_be_bytes());
}
