use xa_frame::{Reply, Request, Status};

/// What a connection's questions go to.
pub trait Door {
    ghost use Rattle.std.specs.Prelude.{ℕ};
    ghost use Rattle.xa_frame.specs.{declared.question.Question.Question, declared.reply.Reply.Reply, Limits.IsRequest, Limits.IsReply};
    ghost use Rattle.xa_frame.specs.{Made.doing};

    /// A question of this session took it from one to the other, with this reply.
    ghost called: { ℕ → Self → Question → Reply → Self → Type 0 };

    /// The session was hung up between one and the other.
    ghost left: { ℕ → Self → Self → Type 0 };

    fn call(&mut self, session: u64, request: Request) -> Reply
        requires { IsRequest request }
        ensures called { called session self.old (Question.Call request) result self.new }
        ensures limits { IsReply result };

    /// How it is doing. Changes nothing, so that it is no event of a history.
    fn status(&self) -> Status
        ensures { (session : ℕ) → called session self.now Question.Status (doing result) self.now };

    fn hangup(&mut self, session: u64)
        ensures { left session self.old self.new };
}
