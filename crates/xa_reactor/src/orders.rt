ghost use Rattle.std.specs.Prelude.{◌≡◌, ◌∷◌, [], IsTrue, None, Some, false, length, MatchOption};
ghost use Rattle.xa_reactor.specs.Orders.{control_in, with_wish};

use std::alloc::Global;
use std::collections::VecDeque;
use std::marker::Model;
use xa_connection::Asked;
use xa_control::Control;

/// What a connection asked of the server itself: its key, and the number of the order that it came to, if it did to one.
#[derive(Clone, Copy, Debug, PartialEq, Eq)]
pub(crate) struct Wish {
    pub(crate) key: usize,
    pub(crate) cut: Option<u64>,
}

/// What connections of a loop ask of the server itself. Contracts see the key of one that asked it to end, and the others.
#[derive(Drop)]
pub(crate) struct Orders {
    stopper: Option<usize>,
    wishes: VecDeque<Wish>,
}

impl Model for Orders {
    ghost use Rattle.std.specs.VecDeque.{deque_items};
    ghost use Rattle.xa_reactor.specs.Orders.{Asking};

    ghost Value = { Asking };

    ghost view = { λ o. (o.stopper, deque_items o.wishes) };
}

impl Orders {
    pub(crate) fn new(alloc: Global) -> Orders
        ensures { result ≡ (None, []) }
    {
        Orders {
            stopper: None,
            wishes: VecDeque::new(alloc),
        }
    }

    /// The connection under this key asked the server to end.
    pub(crate) fn stop(&mut self, key: usize)
        ensures { self.new ≡ (Some key, self.old.1) }
    {
        self.stopper = Some(key);
    }

    /// The key of one that did.
    pub(crate) fn stopper(&self) -> Option<usize>
        ensures { result ≡ self.now.0 }
    {
        self.stopper
    }

    /// How many asked something else.
    pub(crate) fn len(&self) -> usize
        ensures { result ≡ length self.now.1 }
    {
        self.wishes.len()
    }

    /// One more asked, after the others. Whether there was memory for that.
    pub(crate) fn put(&mut self, wish: Wish) -> bool
        ensures put { IsTrue result → self.new ≡ with_wish self.old wish }
        ensures full { result ≡ false → self.new ≡ self.old }
    {
        self.wishes.push_back(wish).is_ok()
    }

    /// The first of them.
    pub(crate) fn next(&mut self) -> Option<Wish>
        ensures stopper { self.new.0 ≡ self.old.0 }
        ensures wishes { MatchOption result (self.new ≡ self.old) (λ wish. self.old.1 ≡ wish ∷ self.new.1) }
    {
        self.wishes.pop_front()
    }
}

/// What is asked of the server itself.
pub(crate) fn control_in(asked: &Asked) -> Option<Control>
    ensures { result ≡ control_in asked.now }
{
    match asked {
        Asked::Control(_, control) => Some(control.copied()),
        _ => None,
    }
}
