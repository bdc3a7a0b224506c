//! A connection that asks something of the server itself.
ghost use Rattle.std.specs.Prelude.{◌≡◌, IfSome, None, Some};
ghost use Rattle.xa_control.specs.Answers.{IsAnswer};
ghost use Rattle.xa_reactor.specs.Believed.Tending.{seat_of};
ghost use Rattle.xa_reactor.specs.Orders.{HasTold};
ghost use Rattle.xa_reactor.specs.Turning.{StepsTo};

use crate::allowance::Allowance;
use crate::clock::LoopClock;
use crate::noted::{Noted, code_of, tell};
use crate::orders::control_in;
use crate::peer::{Peer, Step};
use crate::round::Round;
use std::alloc::Global;
use std::rt::Clock;
use xa_connection::Asked;
use xa_control::{Answer, Control};

impl Peer {
    /// What it asks of the server itself, if it waits for no order.
    pub(crate) fn control(&self, alloc: Global) -> Option<Control> {
        if self.order.is_some() {
            return None;
        }
        control_in(&self.connection.asked(alloc, self.standing))
    }

    /// It waits for an order of this number.
    pub(crate) fn wait_for(&mut self, order: u64)
        ensures { self.new ≡ record self.old { order = Some order } }
    {
        self.order = Some(order);
    }

    /// That it failed to log in is answered then, by the loop's clock.
    pub(crate) fn pause(&mut self, until: u64)
        ensures { self.new ≡ record self.old { pause = Some until } }
    {
        self.pause = Some(until);
    }

    /// Answers what it asks of the server itself, if it waits for this order, or for none, and sends the answer. What comes
    /// after that; None if it asks nothing, or waits for another one.
    pub(crate) fn answer_control<R: Clock + Eprint>(
        &mut self,
        rt: &R,
        round: Round<'_>,
        clock: &mut LoopClock,
        allowance: &mut Allowance,
        key: usize,
        order: Option<u64>,
        answer: &Answer,
    ) -> Option<Step>
        requires { IsAnswer answer.now }
        ensures session { seat_of self.new ≡ seat_of self.old }
        ensures answered { IfSome result (λ step. HasTold self.old.connection answer.now self.new.connection) }
        ensures steps { IfSome result (λ step. StepsTo step self.new) }
        ensures none { result ≡ None → self.new ≡ self.old }
    {
        if self.order != order {
            return None;
        }
        match self.connection.asked(round.alloc, self.standing) {
            Asked::Control(count, control) => {
                let noted = Noted::of_control(&self.socket, &control);
                let _answering = self.connection.answer_control(count, control, answer);
                self.order = None;
                self.pause = None;
                self.is_queued = false;
                tell(rt, allowance, clock.now(rt), noted, code_of(answer));
                let step = self.send(rt, round, clock, key);
                Some(if self.is_out_of_tries() {
                    Step::Ends
                } else {
                    step
                })
            }
            _asked => None,
        }
    }

    /// What comes after a turn in which this was asked of the server itself, or else this step.
    pub(crate) fn order_or(&mut self, control: Option<Control>, step: Step) -> Step
        ensures same { (seat_of self.new ≡ seat_of self.old) × (self.new.connection ≡ self.old.connection) }
        ensures steps { StepsTo step self.old → StepsTo result self.new }
    {
        match control {
            None => step,
            Some(Control::Shutdown) => Step::Stops,
            Some(_) => {
                // no event opens another turn while it waits
                self.is_queued = true;
                Step::Asks
            }
        }
    }
}
