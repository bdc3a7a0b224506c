ghost use Rattle.xa_commands.specs.{Done.HasTicked, declared.ticking.Watch.Watch};
ghost use Rattle.xa_talk.specs.declared.dial.Connection.{Connection};

use crate::server::Server;
use crate::stream::Stream;
use std::fs::Files;
use std::io::{Read, Write};
use std::net::{Net, TcpStream};
use std::random::RandomSource;
use std::rt::{Clock, Env};
use std::time::Duration;
use std::{fmt, thread};
use xa_frame::Reply;
use xa_talk::{TickFault, Ticker, refusal_text, tick_run};

/// The system's clock, which is read at once and then after each pause, and standard error.
#[derive(Drop)]
pub struct Watch<'a, R> {
    pub rt: &'a R,
    /// How many seconds a pause has.
    pub every: u64,
    pub has_begun: bool,
}

/// Of what a clock gives a contract can't say more.
impl<R: Clock + Eprint> Ticker for Watch<'_, R> {
    ghost gives = { λ _ _ _. Unit {0} };

    ghost tells = { λ _ _ _. Unit {0} };

    fn next_moment(&mut self) -> Option<u64> {
        if self.has_begun {
            thread::sleep(self.rt, Duration::from_secs(self.every));
        }
        self.has_begun = true;
        match self.rt.since_1970() {
            Ok(moment) => Some(moment.as_secs()),
            Err(_) => None,
        }
    }

    fn tell(&mut self, refusal: &Reply) {
        let text = refusal_text(refusal);
        let _ = eprintln!(self.rt; "xarm: {text}");
    }
}

impl<R> fmt::Debug for Watch<'_, R> {
    fn fmt<W: fmt::Write>(&self, f: &mut fmt::Formatter<W>) -> fmt::Result {
        f.debug_struct("Watch")
            .field("every", &self.every)
            .field("has_begun", &self.has_begun)
            .finish_non_exhaustive()
    }
}

/// Tells a server what the system's clock says, in whole seconds since 1970: at once, and then again every
/// this many seconds.
pub fn tick<R: AllocGlobal + Clock + Eprint + Env + Files + Net<Stream = TcpStream> + RandomSource>(
    rt: &R,
    server: &mut Server<'_, '_, R>,
    every: u64,
) -> Result<(), TickFault>
    ensures { HasTicked {C = Connection Stream Stream} (Watch R)
        (λ c. ⟦<Stream as Write>⟧.contents c.writer)
        (λ c. ⟦<Stream as Read>⟧.remaining c.reader) result }
{
    let mut watch = Watch {
        rt,
        every,
        has_begun: false,
    };
    tick_run(rt.alloc(), &mut watch, server)
}
