use std::rt::Clock;
use std::time::Instant;

/// For how long a server has been up, by the machine's clock.
#[derive(Drop)]
pub struct Uptime {
    /// None if the clock didn't tell.
    began: Option<Instant>,
}

impl Uptime {
    /// It is up from now on.
    pub fn new<R: Clock>(rt: &R) -> Uptime {
        Uptime {
            began: Instant::now(rt).ok(),
        }
    }

    /// How many whole seconds have passed, 0 if the clock doesn't tell.
    pub fn seconds<R: Clock>(&self, rt: &R) -> u64 {
        let Some(began) = &self.began else {
            return 0;
        };
        match began.elapsed(rt) {
            Ok(elapsed) => elapsed.as_secs(),
            Err(_) => 0,
        }
    }
}
