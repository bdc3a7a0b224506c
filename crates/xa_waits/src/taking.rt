use crate::waits::{PAUSES, TRIES, YIELDS};
use std::hint::spin_loop;
use std::sync::{Mutex, MutexGuard, Wait};
use std::thread::yield_now;

/// Takes the lock. It is released soon, mostly within a few microseconds, and a thread that sleeps is woken only
/// after more than that: so whoever wants it looks for it again and again, and lets others run in between, before it
/// sleeps. To let others run is a call of the system, which costs them time too, so it tries several times before that.
pub fn take<'a, T, R: Wait>(rt: &R, lock: &'a Mutex<T>) -> MutexGuard<'a, T> {
    for _ in 0..YIELDS {
        if let Some(guard) = look(lock) {
            return guard;
        }
        yield_now();
    }
    lock.lock(rt)
}

// Tries to take the lock several times.
fn look<T>(lock: &Mutex<T>) -> Option<MutexGuard<'_, T>> {
    for _ in 0..TRIES {
        if let Some(guard) = lock.try_lock() {
            return Some(guard);
        }
        pause();
    }
    None
}

fn pause() {
    for _ in 0..PAUSES {
        spin_loop();
    }
}
