//! The numbers by which threads wait. None depends on how many cores there are, but for how many loops a server has.

// ---- for the lock of a sequencer

/// How often a thread that wants the lock tries to take it before it lets others run.
pub const TRIES: u32 = 16;

/// How long it pauses after a try, in pauses of the processor: some 50 to 500 nanoseconds.
pub const PAUSES: u32 = 10;

/// How often it lets others run, and tries again, before it sleeps until the lock is released.
pub const YIELDS: u32 = 500;

/// How often a loop lets others have the lock who wait for it, before it answers what they all have posted: what they ask
/// meanwhile needn't wait for the device, and what they have posted shares its sync.
pub const LETS: u32 = 4;

// ---- for the sync of a group that another thread makes

/// How often a thread with nothing else to do lets others run before it sleeps until the group is answered.
pub const MOST_TRIES: u32 = 10_000;

/// How long it sleeps at most, in milliseconds.
pub const REST: u64 = 100;

/// How often a loop serves its connections meanwhile without a wait for their events, before it waits for them, a
/// millisecond at most each time.
pub const QUICK_GATHERS: u32 = 1_000;

/// How often at most it serves them meanwhile: for about a minute.
pub const GATHERS: u32 = 61_000;

/// After how many turns a round takes in no more meanwhile: what comes after each of them is kept until all are over.
pub const MOST_TURNS: usize = 100_000;

// ---- for more requests, before the device is called

/// How often at most a loop gives more turns to those that have more to do before it answers those that may wait for a
/// device: a client that sends requests without end doesn't hold these up.
pub const MORE_TURNS: u32 = 64;

/// How often at most a loop looks for events of others that may share the sync.
pub const LOOKS_AHEAD: u32 = 100;

/// How often at most that is left out, after it was in vain.
pub const MOST_SKIPS: u32 = 63;

/// How many connections a loop has at least that looks for them.
pub const COMPANY: usize = 3;

/// After how many turns a round waits for no more.
pub const MANY_TURNS: usize = 64;

// ---- for events, where there is nothing to do

/// How often a loop with one connection looks for events before it sleeps until one comes.
pub const LOOKS: usize = 40;

/// After how many events at most it looks for more before it sleeps.
pub const FEW_EVENTS: usize = 4;
