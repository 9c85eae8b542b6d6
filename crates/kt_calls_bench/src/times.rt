// What calls took.
use std::rt::Clock;

/// How many calls of one kind there were, and the nanoseconds of all of them.
#[derive(Clone, Copy, Debug, Default)]
pub struct Time {
    pub calls: u64,
    pub nanoseconds: u64,
}

impl Time {
    /// One call more, from one reading of the clock to another.
    pub fn count(&mut self, start: u64, end: u64) {
        self.calls = self.calls.wrapping_add(1);
        self.nanoseconds = self.nanoseconds.wrapping_add(end.wrapping_sub(start));
    }
}

/// The nanoseconds of a clock, or 0 where it cannot be read.
pub fn now<C: Clock>(clock: &C) -> u64 {
    match clock.monotonic() {
        Ok(time) => time
            .as_secs()
            .wrapping_mul(1_000_000_000)
            .wrapping_add(u64::from(time.subsec_nanos())),
        Err(_) => 0,
    }
}

/// What two readings of the clock take of which one follows the other, so many times.
pub fn empty<C: Clock>(clock: &C, times: u32) -> Time {
    let mut time = Time::default();
    for _ in 0..times {
        let start = now(clock);
        time.count(start, now(clock));
    }
    time
}

/// What the calls of one seat took.
#[derive(Clone, Copy, Debug, Default)]
pub struct Times {
    pub load: Time,
    pub store: Time,
    pub fold: Time,
    pub publish: Time,
    pub claim_own: Time,
    pub start: Time,
    pub finish: Time,
    pub post: Time,
    pub lead: Time,
    pub serve: Time,
    pub look: Time,
}

impl Times {
    /// Each kind with its name.
    pub fn rows(&self) -> [(&'static str, Time); 11] {
        [
            ("load", self.load),
            ("store", self.store),
            ("fold", self.fold),
            ("publish", self.publish),
            ("claim_own", self.claim_own),
            ("start", self.start),
            ("finish", self.finish),
            ("post", self.post),
            ("lead", self.lead),
            ("serve", self.serve),
            ("look", self.look),
        ]
    }
}
