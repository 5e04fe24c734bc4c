//! Clocks.

ghost use Rattle.std.specs.Prelude.{ℕ, ◌≡◌, ◌<◌, Some, length};
ghost use Rattle.pm_gate.specs.Readings.{reading};

use std::sync::OnceLock;
use std::sync::atomic::{AtomicU64, Ordering};
use std::thread;
use std::time::{Clock as SystemClock, Duration, Instant};

/// What tells a run the time, and lets it pass.
pub trait Clock {
    /// Milliseconds since some start; `None` where the clock can't be read.
    fn now(&self) -> Option<u64>;

    /// Lets time pass until the clock tells this moment, in milliseconds, or less. Who has nothing to do until
    /// then leaves the processor to others by it.
    fn rest(&self, until: u64);

    /// A number that may differ from run to run, by which threads choose among lawful orders.
    fn seed(&self) -> u64;
}

/// No further reading of a `Ticker` is later.
const LATEST: u64 = 1 << 61;

/// How much later each further reading of a `Ticker` is.
const TICK: u64 = 1_000;

/// Nanoseconds.
const NANOS_A_SECOND: u64 = 1_000_000_000;

/// A clock that gives these readings in turn. Behind the last, each further one is 1,000 more than the one
/// before, up to 2^61.
#[derive(Drop)]
pub struct Ticker {
    readings: Vec<u64>,
    next: AtomicU64,
    ghost some: { 0 < length readings.items },
}

// Reading n of a ticker, counted from 0.
pub(crate) fn reading(readings: &[u64], n: u64) -> u64
    requires { 0 < length readings.now }
    ensures { result ≡ reading readings.now n }
{
    let last = readings.len() - 1;
    match readings.get(n as usize) {
        Some(reading) => *reading,
        None => readings[last]
            .saturating_add(TICK.saturating_mul(n - last as u64))
            .min(LATEST),
    }
}

impl Ticker {
    /// A clock with these readings, of which there is one at least.
    pub fn new(readings: Vec<u64>) -> Ticker
        requires { 0 < length readings.items }
        ensures { result.readings ≡ readings }
    {
        Ticker {
            readings,
            next: AtomicU64::new(0),
        }
    }
}

impl Clock for Ticker {
    /// One of the readings, or one of the further ones.
    fn now(&self) -> Option<u64>
        ensures { (n : ℕ) × (result ≡ Some (reading self.now.readings.items n)) }
    {
        let n = self.next.fetch_add(1, Ordering::SeqCst);
        Some(reading(&self.readings, n))
    }

    /// Yields the processor, and reads nothing.
    fn rest(&self, _until: u64) {
        thread::yield_now();
    }

    /// The first reading.
    fn seed(&self) -> u64
        ensures { result ≡ reading self.now.readings.items 0 }
    {
        reading(&self.readings, 0)
    }
}

/// The milliseconds since its first reading, by the system's clock.
#[derive(Drop)]
pub struct Stopwatch<R> {
    system: R,
    // When it was read first.
    started: OnceLock<Instant>,
}

impl<R: SystemClock> Stopwatch<R> {
    /// It starts when it is read first.
    pub fn new(system: R) -> Stopwatch<R> {
        Stopwatch {
            system,
            started: OnceLock::new(),
        }
    }

    // How long ago it was read first; `None` where the system's clock can't be read.
    fn passed(&self) -> Option<Duration> {
        let now = Instant::now(&self.system).ok()?;
        match self.started.get() {
            Some(started) => Some(now.duration_since(*started)),
            None => {
                // Where another thread starts it at this moment, its reading counts.
                let _ = self.started.try_set(now);
                Some(Duration::ZERO)
            }
        }
    }
}

impl<R: SystemClock> Clock for Stopwatch<R> {
    fn now(&self) -> Option<u64> {
        let passed = self.passed()?;
        Some(u64::try_from(passed.as_millis()).unwrap_or(u64::MAX))
    }

    /// Sleeps.
    fn rest(&self, until: u64) {
        if let Some(passed) = self.passed() {
            let left = Duration::from_millis(until).saturating_sub(passed);
            thread::sleep(&self.system, left);
        }
    }

    /// By the time of day; 0 where it can't be read.
    fn seed(&self) -> u64 {
        match self.system.since_1970() {
            Ok(time) => time
                .as_secs()
                .wrapping_mul(NANOS_A_SECOND)
                .wrapping_add(u64::from(time.subsec_nanos())),
            Err(_) => 0,
        }
    }
}
