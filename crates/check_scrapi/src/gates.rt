// Gates that wait for another thread, for a stated number of turns.
use scrapi::Gate;
use std::sync::atomic::{AtomicU64, Ordering};

const MOST_TURNS: u32 = 200_000_000;

/// Whether the count comes to this number.
pub fn comes_to(count: &AtomicU64, number: u64) -> bool {
    for _ in 0..MOST_TURNS {
        if count.load(Ordering::SeqCst) >= number {
            return true;
        }
    }
    false
}

/// A gate that holds a check until so many are open.
#[derive(Drop)]
pub struct Meeting<'a> {
    pub open: &'a AtomicU64,
    pub met: bool,
}

impl<'a> Gate for Meeting<'a> {
    fn before_check(&mut self) {
        self.open.fetch_add(1, Ordering::SeqCst);
        self.met = comes_to(self.open, 2);
    }

    fn after_check(&mut self) {}
}

/// A gate that asks another thread to go first, check by check.
#[derive(Drop)]
pub struct After<'a> {
    pub asked: &'a AtomicU64,
    pub done: &'a AtomicU64,
    pub checks: u64,
    pub went_first: bool,
}

impl<'a> Gate for After<'a> {
    fn before_check(&mut self) {
        self.checks = self.checks.wrapping_add(1);
        self.asked.store(self.checks, Ordering::SeqCst);
        let came = comes_to(self.done, self.checks);
        self.went_first = came && self.went_first;
    }

    fn after_check(&mut self) {}
}
