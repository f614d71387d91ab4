//! Gates that record what workers report to them.

use chip_core::Sample;
use pilot_search::Gate;
use std::sync::atomic::{AtomicU64, Ordering};

/// Samples that contain no signal.
pub const NOTHING: [Sample; 64] = [Sample { i: 0, q: 0 }; 64];

/// Returns the bit for a worker.
fn flag_of(worker: u8) -> u64 {
    1 << (worker % 64)
}

/// Waits until a word has a value, or the turns are used up.
fn wait_for(word: &AtomicU64, value: u64) {
    for _ in 0..10_000_000_000u64 {
        if word.load(Ordering::SeqCst) == value {
            break;
        }
    }
}

/// A gate that counts its calls, and adds up the phases left unfinished.
#[derive(Drop)]
pub struct Counting {
    /// The number of workers that arrived.
    pub arrived: AtomicU64,
    /// The number of workers that left.
    pub left: AtomicU64,
    /// The number of phases that they left unfinished.
    pub unfinished: AtomicU64,
}

impl Counting {
    /// The gate before any worker has arrived.
    pub fn new() -> Counting {
        Counting {
            arrived: AtomicU64::new(0),
            left: AtomicU64::new(0),
            unfinished: AtomicU64::new(0),
        }
    }
}

impl Gate for Counting {
    fn arrive(&self, _worker: u8) {
        self.arrived.fetch_add(1, Ordering::SeqCst);
    }

    fn leave(&self, _worker: u8, unfinished: u16) {
        self.left.fetch_add(1, Ordering::SeqCst);
        self.unfinished
            .fetch_add(u64::from(unfinished), Ordering::SeqCst);
    }
}

/// A gate at which workers wait until all have arrived, or the turns are used up.
#[derive(Drop)]
pub struct Meeting {
    /// The flags of the workers that are waited for.
    all: u64,
    /// The sum of the flags of the workers that arrived.
    arrived: AtomicU64,
    /// The sum of the flags of those that saw all the others.
    met: AtomicU64,
    /// The sum of the flags of those that left.
    left: AtomicU64,
}

impl Meeting {
    /// The gate of two workers, before any has arrived.
    pub fn of_two() -> Meeting {
        Meeting::of(0b11)
    }

    /// The gate of five workers, before any has arrived.
    pub fn of_five() -> Meeting {
        Meeting::of(0b1_1111)
    }

    /// The gate of 64 workers, before any has arrived.
    pub fn of_all() -> Meeting {
        Meeting::of(u64::MAX)
    }

    fn of(all: u64) -> Meeting {
        Meeting {
            all,
            arrived: AtomicU64::new(0),
            met: AtomicU64::new(0),
            left: AtomicU64::new(0),
        }
    }

    /// Whether each worker has seen all the others and has left, and no other has arrived.
    pub fn is_over(&self) -> bool {
        self.arrived.load(Ordering::SeqCst) == self.all
            && self.met.load(Ordering::SeqCst) == self.all
            && self.left.load(Ordering::SeqCst) == self.all
    }
}

impl Gate for Meeting {
    fn arrive(&self, worker: u8) {
        self.arrived.fetch_add(flag_of(worker), Ordering::SeqCst);
        for _ in 0..2_000_000_000u32 {
            if self.arrived.load(Ordering::SeqCst) == self.all {
                self.met.fetch_add(flag_of(worker), Ordering::SeqCst);
                break;
            }
        }
    }

    fn leave(&self, worker: u8, _unfinished: u16) {
        self.left.fetch_add(flag_of(worker), Ordering::SeqCst);
    }
}

/// A gate at which each of four workers waits until those after it have left, or the turns are used
/// up. It records the number of phases that each reports.
#[derive(Drop)]
pub struct Queue {
    /// The number of workers that have left.
    gone: AtomicU64,
    /// The numbers of phases left unfinished, 16 bits per worker, the lowest for worker 0.
    pub unfinished: AtomicU64,
}

impl Queue {
    /// The gate before any worker has arrived.
    pub fn new() -> Queue {
        Queue {
            gone: AtomicU64::new(0),
            unfinished: AtomicU64::new(0),
        }
    }
}

impl Gate for Queue {
    fn arrive(&self, worker: u8) {
        wait_for(&self.gone, u64::from(3 - worker % 4));
    }

    fn leave(&self, worker: u8, unfinished: u16) {
        let own = u64::from(unfinished) << (16 * (worker % 4));
        self.unfinished.fetch_add(own, Ordering::SeqCst);
        self.gone.fetch_add(1, Ordering::SeqCst);
    }
}

/// A gate at which worker 0 begins once worker 1 has arrived, and worker 1 counts turns from then
/// on until worker 0 has left: few if worker 0 does not work between arriving and leaving.
#[derive(Drop)]
pub struct Watch {
    /// 1 if worker 1 has arrived, otherwise 0.
    there: AtomicU64,
    /// 1 if worker 0 has begun, otherwise 0.
    begun: AtomicU64,
    /// 1 if worker 0 has left, otherwise 0.
    gone: AtomicU64,
    /// The number of turns that worker 1 has counted.
    pub turns: AtomicU64,
}

impl Watch {
    /// The gate before either worker has arrived.
    pub fn new() -> Watch {
        Watch {
            there: AtomicU64::new(0),
            begun: AtomicU64::new(0),
            gone: AtomicU64::new(0),
            turns: AtomicU64::new(0),
        }
    }
}

impl Gate for Watch {
    fn arrive(&self, worker: u8) {
        if worker == 0 {
            wait_for(&self.there, 1);
            self.begun.store(1, Ordering::SeqCst);
            return;
        }
        self.there.store(1, Ordering::SeqCst);
        for _ in 0..2_000_000_000u32 {
            if self.gone.load(Ordering::SeqCst) == 1 {
                break;
            }
            let counted = self.begun.load(Ordering::SeqCst);
            self.turns.fetch_add(counted, Ordering::SeqCst);
        }
    }

    fn leave(&self, worker: u8, _unfinished: u16) {
        if worker == 0 {
            self.gone.store(1, Ordering::SeqCst);
        }
    }
}
