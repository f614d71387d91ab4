//! Runs each command with two, five and 64 workers: there are as many as requested, each with its
//! own number, and they run concurrently.

use crate::Status;
use crate::test_runs::{TRIAL_LINE, UNBROKEN, ZERO_LINE, ZERO_RANK, each_tap, run_tapped, zeros};
use pilot_search::Gate;
use std::sync::atomic::{AtomicU64, Ordering};
use std::test::Fail;

/// A gate at which workers wait until all have arrived or a limit of turns is reached.
#[derive(Drop)]
struct Meeting {
    /// The sum of the flags of the workers to wait for.
    all: u64,
    /// The sum of the flags of the workers that have arrived.
    arrived: AtomicU64,
    /// The sum of the flags of those that have met all others.
    met: AtomicU64,
    /// The sum of the flags of those that have left.
    left: AtomicU64,
}

/// The bit of a worker.
fn flag_of(worker: u8) -> u64 {
    1 << (worker % 64)
}

impl Meeting {
    /// Makes a gate at which no worker has arrived yet.
    fn of(all: u64) -> Meeting {
        Meeting {
            all,
            arrived: AtomicU64::new(0),
            met: AtomicU64::new(0),
            left: AtomicU64::new(0),
        }
    }

    /// Whether each worker has met all others and left, and no other worker has arrived.
    fn is_over(&self) -> bool {
        self.arrived.load(Ordering::SeqCst) == self.all
            && self.met.load(Ordering::SeqCst) == self.all
            && self.left.load(Ordering::SeqCst) == self.all
    }
}

impl Gate for Meeting {
    fn arrive(&self, worker: u8) {
        self.arrived.fetch_add(flag_of(worker), Ordering::SeqCst);
        for _ in 0..2_000_000_000u32 {
            if self.arrived.load(Ordering::SeqCst) == self.all {
                self.met.fetch_add(flag_of(worker), Ordering::SeqCst);
                break;
            }
        }
    }

    fn leave(&self, worker: u8, _unfinished: u16) {
        self.left.fetch_add(flag_of(worker), Ordering::SeqCst);
    }
}

/// Each command that has workers, over 2,048 zeros: what is written, and how the run ends.
static ROWS: [(&'static str, &'static [u8], Status); 7] = [
    ("find", ZERO_LINE, Status::Done),
    ("follow", ZERO_LINE, Status::NoSync),
    ("rate2 --esn 0000abcd --row 10", b"", Status::NoSync),
    ("list --esn 0000abcd --row 10 --k 4", b"", Status::NoSync),
    ("idle --key 00000000", b"", Status::NoSync),
    ("survey --top=1", ZERO_RANK, Status::Done),
    ("trial --number=0", TRIAL_LINE, Status::Done),
];

#[test]
fn workers_meet(rt: HostRuntime) -> Result<(), Fail> {
    let alloc = rt.alloc();
    let file = zeros(alloc, 2048)?;
    for (command, text, end) in &ROWS {
        for (workers, flags) in [(2, 0b11), (5, 0b1_1111), (64, u64::MAX)] {
            let line = format!(in alloc; "{command} --workers {workers}")?;
            let (gate, taps) = (Meeting::of(flags), each_tap(alloc)?);
            let (line, input) = (line.as_str(), file.as_slice());
            let (status, written) = run_tapped(&rt, line, input, UNBROKEN, taps, &gate)?;
            assert_eq!(rt; status, *end, "{line}");
            assert_eq!(rt; written.as_slice(), *text, "{line}");
            assert!(rt; gate.is_over(), "{line}: other workers, or not at once");
        }
    }
    Ok(())
}
