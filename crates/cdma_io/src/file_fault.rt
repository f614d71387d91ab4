//! The faults of a sample file.

ghost use Rattle.std.specs.Prelude.{◌≡◌};
ghost use Rattle.cdma_io.specs.SampleFile.{fault_place};

use crate::source::Failed;
use thiserror::Error;

/// The reason why a sample file could not be read.
///
/// Its text names only the kind of fault; [`FileFault::place`] returns the place.
#[derive(Clone, Copy, PartialEq, Eq, Debug, Error)]
pub enum FileFault {
    /// The first four bytes aren't `IS95`.
    #[error("magic")]
    Magic,
    /// The version is neither 1 nor 2.
    #[error("version")]
    Version,
    /// A flag without a meaning is set.
    #[error("flags")]
    Flags,
    /// The header counts more samples than its version allows: 33,554,432 in version 1, and
    /// 67,108,864 in version 2.
    #[error("count")]
    Count,
    /// The file ends before its header or its samples do. It has `at` bytes.
    #[error("short")]
    Short {
        /// The number of bytes in the file.
        at: u64,
    },
    /// The file goes on after its samples. The first further byte is byte `at`.
    #[error("extra")]
    Extra {
        /// The place of the first byte after the samples.
        at: u64,
    },
    /// A read of the source failed.
    #[error("read fault")]
    ReadFault,
    /// The file counts fewer samples than its reader needs.
    #[error("too few")]
    TooFew {
        /// The number of samples that the header counts.
        count: u64,
    },
}

impl FileFault {
    /// Returns the place of the fault in the file, in bytes from its start; `None` for a read that
    /// failed.
    pub fn place(&self) -> Option<u64>
        ensures { result ≡ fault_place self.now }
    {
        match *self {
            FileFault::Magic => Some(0),
            FileFault::Version => Some(4),
            FileFault::Flags => Some(6),
            FileFault::Count | FileFault::TooFew { .. } => Some(8),
            FileFault::Short { at } | FileFault::Extra { at } => Some(at),
            FileFault::ReadFault => None,
        }
    }
}

impl From<Failed> for FileFault {
    ghost use Rattle.std.specs.Prelude.{◌≡◌};
    ghost use Rattle.cdma_io.specs.declared.file_fault.FileFault.TheVariants.{ReadFault};

    ghost from_gives = { λ _ e. e ≡ ReadFault };

    fn from(_failed: Failed) -> FileFault {
        FileFault::ReadFault
    }
}
