//! The settings of a handset.

use chip_core::{CheckForm, Traffic};

/// What a handset knows about a file, and how it receives it.
#[derive(Clone, Copy, PartialEq, Eq, Debug)]
pub struct Settings {
    /// The number of paths of the base station that it receives, 1 to 3.
    pub fingers: u8,
    /// The number of the paging channel that it follows, 1 to 7.
    pub paging: u8,
    /// The traffic channel that it follows; `None` if it follows none.
    pub traffic: Option<Traffic>,
    /// How the 30-bit checks of the sync and paging channels' messages are sent.
    pub check30: CheckForm,
    /// How the 16-bit checks of the traffic channel's messages are sent.
    pub check16: CheckForm,
    /// The number of samples in the file, 1 to 67,108,864.
    pub count: u64,
}
