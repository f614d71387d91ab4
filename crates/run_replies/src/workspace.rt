//! The buffers of a run that follows samples.

ghost use Rattle.std.specs.Prelude.{◌≡◌, IfOk, vec_len};

use chip_core::{OutOfMemory, Sample};
use short_code::Codes;
use std::alloc::Global;

/// The greatest number of samples that are taken or written at once, after those of the search.
pub const PIECE: usize = 4096;

/// The buffers of a run.
#[derive(Drop)]
pub struct Workspace {
    /// The table of the pilot's codes.
    pub codes: Codes,
    /// Memory for the samples that the pilot search uses.
    pub span: Vec<Sample>,
    /// Memory for a piece of the remaining samples.
    pub piece: Vec<Sample>,
    ghost piece_len: { vec_len piece ≡ 4096 },
}

impl Workspace {
    /// Allocates the buffers for a span of `samples` samples.
    pub fn new(alloc: Global, samples: usize) -> Result<Workspace, OutOfMemory>
        ensures { IfOk result (λ w. vec_len w.span ≡ samples) }
    {
        let codes = Codes::new(alloc)?;
        let nothing = Sample { i: 0, q: 0 };
        let span = vec![in alloc; nothing; samples]?;
        let piece = vec![in alloc; nothing; PIECE]?;
        Ok(Workspace { codes, span, piece })
    }
}
