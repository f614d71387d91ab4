//! The cell of a trial.

ghost use Rattle.std.specs.Prelude.{◌≡◌, IfOk};
ghost use Rattle.chip_core.specs.declared.width.Width.TheVariants.{Sixteen};
ghost use Rattle.trial_link.specs.Trial.{trial_plan};

use crate::cell::Cell;
use cdma_io::Width;
use chip_core::OutOfMemory;
use std::alloc::Global;
use trial_link::trial_script;

/// Returns the cell of the trial with this number, before its first sample, in samples of 16 bits.
///
/// Returns [`OutOfMemory`] if its script or the cell cannot be allocated; the script has no fault.
pub fn trial_cell(alloc: Global, number: u64) -> Result<Cell, OutOfMemory>
    ensures { IfOk result (λ cell. cell ≡
        record { width = Sixteen; plan = trial_plan number; given = 0 }) }
{
    let script = trial_script(alloc, number)?;
    match Cell::new(alloc, &script, Width::Sixteen) {
        Ok(cell) => Ok(cell),
        Err(_refused) => Err(OutOfMemory),
    }
}
