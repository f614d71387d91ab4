//! A cell, opened from its script.

ghost use Rattle.std.specs.Prelude.{◌≡◌, ◌≢◌, ◌≤◌, ◌+◌, length, map, take, drop, All, Ok, Err};
ghost use Rattle.std.specs.Prelude.{IsOk, IfOk, IfErr};
ghost use Rattle.chip_core.specs.Complex.{of_sample};
ghost use Rattle.cdma_io.specs.SampleFile.{HasBits, IsLawfulHeader};
ghost use Rattle.cell_plan.specs.Plan.{IsLawfulPlan};
ghost use Rattle.cell_plan.specs.Signal.{samples_of};
ghost use Rattle.cell_plan.specs.Transmitter.{header_of};
ghost use Rattle.cell_script.specs.Script.{plan_named};

use cdma_io::{Header, Width};
use cell_samples::CellSamples;
use cell_script::{ScriptFault, plan_of};
use chip_core::{OutOfMemory, Sample};
use std::alloc::Global;
use std::marker::Model;

/// A cell that returns its samples in order, as a handset receives them over the cell's link.
///
/// Contracts see the width of the samples, the plan, and how many samples it has returned.
#[derive(Drop)]
pub struct Cell {
    samples: CellSamples,
}

impl Model for Cell {
    ghost use Rattle.cell_plan.specs.Transmitter.{CellState};

    ghost Value = { CellState };

    ghost view = { λ c. c.samples };
}

impl Cell {
    /// Opens the cell that a script names, before its first sample, in samples of `width`. Returns
    /// the fault of a script that names no cell.
    ///
    /// The faults are checked in the order of [`ScriptFault`], each over the whole script.
    /// [`ScriptFault::OutOfMemory`] is returned only if there is no other fault.
    pub fn new(alloc: Global, script: &[u8], width: Width) -> Result<Cell, ScriptFault>
        ensures planned { IfOk result (λ cell. plan_named width script.now ≡ Ok cell.plan) }
        ensures fresh { IfOk result (λ cell. (cell.width ≡ width) × (cell.given ≡ 0)) }
        ensures lawful { IfOk result (λ cell. IsLawfulPlan width cell.plan) }
        ensures fault { IfErr result (λ fault.
            fault ≢ ScriptFault.OutOfMemory → plan_named width script.now ≡ Err fault) }
        ensures memory { IfErr result (λ fault.
            fault ≡ ScriptFault.OutOfMemory → IsOk (plan_named width script.now)) }
    {
        let plan = plan_of(alloc, script, width)?;
        match CellSamples::of_plan(alloc, width, plan) {
            Ok(samples) => Ok(Cell { samples }),
            Err(OutOfMemory) => Err(ScriptFault::OutOfMemory),
        }
    }

    /// Returns the header of the cell's file: version 1 for samples of 16 bits and 2 for those of
    /// 8, the forms of the checks, and the number of all samples.
    pub fn header(&self) -> Header
        ensures value { result ≡ header_of self.now.width self.now.plan }
        ensures lawful { IsLawfulHeader result }
    {
        self.samples.header()
    }

    /// Returns the number of samples that the cell has not returned yet.
    pub fn left(&self) -> u64
        ensures { result + self.now.given ≡ self.now.plan.link.samples }
    {
        self.samples.left()
    }

    /// Fills `out` with the next samples of the cell, in order.
    ///
    /// However the samples are divided, the pieces together are those of the definition.
    pub fn fill(&mut self, out: &mut [Sample])
        requires { self.old.given + length out.old ≤ self.old.plan.link.samples }
        ensures samples { map of_sample out.new ≡
            take (length out.old) (drop self.old.given (samples_of self.old.plan)) }
        ensures fit { All (HasBits self.old.width) out.new }
        ensures state { self.new ≡ record self.old { given = self.old.given + length out.old } }
    {
        self.samples.fill(out)
    }
}
