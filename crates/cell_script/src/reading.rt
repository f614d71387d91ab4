//! Reads a script as the plan that it names, or finds its fault.

ghost use Rattle.cell_script.specs.Common.{IsLawfulPlan};
ghost use Rattle.std.specs.Prelude.{◌≡◌, ◌≢◌, ◌≤◌, ◌<◌, ◌+◌, length, Ok, Err, IsOk, IfOk, IfErr};
ghost use Rattle.std.specs.Prelude.{MatchOption, None, Some};
ghost use Rattle.cell_script.specs.Script.{plan_named, stated_plan};
ghost use Rattle.cell_script.specs.ScriptJudged.{IsJudged};
ghost use Rattle.cell_script.specs.ScriptPlans.{HasRow};
ghost use Rattle.cell_script.specs.ScriptSplitting.{first_stated};
ghost use Rattle.line_text.specs.StatedValues.{length_before};

use crate::build::{add_statement, empty_plan};
use crate::judge::Judge;
use crate::script_fault::ScriptFault;
use crate::stage::Stage;
use crate::statements::{Statement, statement_in};
use cdma_io::Width;
use cell_plan::CellPlan;
use chip_core::OutOfMemory;
use line_text::length_before;
use std::alloc::Global;

/// The largest number of bytes in a script.
const MOST_BYTES: usize = 1_048_576;

/// Returns the plan that a script names for samples of a width, or its fault. Allocates only if the
/// script has no fault.
pub fn plan_of(alloc: Global, script: &[u8], width: Width) -> Result<CellPlan, ScriptFault>
    ensures value { IfOk result (λ plan. plan_named width script.now ≡ Ok plan) }
    ensures lawful { IfOk result (IsLawfulPlan width) }
    ensures fault { IfErr result (λ fault.
        fault ≢ ScriptFault.OutOfMemory → plan_named width script.now ≡ Err fault) }
    ensures memory { IfErr result (λ fault.
        fault ≡ ScriptFault.OutOfMemory → IsOk (plan_named width script.now)) }
{
    if script.len() > MOST_BYTES {
        return Err(ScriptFault::TooBig);
    }
    let judge = match judged(script) {
        Ok(judge) => judge,
        Err(n) => return Err(ScriptFault::Line { n }),
    };
    if let Some(fault) = judge.fault(width) {
        return Err(fault);
    }
    match plan_in(alloc, script) {
        Ok(plan) => Ok(plan),
        Err(OutOfMemory) => Err(ScriptFault::OutOfMemory),
    }
}

/// Returns what the checks need to know of the plan that a script states, or the number of the
/// first line that is misplaced or missing.
fn judged(script: &[u8]) -> Result<Judge, u32>
    requires { length script.now ≤ 1048576 }
    ensures judged { IfOk result (IsJudged script.now) }
    ensures fault { IfErr result (λ n. stated_plan script.now ≡ Err n) }
{
    let mut stage = Stage::Cell;
    let mut judge = Judge::new();
    let mut n = 1;
    let mut rest = script;
    while !rest.is_empty() {
        let Some((statement, bytes)) = first_statement(rest) else {
            return Err(n);
        };
        let Some(next) = stage.after(&statement) else {
            return Err(n);
        };
        judge = judge.with(&statement);
        stage = next;
        n += 1;
        rest = &rest[bytes..];
    }
    if stage.is_complete() {
        Ok(judge)
    } else {
        Err(n)
    }
}

/// Returns the plan of a script without a fault.
fn plan_in(alloc: Global, script: &[u8]) -> Result<CellPlan, OutOfMemory>
    requires { IsOk (stated_plan script.now) }
    ensures { IfOk result (λ plan. stated_plan script.now ≡ Ok plan) }
{
    let mut plan = empty_plan(alloc);
    let mut rest = script;
    while let Some((statement, bytes)) = first_statement(rest) {
        add_statement(alloc, &mut plan, &statement)?;
        rest = &rest[bytes..];
    }
    Ok(plan)
}

/// Returns the statement on the first line of a text and the line's number of bytes with its LF;
/// `None` if it is not a statement or has no LF.
#[tactic(auto, unfolding(crate::specs::ScriptSplitting::first_stated))]
fn first_statement(text: &[u8]) -> Option<(Statement, usize)>
    ensures { MatchOption result (first_stated text.now ≡ None)
        (λ first. (first_stated text.now ≡ Some first.0) ×
        (first.1 ≡ length_before 10 text.now + 1) × (first.1 ≤ length text.now) ×
        HasRow first.0) }
{
    let end = line_end(text)?;
    let statement = statement_in(&text[..end])?;
    Some((statement, end + 1))
}

/// Returns how many bytes precede the first LF.
fn line_end(text: &[u8]) -> Option<usize>
    ensures { MatchOption result (length_before 10 text.now ≡ length text.now)
        (λ end. (end ≡ length_before 10 text.now) × (end < length text.now)) }
{
    let end = length_before(text, b'\n');
    if end == text.len() { None } else { Some(end) }
}
