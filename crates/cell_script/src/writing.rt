//! Writes a plan as the script that states it.

ghost use Rattle.std.specs.Prelude.{◌≡◌, ◌++◌, ◌∷◌, [], IfOk, OnOk, map};
ghost use Rattle.std.specs.List.{flat_map};
ghost use Rattle.cell_script.specs.Spelling.{lines_of, paging_statements, script_of};
ghost use Rattle.cell_script.specs.Spelling.{statement_line, sync_statements, traffic_statements};
ghost use Rattle.cell_script.specs.declared.statements.Statement.TheVariants as stated;

use crate::spelling::append_statement;
use crate::statements::{PagingLine, Statement, TrafficLine};
use cell_plan::{CellPlan, Page, PagingPlan, SyncPlan, TrafficFrame, TrafficPlan};
use chip_core::OutOfMemory;
use line_text::Text;
use std::alloc::Global;

/// Returns the script that states a plan, one line per statement: `cell`, `link`, `pilot`, `sync`
/// if the plan has a sync channel, each paging channel with its pages, and each traffic channel
/// with its frames. If any script names the plan, this one does too unless it is too big: see the
/// law `written_script_names_its_plan` of `script_laws`.
///
/// Returns [`OutOfMemory`] if allocation fails.
#[tactic(auto, unfolding(crate::specs::Spelling::script_of))]
pub fn script_text(alloc: Global, plan: &CellPlan) -> Result<Vec<u8>, OutOfMemory>
    ensures { IfOk result (λ script. script.items ≡ script_of plan.now) }
{
    let mut script = Vec::new(alloc);
    add_line(&mut script, &Statement::Cell(plan.cell))?;
    add_line(&mut script, &Statement::Link(plan.link))?;
    add_line(&mut script, &Statement::Pilot(plan.pilot))?;
    add_sync(&mut script, plan.sync)?;
    add_paging_channels(&mut script, plan.paging.as_slice())?;
    add_traffic_channels(&mut script, plan.traffic.as_slice())?;
    Ok(script)
}

/// Adds the line of a statement.
fn add_line(script: &mut Vec<u8>, statement: &Statement) -> Result<(), OutOfMemory>
    ensures { OnOk result (script.new.items ≡ script.old.items ++ statement_line statement.now) }
{
    let mut line = Text::empty();
    append_statement(&mut line, statement);
    script.extend_from_slice(line.bytes())?;
    script.push(b'\n')?;
    Ok(())
}

/// Adds the line of the sync channel, if there is one.
fn add_sync(script: &mut Vec<u8>, sync: Option<SyncPlan>) -> Result<(), OutOfMemory>
    ensures { OnOk result (script.new.items ≡
        script.old.items ++ lines_of (sync_statements sync)) }
{
    match sync {
        Some(sync) => add_line(script, &Statement::Sync(sync)),
        None => Ok(()),
    }
}

/// Adds the lines of paging channels with their pages.
fn add_paging_channels(script: &mut Vec<u8>, channels: &[PagingPlan]) -> Result<(), OutOfMemory>
    ensures { OnOk result (script.new.items ≡
        script.old.items ++ lines_of (flat_map paging_statements channels.now)) }
{
    for channel in channels {
        add_line(
            script,
            &Statement::Paging(PagingLine {
                number: channel.number,
                gain: channel.gain,
            }),
        )?;
        add_pages(script, channel.pages.as_slice())?;
    }
    Ok(())
}

/// Adds the lines of pages.
fn add_pages(script: &mut Vec<u8>, pages: &[Page]) -> Result<(), OutOfMemory>
    ensures { OnOk result (script.new.items ≡
        script.old.items ++ lines_of (map stated.Page pages.now)) }
{
    for page in pages {
        add_line(script, &Statement::Page(*page))?;
    }
    Ok(())
}

/// Adds the lines of traffic channels with their frames.
fn add_traffic_channels(script: &mut Vec<u8>, channels: &[TrafficPlan]) -> Result<(), OutOfMemory>
    ensures { OnOk result (script.new.items ≡
        script.old.items ++ lines_of (flat_map traffic_statements channels.now)) }
{
    for channel in channels {
        add_line(
            script,
            &Statement::Traffic(TrafficLine {
                row: channel.row,
                esn: channel.esn,
                offset: channel.offset,
                gain: channel.gain,
            }),
        )?;
        add_frames(script, channel.frames.as_slice())?;
    }
    Ok(())
}

/// Adds the lines of frames.
fn add_frames(script: &mut Vec<u8>, frames: &[TrafficFrame]) -> Result<(), OutOfMemory>
    ensures { OnOk result (script.new.items ≡
        script.old.items ++ lines_of (map stated.Frame frames.now)) }
{
    for frame in frames {
        add_line(script, &Statement::Frame(*frame))?;
    }
    Ok(())
}
