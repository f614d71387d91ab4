//! The plan that the statements of a script make.

ghost use Rattle.std.specs.Prelude.{◌≡◌, OnOk};
ghost use Rattle.cell_script.specs.ScriptDrafts.{empty_plan, opened_paging, opened_traffic};
ghost use Rattle.cell_script.specs.ScriptDrafts.{with_frame, with_page, with_statement};

use crate::statements::{PagingLine, Statement, TrafficLine};
use cell_plan::{
    CellIdentity, CellPlan, LinkPlan, Page, PagingPlan, PilotPlan, Series, TrafficFrame,
    TrafficPlan,
};
use chip_core::{CheckForm, OutOfMemory, Pair};
use std::alloc::Global;

/// Returns the plan before the first statement. Parts that were not stated yet have defaults:
/// offset 0, time 0, state 1, link factor 1, one sample, a pilot of gain 1, no other channels.
pub(crate) fn empty_plan(alloc: Global) -> CellPlan
    ensures { result ≡ empty_plan }
{
    CellPlan {
        cell: CellIdentity {
            pn: 0,
            time: 0,
            lc: 1,
            check30: CheckForm::Plain,
            check16: CheckForm::Plain,
        },
        link: LinkPlan {
            factor: Pair { i: 1, q: 0 },
            start: 0,
            samples: 1,
        },
        pilot: PilotPlan { gain: 1 },
        sync: None,
        paging: Series::new(alloc),
        traffic: Series::new(alloc),
    }
}

/// A channel without pages.
fn opened(alloc: Global, line: &PagingLine) -> PagingPlan
    ensures { result ≡ opened_paging line.now }
{
    PagingPlan {
        number: line.number,
        gain: line.gain,
        pages: Series::new(alloc),
    }
}

/// Adds a page to the last of the channels.
fn add_page(paging: &mut Series<PagingPlan>, page: &Page) -> Result<(), OutOfMemory>
    ensures { OnOk result (paging.new ≡ with_page paging.old page.now) }
{
    let Some(mut channel) = paging.pop() else {
        return Ok(());
    };
    channel.pages.push(*page)?;
    paging.push(channel)
}

/// A traffic channel without frames.
fn opened_traffic(alloc: Global, line: &TrafficLine) -> TrafficPlan
    ensures { result ≡ opened_traffic line.now }
{
    TrafficPlan {
        row: line.row,
        esn: line.esn,
        offset: line.offset,
        gain: line.gain,
        frames: Series::new(alloc),
    }
}

/// Adds a frame to the last of the traffic channels.
fn add_frame(traffic: &mut Series<TrafficPlan>, frame: &TrafficFrame) -> Result<(), OutOfMemory>
    ensures { OnOk result (traffic.new ≡ with_frame traffic.old frame.now) }
{
    let Some(mut channel) = traffic.pop() else {
        return Ok(());
    };
    channel.frames.push(*frame)?;
    traffic.push(channel)
}

/// Adds the content of a statement to a plan.
pub(crate) fn add_statement(
    alloc: Global,
    plan: &mut CellPlan,
    statement: &Statement,
) -> Result<(), OutOfMemory>
    ensures { OnOk result (plan.new ≡ with_statement plan.old statement.now) }
{
    match statement {
        Statement::Cell(cell) => plan.cell = *cell,
        Statement::Link(link) => plan.link = *link,
        Statement::Pilot(pilot) => plan.pilot = *pilot,
        Statement::Sync(sync) => plan.sync = Some(*sync),
        Statement::Paging(line) => return plan.paging.push(opened(alloc, line)),
        Statement::Page(page) => return add_page(&mut plan.paging, page),
        Statement::Traffic(line) => return plan.traffic.push(opened_traffic(alloc, line)),
        Statement::Frame(frame) => return add_frame(&mut plan.traffic, frame),
    }
    Ok(())
}
