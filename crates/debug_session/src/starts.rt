//! The history with which a session begins.

ghost use Rattle.std.specs.Prelude.{◌≡◌, ◌<◌, ◌-◌, [], Ok, IfOk, OnOk};
ghost use Rattle.debug_session.specs.Notes.{AreInRange};
ghost use Rattle.debug_session.specs.Ats.{IsAt};
ghost use Rattle.debug_session.specs.Steps.{AreNoted};

use crate::timeline::Timeline;
use bench_report::Setting;
use board::Payloads;
use crew::Crew;
use script_lang::Line;
use std::alloc::AllocError;

/// Runs lines from the begin of a timeline on.
fn run_all<C: Crew>(
    setting: &Setting<'_, C>,
    lines: Vec<Line>,
    timeline: &mut Timeline,
) -> Result<(), AllocError>
    requires ranges { AreInRange setting.now.shape.now lines.items }
    requires at { IsAt setting.now.shape.now timeline.old }
    requires none { timeline.old.history ≡ [] }
    ensures at { OnOk result (IsAt setting.now.shape.now timeline.new) }
    ensures noted { OnOk result (AreNoted lines.items [] timeline.new.history) }
    ensures begins { OnOk result (timeline.new.begins ≡ timeline.old.begins) }
{
    for line in lines {
        timeline.line(setting, line)?;
    }
    Ok(())
}

/// The timeline after these lines.
pub(crate) fn begun<C: Crew>(
    setting: &Setting<'_, C>,
    begins: Payloads,
    lines: Vec<Line>,
) -> Result<Timeline, AllocError>
    requires ranges { AreInRange setting.now.shape.now lines.items }
    ensures at { IfOk result (IsAt setting.now.shape.now) }
    ensures noted { IfOk result (λ t. AreNoted lines.items [] t.history) }
    ensures begins { IfOk result (λ t. t.begins ≡ begins) }
{
    let mut timeline = Timeline::blank(setting.alloc, setting.shape, begins)?;
    match run_all(setting, lines, &mut timeline) {
        Ok(()) => Ok(timeline),
        Err(e) => {
            timeline.release();
            Err(e)
        }
    }
}
