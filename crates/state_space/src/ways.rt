//! The way to a row.

ghost use Rattle.std.specs.Prelude.{◌≡◌, ◌<◌, ◌≤◌, ◌+◌, ◌-◌, ℕ, length, IfOk, IfSome, slice_index_or};
ghost use Rattle.state_space.specs.Graphs.{IsWhole, expanded_of, first_step, end_step};
ghost use Rattle.state_space.specs.Ways.{AreFindings, IsWay};

use crate::graph::Graph;
use crate::refusal::Refused;
use std::alloc::Global;

/// A step and the row from which it leads.
#[derive(Clone, Copy, Drop)]
pub struct Finding {
    from: u32,
    step: u32,
}

/// Notes the step where it leads to the next row that none was noted for.
#[inline]
#[tactic(auto, using(crate::proofs::Walked::findings_more))]
fn note(graph: &Graph, findings: &mut Vec<Finding>, row: usize, step: usize) -> Result<(), Refused>
    requires whole { IsWhole graph.now }
    requires row { row < expanded_of graph.now }
    requires from { first_step graph.now row ≤ step }
    requires to { step < end_step graph.now row }
    requires each { AreFindings graph.now findings.old.items }
    ensures { AreFindings graph.now findings.new.items }
{
    let next = findings.len() + 1;
    if graph.target(step) != next || next <= row {
        return Ok(());
    }
    let (Ok(from), Ok(step)) = (u32::try_from(row), u32::try_from(step)) else {
        return Err(Refused::Numbers);
    };
    findings.push(Finding { from, step })?;
    Ok(())
}

/// Of each row but the start the step by which it was found: the first that leads to it. They come in the order of the rows.
fn findings(alloc: Global, graph: &Graph) -> Result<Vec<Finding>, Refused>
    requires { IsWhole graph.now }
    ensures { IfOk result (λ findings. AreFindings graph.now findings.items) }
{
    let mut findings = Vec::new(alloc);
    for row in 0..graph.expanded() {
        for step in graph.first_step(row)..graph.end_step(row) {
            note(graph, &mut findings, row, step)?;
        }
    }
    Ok(findings)
}

/// Events that lead from the start to a row, or `None` where no step is known to lead there.
#[tactic(auto, using(crate::proofs::Walked::way_more))]
pub fn way_to(alloc: Global, graph: &Graph, row: usize) -> Result<Option<Vec<u8>>, Refused>
    requires { IsWhole graph.now }
    ensures { IfOk result (λ found. IfSome found (λ way. IsWay graph.now way.items row)) }
{
    let findings = findings(alloc, graph)?;
    let mut way = Vec::new(alloc);
    let mut at = row;
    while 0 < at {
        if findings.len() < at {
            return Ok(None);
        }
        let finding = findings[at - 1];
        way.push(graph.event(finding.step as usize))?;
        at = finding.from as usize;
    }
    way.reverse();
    Ok(Some(way))
}
