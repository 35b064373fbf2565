//! The order of a script, along which its session goes forward again.

ghost use Rattle.std.specs.Prelude.{◌≡◌, OnOk};
ghost use Rattle.debug_session.specs.Notes.{AreInRange};
ghost use Rattle.bench_report.specs.Lives.{IsSound};
ghost use Rattle.script_lang.specs.Lines.{IsLineInRange};

use crate::to_points::turns_to;
use bench_report::{LiveBench, Setting};
use board::Payloads;
use board_model::HartId;
use crew::Crew;
use script_lang::{Line, LineText};
use std::alloc::{AllocError, Global};

/// What comes next in an order.
#[derive(Clone, Copy, Drop)]
pub(crate) enum Ahead {
    /// So many turns of a hart.
    Turns(HartId, u32),
    /// The line at that place, which is no row of turns.
    Other(usize),
}

/// The lines with which a session began.
#[derive(Drop)]
pub(crate) struct ScriptOrder {
    lines: Vec<Line>,
    /// How many turns of each line do something: what comes after these is idle, and may stand in a history or not.
    busy: Vec<u32>,
    /// How many lines of the history that are no rows of turns stand in the order too, from the first on.
    known: usize,
}

/// A place among the turns of an order.
#[derive(Clone, Copy, Drop)]
struct OrderPlace {
    /// The line.
    line: usize,
    /// How many turns of it stand before.
    turns: u32,
    /// How many lines that are no rows of turns stand before.
    others: usize,
}

/// Lines that say the same, in their order.
fn copied(alloc: Global, lines: &[Line]) -> Result<Vec<Line>, AllocError> {
    let mut copy = Vec::new(alloc);
    for line in lines {
        let line = line.copy(alloc)?;
        copy.push(line)?;
    }
    Ok(copy)
}

/// Whether a line is a row of turns.
fn is_row(line: &Line) -> bool {
    match line {
        Line::Turn(_, _) => true,
        _ => false,
    }
}

/// How many of these lines are no rows of turns.
fn others(lines: &[Line]) -> usize {
    lines.iter().filter(|line| !is_row(line)).count()
}

/// Whether both lines have the same text.
fn say_same(alloc: Global, one: &Line, other: &Line) -> Result<bool, AllocError> {
    let one = LineText(one).to_string(alloc)?;
    let other = LineText(other).to_string(alloc)?;
    Ok(one.as_bytes() == other.as_bytes())
}

/// How many turns of a line do something, which is run.
fn busy_of<C: Crew>(
    setting: &Setting<'_, C>,
    line: &Line,
    bench: &mut LiveBench,
) -> Result<u32, AllocError>
    requires range { IsLineInRange setting.now.shape.now line.now }
    requires sound { IsSound bench.old }
    ensures sound { OnOk result (IsSound bench.new) }
{
    match line {
        Line::Turn(hart, count) => {
            let (row, _) = turns_to(setting, bench, *hart, *count, &[]);
            Ok(row.made())
        }
        _ => {
            bench.run(setting, line)?;
            Ok(0)
        }
    }
}

/// How many turns of each line do something, which are run from there on.
fn busy_along<C: Crew>(
    setting: &Setting<'_, C>,
    lines: &[Line],
    bench: &mut LiveBench,
) -> Result<Vec<u32>, AllocError>
    requires ranges { AreInRange setting.now.shape.now lines.now }
    requires sound { IsSound bench.old }
{
    let mut busy = Vec::new(setting.alloc);
    for line in lines {
        let turns = busy_of(setting, line, bench)?;
        busy.push(turns)?;
    }
    Ok(busy)
}

/// How many turns of each line do something, of a script that begins with these payloads.
fn busy_in<C: Crew>(
    setting: &Setting<'_, C>,
    begins: &Payloads,
    lines: &[Line],
) -> Result<Vec<u32>, AllocError>
    requires ranges { AreInRange setting.now.shape.now lines.now }
{
    let mut bench = LiveBench::blank(setting.alloc, setting.shape, begins)?;
    let busy = busy_along(setting, lines, &mut bench);
    bench.release();
    busy
}

impl OrderPlace {
    /// Stands before the next line.
    fn leave_line(&mut self) {
        self.line = self.line.saturating_add(1);
        self.turns = 0;
    }

    /// How many turns of that hart are left in the row in which it stands; none where it is no row of that hart.
    fn turns_left(&self, order: &ScriptOrder, hart: HartId) -> u32 {
        match order.lines.get(self.line) {
            Some(Line::Turn(by, turns)) if *by == hart => turns.saturating_sub(self.turns),
            _ => 0,
        }
    }

    /// Whether what is left of the row in which it stands does nothing.
    fn is_over(&self, order: &ScriptOrder) -> bool {
        match order.lines.get(self.line) {
            Some(Line::Turn(_, _)) => order.busy_at(self.line) <= self.turns,
            _ => false,
        }
    }

    /// Passes over `count` turns of a hart: whether they come next.
    fn pass_turns(&mut self, order: &ScriptOrder, hart: HartId, count: u32) -> bool {
        let mut left = count;
        for _ in self.line..order.lines.len() {
            let more = self.turns_left(order, hart);
            if left < more {
                self.turns = self.turns.saturating_add(left);
                return true;
            }
            if more == 0 && !self.is_over(order) {
                return false;
            }
            left = left.saturating_sub(more);
            self.leave_line();
            if left == 0 {
                return true;
            }
        }
        false
    }

    /// Passes over what does nothing, up to a line.
    fn pass_idle(&mut self, order: &ScriptOrder) {
        for _ in self.line..order.lines.len() {
            if !self.is_over(order) {
                return;
            }
            self.leave_line();
        }
    }

    /// Passes over a line that is no row of turns: whether one comes next.
    fn pass_other(&mut self, order: &ScriptOrder) -> bool {
        self.pass_idle(order);
        match order.lines.get(self.line) {
            None => false,
            Some(Line::Turn(_, _)) => false,
            Some(_) => {
                self.leave_line();
                self.others = self.others.saturating_add(1);
                true
            }
        }
    }

    /// Passes over a line of a history: whether it comes next.
    fn pass(&mut self, order: &ScriptOrder, line: &Line) -> bool {
        match line {
            Line::Turn(hart, count) => self.pass_turns(order, *hart, *count),
            _ => self.pass_other(order),
        }
    }
}

impl ScriptOrder {
    /// The order of these lines, which a history has that begins with these payloads.
    pub(crate) fn new<C: Crew>(
        setting: &Setting<'_, C>,
        begins: &Payloads,
        history: &[Line],
    ) -> Result<ScriptOrder, AllocError>
        requires ranges { AreInRange setting.now.shape.now history.now }
    {
        let busy = busy_in(setting, begins, history)?;
        let lines = copied(setting.alloc, history)?;
        let known = others(history);
        Ok(ScriptOrder { lines, busy, known })
    }

    /// How many turns of a line do something.
    fn busy_at(&self, line: usize) -> u32 {
        match self.busy.get(line) {
            Some(turns) => *turns,
            None => 0,
        }
    }

    /// Where a history stands that is a begin of the order.
    fn place_of(&self, history: &[Line]) -> Option<OrderPlace> {
        let mut place = OrderPlace {
            line: 0,
            turns: 0,
            others: 0,
        };
        for line in history {
            if !place.pass(self, line) {
                return None;
            }
        }
        if self.known < place.others {
            return None;
        }
        place.pass_idle(self);
        Some(place)
    }

    /// What comes next, where the history is a begin of the order and not all of it.
    pub(crate) fn next(&self, history: &[Line]) -> Option<Ahead> {
        let place = self.place_of(history)?;
        match self.lines.get(place.line)? {
            Line::Turn(hart, _) => {
                let busy = self.busy_at(place.line);
                Some(Ahead::Turns(*hart, busy.saturating_sub(place.turns)))
            }
            _ => Some(Ahead::Other(place.line)),
        }
    }

    /// The line that comes next, where it is no row of turns.
    pub(crate) fn next_line(&self, history: &[Line]) -> Option<&Line> {
        match self.next(history) {
            Some(Ahead::Other(line)) => self.lines.get(line),
            _ => None,
        }
    }

    /// Notes that a line follows this history: whether the order has it there is known from now on.
    pub(crate) fn follow(
        &mut self,
        alloc: Global,
        history: &[Line],
        line: &Line,
    ) -> Result<(), AllocError> {
        if is_row(line) {
            return Ok(());
        }
        let before = others(history);
        let same = match self.next_line(history) {
            None => false,
            Some(next) => say_same(alloc, next, line)?,
        };
        let known = self.known.min(before);
        self.known = if same {
            before.saturating_add(1)
        } else {
            known
        };
        Ok(())
    }
}
