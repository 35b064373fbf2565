//! The plan and the open store, to the numbers and bytes that C keeps, and back.
ghost use Rattle.std.specs.Prelude.{◌≡◌, ◌<◌, Some, None, IfSome};
ghost use Rattle.board_model.specs.Shapes.{Size, IsSize};
ghost use Rattle.layout.specs.Records.{IsRecord, IsInRange};
ghost use Rattle.layout.specs.declared.records.Record.{Record};
ghost use Rattle.planned_store.specs.declared.commits.Commit.{Commit};
ghost use Rattle.planned_store.specs.declared.commits.CommitStep.{CommitStep};
ghost use Rattle.planned_store.specs.declared.commits.Selected.{Selected};
ghost use Rattle.planned_store.specs.declared.formats.Formatting.{Formatting};
ghost use Rattle.planned_store.specs.declared.formats.FormatStep.{FormatStep};
ghost use Rattle.planned_store.specs.declared.plans.Plan.{Plan};
ghost use Rattle.planned_store.specs.declared.stores.OpenStore.{OpenStore};
ghost use Rattle.sbistore.specs.Ends.{Keeps};
ghost use Rattle.sbistore.specs.Packed.{IsSelectedSound, step_number, format_number, HasShape, HasSelected, HasCommit, IsPacked, with_shape, with_selected, with_commit, packed_by};

use crate::state::Sbistore;
use board_model::Shape;
use disk::Sector;
use layout::{Record, Side, parse_record, record_bytes};
use planned_store::{Commit, CommitStep, FormatStep, Formatting, OpenStore, Plan, Selected};

/// No plan is under way.
pub const NONE: u32 = 0;

const SETTLING: u32 = 1;

const READING_SUPERBLOCK: u32 = 2;

const READING_GATE: u32 = 3;

const READING_RECORD: u32 = 4;

const RENEWING: u32 = 5;

const COMMITTING: u32 = 6;

const FORMATTING: u32 = 7;

/// Keeps a plan.
pub fn pack(store: &mut Sbistore, plan: &Plan)
    ensures { store.new ≡ packed_by plan.now store.old }
{
    match plan {
        Plan::Settling(sectors) => {
            store.sectors = *sectors as u64;
            store.phase = SETTLING;
        }
        Plan::ReadingSuperblock(sectors) => {
            store.sectors = *sectors as u64;
            store.phase = READING_SUPERBLOCK;
        }
        Plan::ReadingGate(shape) => {
            pack_shape(store, shape);
            store.phase = READING_GATE;
        }
        Plan::ReadingRecord(shape, side) => {
            pack_shape(store, shape);
            store.side = side.number();
            store.phase = READING_RECORD;
        }
        Plan::Renewing(commit) => {
            pack_commit(store, commit);
            store.phase = RENEWING;
        }
        Plan::Committing(commit) => {
            pack_commit(store, commit);
            store.phase = COMMITTING;
        }
        Plan::Formatting(format) => {
            pack_shape(store, &format.shape);
            store.step = number_of_format(format.step);
            store.phase = FORMATTING;
        }
        Plan::Found(_) => store.phase = NONE,
        Plan::Refused(_) => store.phase = NONE,
    }
}

fn pack_shape(store: &mut Sbistore, shape: &Shape)
    ensures { store.new ≡ with_shape shape.now store.old }
{
    store.harts = shape.harts();
    store.pages = shape.pages();
    store.lanes = shape.lanes();
}

fn pack_selected(store: &mut Sbistore, selected: &Selected)
    ensures { store.new ≡ with_selected selected.now store.old }
{
    pack_shape(store, &selected.shape);
    store.side = selected.side.number();
    store.live = record_bytes(&selected.live);
}

fn pack_commit(store: &mut Sbistore, commit: &Commit)
    ensures { store.new ≡ with_commit commit.now store.old }
{
    pack_selected(store, &commit.from);
    store.next = record_bytes(&commit.next);
    store.step = number_of_step(commit.step);
}

fn number_of_step(step: CommitStep) -> u32
    ensures { result ≡ step_number step }
{
    match step {
        CommitStep::WriteRecord => 0,
        CommitStep::SyncRecord => 1,
        CommitStep::WriteGate => 2,
        CommitStep::SyncGate => 3,
        CommitStep::Committed => 4,
        CommitStep::Unchanged => 4,
        CommitStep::InDoubt => 4,
    }
}

fn number_of_format(step: FormatStep) -> u32
    ensures { result ≡ format_number step }
{
    match step {
        FormatStep::ReadSuperblock => 0,
        FormatStep::WriteRecord => 1,
        FormatStep::WriteGate => 2,
        FormatStep::SyncGate => 3,
        FormatStep::WriteSuperblock => 4,
        FormatStep::SyncSuperblock => 5,
        FormatStep::Formatted => 6,
        FormatStep::TooSmall => 6,
        FormatStep::Marked => 6,
        FormatStep::Failed => 6,
    }
}

/// The plan that is under way; none where no call of the library left the state so.
pub fn plan_of(store: &Sbistore) -> Option<Plan>
    ensures exact { (plan : Plan) → IsPacked plan store.now → result ≡ Some plan }
    ensures none { 7 < store.now.phase → result ≡ None }
{
    match store.phase {
        SETTLING => Some(Plan::Settling(store.sectors as usize)),
        READING_SUPERBLOCK => Some(Plan::ReadingSuperblock(store.sectors as usize)),
        READING_GATE => reading_gate(store),
        READING_RECORD => reading_record(store),
        RENEWING => renewing(store),
        COMMITTING => committing(store),
        FORMATTING => formatting(store),
        _ => None,
    }
}

fn reading_gate(store: &Sbistore) -> Option<Plan>
    ensures { (size : Size) → HasShape size store.now → result ≡ Some (Plan.ReadingGate size) }
{
    Some(Plan::ReadingGate(shape_of(store)?))
}

fn reading_record(store: &Sbistore) -> Option<Plan>
    ensures { (size : Size) → HasShape size store.now → store.now.side < 2
        → result ≡ Some (Plan.ReadingRecord size store.now.side) }
{
    let shape = shape_of(store)?;
    Some(Plan::ReadingRecord(shape, Side::new(store.side)?))
}

fn renewing(store: &Sbistore) -> Option<Plan>
    ensures { (c : Commit) → HasCommit c store.now → result ≡ Some (Plan.Renewing c) }
{
    Some(Plan::Renewing(commit_of(store)?))
}

fn committing(store: &Sbistore) -> Option<Plan>
    ensures { (c : Commit) → HasCommit c store.now → result ≡ Some (Plan.Committing c) }
{
    Some(Plan::Committing(commit_of(store)?))
}

fn formatting(store: &Sbistore) -> Option<Plan>
    ensures { (f : Formatting) → HasShape f.shape store.now → store.now.step ≡ format_number f.step
        → store.now.step < 6 → result ≡ Some (Plan.Formatting f) }
{
    let shape = shape_of(store)?;
    let step = format_step(store.step)?;
    Some(Plan::Formatting(Formatting { shape, step }))
}

fn commit_step(number: u32) -> Option<CommitStep>
    ensures { (step : CommitStep) → number ≡ step_number step → number < 4 → result ≡ Some step }
{
    match number {
        0 => Some(CommitStep::WriteRecord),
        1 => Some(CommitStep::SyncRecord),
        2 => Some(CommitStep::WriteGate),
        3 => Some(CommitStep::SyncGate),
        _ => None,
    }
}

fn format_step(number: u32) -> Option<FormatStep>
    ensures { (step : FormatStep) → number ≡ format_number step → number < 6 → result ≡ Some step }
{
    match number {
        0 => Some(FormatStep::ReadSuperblock),
        1 => Some(FormatStep::WriteRecord),
        2 => Some(FormatStep::WriteGate),
        3 => Some(FormatStep::SyncGate),
        4 => Some(FormatStep::WriteSuperblock),
        5 => Some(FormatStep::SyncSuperblock),
        _ => None,
    }
}

fn commit_of(store: &Sbistore) -> Option<Commit>
    ensures { (c : Commit) → HasCommit c store.now → result ≡ Some c }
{
    let from = selected_of(store)?;
    let next = record_in(&store.next, &from.shape)?;
    let step = commit_step(store.step)?;
    Some(Commit { from, next, step })
}

fn selected_of(store: &Sbistore) -> Option<Selected>
    ensures exact { (found : Selected) → HasSelected found store.now → result ≡ Some found }
    ensures sound { IfSome result (λ found. IsSelectedSound found) }
{
    let shape = shape_of(store)?;
    let live = record_in(&store.live, &shape)?;
    let side = Side::new(store.side)?;
    Some(Selected { shape, side, live })
}

fn record_in(sector: &Sector, shape: &Shape) -> Option<Record>
    ensures exact { (r : Record) → IsRecord shape.now r sector.now → result ≡ Some r }
    ensures sound { IfSome result (λ r. IsInRange shape.now r) }
{
    match parse_record(sector, shape) {
        Ok(record) => Some(record),
        Err(_) => None,
    }
}

fn shape_of(store: &Sbistore) -> Option<Shape>
    ensures exact { (size : Size) → HasShape size store.now → result ≡ Some size }
    ensures sound { IfSome result (λ size. IsSize size) }
{
    match Shape::new(store.harts as u64, store.pages as u64, store.lanes as u64) {
        Ok(shape) => Some(shape),
        Err(_) => None,
    }
}

/// The open store; none where no open stands.
pub fn store_of(store: &Sbistore) -> Option<OpenStore>
    ensures exact { (life : OpenStore) → Keeps life store.now → result ≡ Some life }
    ensures sound { IfSome result (λ life. IsSelectedSound life.selected) }
    ensures closed { store.now.opened ≡ 0 → result ≡ None }
{
    if store.opened == 0 {
        return None;
    }
    let selected = selected_of(store)?;
    Some(OpenStore {
        selected,
        receipts: store.receipts,
        over: store.over != 0,
        down: store.down != 0,
    })
}

/// Keeps an open store.
pub fn keep(store: &mut Sbistore, life: &OpenStore)
    ensures { IsSelectedSound life.now.selected → Keeps life.now store.new }
{
    pack_selected(store, &life.selected);
    store.receipts = life.receipts;
    store.over = life.over as u32;
    store.down = life.down as u32;
    store.opened = 1;
}
