//! libsbistore.a: the store for C, as planned calls (include/sbistore.h). The caller keeps the state, makes the calls of its device that are
//! asked for, and tells how each ended. Here is what turns that state into the values of the crate `planned_store`, and back.
#![tactic(auto)]

ghost use Rattle.std.specs.Prelude.{◌≡◌, ◌<◌, ℕ, Bool, Some, None, IsSome};
ghost use Rattle.layout.specs.Records.{durable_in};
ghost use Rattle.board_model.specs.Shapes.{IsSize, board_size};
ghost use Rattle.board_model.specs.declared.durable.Command.{Command};
ghost use Rattle.planned_store.specs.Saves.{HasBoard, NoSave};
ghost use Rattle.store.specs.declared.saving.Resumption.{Resumption};
ghost use Rattle.planned_store.specs.declared.loads.Loading.{Loading};
ghost use Rattle.planned_store.specs.declared.saves.Saving.{Saving};
ghost use Rattle.planned_store.specs.Commits.{Answer};
ghost use Rattle.planned_store.specs.Opens.{opened_by};
ghost use Rattle.planned_store.specs.Plans.{asked, Puts, Goes, BeginsOpen, BeginsFormat};
ghost use Rattle.planned_store.specs.declared.plans.Plan.{Plan};
ghost use Rattle.planned_store.specs.declared.stores.OpenStore.{OpenStore};
ghost use Rattle.sbistore.specs.Ends.{flag_number, Keeps, NoCommand, EndsOpen, EndsCommand, answer_code, Ended, Begun, KeepsOn, IsCommand, CommandBegun};
ghost use Rattle.sbistore.specs.Images.{IsLoadPacked, LoadNext, LoadBegun, IsSavePacked, SaveNext, SaveBegun};
ghost use Rattle.sbistore.specs.Told.{told_of};
ghost use Rattle.sbistore.specs.Next.{IsAnswer, AsksFor, NextOf};
ghost use Rattle.sbistore.specs.Packed.{IsPacked, IsSound, packed_by};

mod images;
mod packing;
mod state;

use board_model::{Command, Entry, Reason, Refusal, Shape};
use disk::{Fault, Sector};
use images::{LOADING, SAVING, begin_load, begin_save, next_of_load, next_of_save, resumption};
use packing::{NONE, keep, pack, plan_of, store_of};
use planned_store::{OpenStore, Plan, Request, plan_load, plan_suspend};
use state::{DONE, Durable, NO_COMMAND, NOT_OPEN, READ, SPOILT, SYNC, Sbistore, WRITE, tell};

/// Begins an open of a device of so many sectors. What was open in this state is no more.
#[unsafe(no_mangle)]
pub extern "C" fn sbistore_open(store: &mut Sbistore, sectors: usize)
    ensures { (plan : Plan) × BeginsOpen sectors plan × Begun plan store.old store.new }
{
    store.opened = 0;
    begin(store, &Plan::open(sectors));
}

/// Begins a format of a device of so many sectors, for a board of that shape. What was open in this state is no more.
#[unsafe(no_mangle)]
pub extern "C" fn sbistore_format(
    store: &mut Sbistore,
    sectors: usize,
    harts: u64,
    pages: u64,
    lanes: u64,
)
    ensures bad { (IsSize (board_size harts pages lanes) → ⊥)
        → store.new ≡ record store.old { opened = 0; phase = 0; number = 3 } }
    ensures begins { IsSize (board_size harts pages lanes)
        → (plan : Plan) × BeginsFormat sectors (board_size harts pages lanes) plan × Begun plan store.old store.new }
{
    store.opened = 0;
    match Shape::new(harts, pages, lanes) {
        Ok(shape) => begin(store, &Plan::format(shape, sectors)),
        Err(refusal) => end(store, refusal.code()),
    }
}

/// Begins a command: its kind, and what it carries.
#[unsafe(no_mangle)]
pub extern "C" fn sbistore_command(store: &mut Sbistore, kind: u32, one: u32, other: u32)
    ensures none { NoCommand kind → store.new ≡ record store.old { phase = 0; number = 101 } }
    ensures closed { (NoCommand kind → ⊥) → store.old.opened ≡ 0
        → store.new ≡ record store.old { phase = 0; number = 100 } }
    ensures begins { (life : OpenStore) → (command : Command) → Keeps life store.old → IsCommand kind one other command
        → CommandBegun life command store.old store.new }
{
    let Some(command) = command_of(kind, one, other) else {
        return end(store, NO_COMMAND);
    };
    let Some(open) = store_of(store) else {
        return end(store, NOT_OPEN);
    };
    store.ends = flag(Entry::Command(command).ends_life());
    match open.plan(command) {
        Ok(plan) => begin(store, &plan),
        Err(refusal) => end(store, refusal.code()),
    }
}

/// Begins a load of the image that stands into a memory of so many pages.
#[unsafe(no_mangle)]
pub extern "C" fn sbistore_load(store: &mut Sbistore, pages: u64)
    ensures closed { store.old.opened ≡ 0 → store.new ≡ record store.old { phase = 0; number = 100 } }
    ensures begins { (life : OpenStore) → Keeps life store.old → LoadBegun life pages store.old store.new }
{
    let Some(open) = store_of(store) else {
        return end(store, NOT_OPEN);
    };
    match plan_load(&open, pages) {
        Ok(plan) => begin_load(store, &plan),
        Err(refusal) => end(store, refusal.code()),
    }
}

/// Begins a suspension of a memory of so many pages, where the board goes on with that hart at that address, and with that value.
#[unsafe(no_mangle)]
pub extern "C" fn sbistore_suspend(
    store: &mut Sbistore,
    pages: u64,
    hart: u32,
    address: u64,
    opaque: u64,
)
    ensures closed { store.old.opened ≡ 0 → store.new ≡ record store.old { phase = 0; number = 100 } }
    ensures begins { (life : OpenStore) → Keeps life store.old
        → SaveBegun life pages hart address opaque store.old store.new }
{
    let Some(open) = store_of(store) else {
        return end(store, NOT_OPEN);
    };
    let Some(at) = resumption(&open, hart, address, opaque) else {
        return end(store, no_board(&open).code());
    };
    store.ends = flag(true);
    match plan_suspend(&open, pages, at) {
        Ok(plan) => begin_save(store, &plan),
        Err(refusal) => end(store, refusal.code()),
    }
}

/// Why a suspension with a hart or an address that the board has not is refused.
fn no_board(life: &OpenStore) -> Refusal
    ensures { (pages : ℕ) (at : Resumption) → (HasBoard life.now.selected.shape pages at.hart at.address → ⊥)
        → NoSave life.now pages at result }
{
    match life.takes() {
        Ok(()) => Refusal::BadShape,
        Err(refusal) => refusal,
    }
}

/// Tells how the last request ended, 0 where it went well, and asks for the next one: 0 done, 1 read, 2 write, 3 sync, 4 read
/// a page. The first call after a begin has nothing to tell.
#[unsafe(no_mangle)]
pub extern "C" fn sbistore_next(store: &mut Sbistore, failed: u32, sector: &mut [u8; 512]) -> u32
    ensures nothing { store.old.phase ≡ 0 → (result ≡ 0) × (store.new ≡ store.old) }
    ensures spoilt { 9 < store.old.phase
        → (result ≡ 0) × (store.new ≡ record store.old { phase = 0; number = 102 }) }
    ensures saves { (life : OpenStore) → (plan : Saving) → IsSavePacked life plan store.old
        → SaveNext life plan store.old failed result store.new sector.new }
    ensures loads { (life : OpenStore) → (plan : Loading) → IsLoadPacked life plan store.old
        → LoadNext life plan store.old failed sector.old result store.new }
    ensures plans { (plan : Plan) → IsPacked plan store.old
        → NextOf plan store.old failed sector.old result store.new sector.new }
{
    if store.phase == NONE {
        return DONE;
    }
    if store.phase == LOADING {
        return next_of_load(store, failed, sector);
    }
    if store.phase == SAVING {
        return next_of_save(store, failed, sector);
    }
    let Some(plan) = plan_of(store) else {
        end(store, SPOILT);
        return DONE;
    };
    let plan = gone_on(store.asked, plan, failed, sector);
    ask(store, &plan, sector)
}

/// The plan once it is told how its last call ended, where one was asked for.
fn gone_on(asked: u32, plan: Plan, failed: u32, sector: &Sector) -> Plan
    ensures first { asked ≡ 0 → result ≡ plan }
    ensures told { 0 < asked → (answer : Answer) × IsAnswer failed answer × Goes plan answer sector.now result }
{
    if asked == 0 {
        plan
    } else {
        plan.told(answer(failed), sector)
    }
}

/// Asks for the call that comes next, or ends the plan.
pub(crate) fn ask(store: &mut Sbistore, plan: &Plan, sector: &mut Sector) -> u32
    ensures asks { IsSound plan.now → AsksFor (asked plan.now) plan.now result store.new }
    ensures bytes { Puts plan.now sector.new }
    ensures ends { IsSound plan.now → asked plan.now ≡ Request.Done → Ended plan.now store.old store.new }
    ensures keeps { (asked plan.now ≡ Request.Done → ⊥) → KeepsOn plan.now store.old store.new }
{
    match plan.asks(sector) {
        Request::Read(number) => keep_asked(store, plan, READ, number),
        Request::Write(number) => keep_asked(store, plan, WRITE, number),
        Request::Sync => keep_asked(store, plan, SYNC, 0),
        Request::Done => {
            finish(store, plan);
            DONE
        }
    }
}

/// Keeps a plan that asks for a call of that kind.
fn keep_asked(store: &mut Sbistore, plan: &Plan, kind: u32, number: usize) -> u32
    ensures kind { result ≡ kind }
    ensures store { store.new ≡ record (packed_by plan.now store.old) { asked = 1; number = number } }
{
    pack(store, plan);
    store.asked = 1;
    store.number = number as u64;
    kind
}

/// Keeps a plan that has not asked for a call yet.
fn keep_begun(store: &mut Sbistore, plan: &Plan)
    ensures { store.new ≡ record (packed_by plan.now store.old) { asked = 0 } }
{
    pack(store, plan);
    store.asked = 0;
}

/// The durable state of an open store: 0, or 100 where none is open.
#[unsafe(no_mangle)]
pub extern "C" fn sbistore_look(store: &Sbistore, durable: &mut Durable) -> u32
    ensures open { (life : OpenStore) → Keeps life store.now
        → (result ≡ 0) × (durable.new ≡ told_of (durable_in life.selected.live)) }
    ensures closed { store.now.opened ≡ 0 → (result ≡ 100) × (durable.new ≡ durable.old) }
{
    match store_of(store) {
        Some(open) => {
            tell(&open.now(), durable);
            0
        }
        None => NOT_OPEN,
    }
}

/// The command of that kind.
fn command_of(kind: u32, one: u32, other: u32) -> Option<Command>
    ensures none { NoCommand kind → result ≡ None }
    ensures some { (NoCommand kind → ⊥) → IsSome result }
    ensures exact { (command : Command) → IsCommand kind one other command → result ≡ Some command }
{
    match kind {
        1 => Some(Command::Slot(one)),
        2 => Some(Command::Reset(if one == 0 {
            Reason::NoReason
        } else {
            Reason::SystemFailure
        })),
        3 => Some(Command::Consume),
        4 => Some(Command::Discard),
        5 => Some(Command::Tries(one, other)),
        6 => Some(Command::Good),
        7 => Some(Command::Attempt),
        _ => None,
    }
}

pub(crate) fn answer(failed: u32) -> Result<(), Fault>
    ensures { IsAnswer failed result }
{
    if failed == 0 { Ok(()) } else { Err(Fault) }
}

/// The plan is under way, and its first call is still to be asked for.
fn begin(store: &mut Sbistore, plan: &Plan)
    ensures { IsSound plan.now → Begun plan.now store.old store.new }
{
    let mut scratch = [0; 512];
    if plan.asks(&mut scratch) == Request::Done {
        finish(store, plan);
    } else {
        keep_begun(store, plan);
    }
}

/// No plan is under way: this is the code of the last one.
pub(crate) fn end(store: &mut Sbistore, code: u32)
    ensures { store.new ≡ record store.old { phase = 0; number = code } }
{
    store.phase = NONE;
    store.number = code as u64;
}

/// What a plan that has ended makes of the open store, and its code.
fn finish(store: &mut Sbistore, plan: &Plan)
    ensures { IsSound plan.now → Ended plan.now store.old store.new }
{
    match plan {
        Plan::Committing(_) => finish_command(store, plan),
        Plan::Formatting(_) => end(store, code_of(plan.formatted())),
        _ => finish_open(store, plan),
    }
}

fn finish_open(store: &mut Sbistore, plan: &Plan)
    ensures { IsSound plan.now → EndsOpen (opened_by plan.now) store.new }
{
    match plan.opened() {
        Ok(open) => {
            keep(store, &open);
            end(store, 0);
        }
        Err(refusal) => end(store, refusal.code()),
    }
}

fn finish_command(store: &mut Sbistore, plan: &Plan)
    ensures { IsSound plan.now → (life : OpenStore) → (over : Bool) → Keeps life store.old → store.old.ends ≡ flag_number over
        → EndsCommand life over plan.now store.new }
{
    let Some(mut open) = store_of(store) else {
        return end(store, SPOILT);
    };
    let receipt = open.ended(is_set(store.ends), plan);
    keep(store, &open);
    match receipt {
        Ok(_) => end(store, 0),
        Err(refusal) => end(store, refusal.code()),
    }
}

fn flag(set: bool) -> u32
    ensures { result ≡ flag_number set }
{
    set as u32
}

fn is_set(number: u32) -> bool
    ensures { (set : Bool) → number ≡ flag_number set → result ≡ set }
{
    number != 0
}

pub(crate) fn code_of(answer: Result<(), Refusal>) -> u32
    ensures { result ≡ answer_code answer }
{
    match answer {
        Ok(()) => 0,
        Err(refusal) => refusal.code(),
    }
}
