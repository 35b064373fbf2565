//! A load and a suspension: their plans, to the numbers and bytes that C keeps beside the open store, and back.
ghost use Rattle.std.specs.Prelude.{◌≡◌, ◌<◌, ◌≤◌, Some, None, IfSome, IfNone};
ghost use Rattle.board_model.specs.Shapes.{Size, IsValidAddress};
ghost use Rattle.planned_store.specs.Loads.{HasPlace, LoadGoes, load_asks, loaded_by};
ghost use Rattle.planned_store.specs.Saves.{HasPage, SaveGoes, SavePuts, save_asks};
ghost use Rattle.planned_store.specs.declared.loads.Loading.{Loading};
ghost use Rattle.planned_store.specs.declared.loads.LoadStep.{LoadStep};
ghost use Rattle.planned_store.specs.declared.saves.Saving.{Saving};
ghost use Rattle.planned_store.specs.declared.saves.SaveStep.{SaveStep};
ghost use Rattle.planned_store.specs.Commits.{Answer};
ghost use Rattle.planned_store.specs.declared.stores.OpenStore.{OpenStore};
ghost use Rattle.sbistore.specs.Ends.{answer_code};
ghost use Rattle.sbistore.specs.Images.{load_number, page_of_step, with_load, IsLoadPacked, IsStep, AsksLoad, LoadNext, save_number, with_save, IsSavePacked, IsSaveSound, AsksSave, Commits, SaveNext, resumption};
ghost use Rattle.sbistore.specs.Next.{IsAnswer};

use crate::packing::store_of;
use crate::state::{DONE, READ, READ_PAGE, SPOILT, SYNC, Sbistore, WRITE, WRITE_PAGE};
use crate::{answer, ask, code_of, end};
use board_model::{Refusal, Shape};
use disk::Sector;
use planned_store::{ImageRequest, LoadStep, Loading, OpenStore, Plan, SaveStep, Saving};
use store::Resumption;

/// A load is under way.
pub const LOADING: u32 = 8;

/// A suspension is under way, before its commit.
pub const SAVING: u32 = 9;

/// Keeps a load beside the open store that it is of.
fn pack_load(store: &mut Sbistore, plan: &Loading)
    ensures { store.new ≡ with_load plan.now store.old }
{
    store.done = plan.done as u64;
    store.next = plan.came;
    store.step = number_of_load(plan.step);
    store.page = page_of_load(plan.step);
    store.phase = LOADING;
}

fn number_of_load(step: LoadStep) -> u32
    ensures { result ≡ load_number step }
{
    match step {
        LoadStep::ReadHead => 0,
        LoadStep::ReadPage(_) => 1,
        LoadStep::Loaded => 2,
        LoadStep::Spoilt => 2,
        LoadStep::Failed => 2,
    }
}

fn page_of_load(step: LoadStep) -> u64
    ensures { result ≡ page_of_step step }
{
    match step {
        LoadStep::ReadHead => 0,
        LoadStep::ReadPage(page) => page.number() as u64,
        LoadStep::Loaded => 0,
        LoadStep::Spoilt => 0,
        LoadStep::Failed => 0,
    }
}

/// The load that is under way; none where no call of the library left the state so.
fn loading_of(store: &Sbistore) -> Option<Loading>
    ensures exact { (life : OpenStore) → (plan : Loading) → IsLoadPacked life plan store.now → result ≡ Some plan }
    ensures place { IfSome result (λ plan. HasPlace plan) }
{
    let Some(open) = store_of(store) else {
        return None;
    };
    let shape = open.selected.shape;
    let image = open.selected.live.image;
    let Some(saved) = image else {
        return None;
    };
    if shape.pages() as u64 <= store.done {
        return None;
    }
    let Some(step) = load_step(store, &shape) else {
        return None;
    };
    Some(Loading {
        shape,
        saved,
        done: store.done as usize,
        came: store.next,
        step,
    })
}

/// The step of a load that has not ended.
fn load_step(store: &Sbistore, shape: &Shape) -> Option<LoadStep>
    ensures exact { (step : LoadStep) → IsStep shape.now step store.now → result ≡ Some step }
    ensures some { IfSome result (λ step. IsStep shape.now step store.now) }
{
    match store.step {
        0 => Some(LoadStep::ReadHead),
        1 => match shape.page(store.page) {
            Some(page) => Some(LoadStep::ReadPage(page)),
            None => None,
        },
        _ => None,
    }
}

/// Tells a load how its last call ended, where one was asked for, and asks for the next one.
pub fn next_of_load(store: &mut Sbistore, failed: u32, sector: &Sector) -> u32
    ensures { (life : OpenStore) → (plan : Loading) → IsLoadPacked life plan store.old
        → LoadNext life plan store.old failed sector.now result store.new }
{
    let Some(plan) = loading_of(store) else {
        end(store, SPOILT);
        return DONE;
    };
    let plan = load_gone_on(store.asked, plan, failed, sector);
    ask_load(store, &plan)
}

/// The load once it is told how its last call ended, where one was asked for.
fn load_gone_on(asked: u32, plan: Loading, failed: u32, sector: &Sector) -> Loading
    requires place { HasPlace plan }
    ensures place { HasPlace result }
    ensures same { (result.shape ≡ plan.shape) × (result.saved ≡ plan.saved) }
    ensures first { asked ≡ 0 → result ≡ plan }
    ensures told { 0 < asked → (answer : Answer) × IsAnswer failed answer × LoadGoes plan answer sector.now result }
{
    if asked == 0 {
        return plan;
    }
    let mut next = plan;
    next.told(answer(failed), sector);
    next
}

/// Asks for the call of a load that comes next, or ends it.
fn ask_load(store: &mut Sbistore, plan: &Loading) -> u32
    requires place { HasPlace plan.now }
    ensures { AsksLoad (load_asks plan.now) plan.now store.old result store.new }
{
    match plan.asks() {
        ImageRequest::Read(number) => keep_load(store, plan, READ, number),
        ImageRequest::ReadPage(number, _) => keep_load(store, plan, READ_PAGE, number),
        ImageRequest::Write(_) => end_load(store, plan),
        ImageRequest::WritePage(..) => end_load(store, plan),
        ImageRequest::Sync => end_load(store, plan),
        ImageRequest::Done => end_load(store, plan),
    }
}

/// No load is under way: the code is the answer of the last one.
fn end_load(store: &mut Sbistore, plan: &Loading) -> u32
    ensures kind { result ≡ 0 }
    ensures store { store.new ≡ record store.old { phase = 0; number = answer_code (loaded_by plan.now) } }
{
    end(store, code_of(plan.loaded()));
    DONE
}

/// Keeps a load that asks for a call of that kind.
fn keep_load(store: &mut Sbistore, plan: &Loading, kind: u32, number: usize) -> u32
    ensures kind { result ≡ kind }
    ensures store { store.new ≡ record (with_load plan.now store.old) { asked = 1; number = number } }
{
    pack_load(store, plan);
    store.asked = 1;
    store.number = number as u64;
    kind
}

/// Keeps a load that has not asked for a call yet.
pub fn begin_load(store: &mut Sbistore, plan: &Loading)
    ensures { store.new ≡ record (with_load plan.now store.old) { asked = 0 } }
{
    pack_load(store, plan);
    store.asked = 0;
}

/// Where the board goes on, where the board of the store has that hart and that address.
pub fn resumption(life: &OpenStore, hart: u32, address: u64, opaque: u64) -> Option<Resumption>
    ensures some { IfSome result (λ at. at ≡ resumption hart address opaque) }
    ensures fits { IfSome result (λ at. (at.hart < life.now.selected.shape.harts)
        × IsValidAddress life.now.selected.shape at.address) }
    ensures none { IfNone result ((hart < life.now.selected.shape.harts)
        → IsValidAddress life.now.selected.shape address → ⊥) }
{
    let shape = &life.selected.shape;
    let Some(id) = shape.hart(hart as u64) else {
        return None;
    };
    let Some(start) = shape.address(address) else {
        return None;
    };
    Some(Resumption {
        hart: id,
        address: start,
        opaque,
    })
}

/// Keeps a suspension beside the open store that it is of.
fn pack_save(store: &mut Sbistore, plan: &Saving)
    ensures { store.new ≡ with_save plan.now store.old }
{
    store.hart = plan.at.hart.number();
    store.address = plan.at.address.value();
    store.opaque = plan.at.opaque;
    store.page = plan.page.number() as u64;
    store.step = number_of_save(plan.step);
    store.phase = SAVING;
}

fn number_of_save(step: SaveStep) -> u32
    ensures { result ≡ save_number step }
{
    match step {
        SaveStep::WriteHead => 0,
        SaveStep::WritePage => 1,
        SaveStep::SyncArea => 2,
        SaveStep::Saved => 3,
        SaveStep::Failed => 3,
    }
}

fn save_step(number: u32) -> Option<SaveStep>
    ensures { (step : SaveStep) → number ≡ save_number step → number < 3 → result ≡ Some step }
{
    match number {
        0 => Some(SaveStep::WriteHead),
        1 => Some(SaveStep::WritePage),
        2 => Some(SaveStep::SyncArea),
        _ => None,
    }
}

/// The suspension that is under way; none where no call of the library left the state so.
fn saving_of(store: &Sbistore) -> Option<Saving>
    ensures exact { (life : OpenStore) → (plan : Saving) → IsSavePacked life plan store.now → result ≡ Some plan }
    ensures sound { IfSome result (λ plan. HasPage plan × IsSaveSound plan) }
{
    let Some(open) = store_of(store) else {
        return None;
    };
    let from = open.selected;
    if from.live.next == u64::MAX {
        return None;
    }
    let Some(at) = resumption(&open, store.hart, store.address, store.opaque) else {
        return None;
    };
    let Some(page) = from.shape.page(store.page) else {
        return None;
    };
    let Some(step) = save_step(store.step) else {
        return None;
    };
    Some(Saving {
        from,
        at,
        page,
        step,
    })
}

/// Tells a suspension how its last call ended, where one was asked for, and asks for the next one.
pub fn next_of_save(store: &mut Sbistore, failed: u32, sector: &mut Sector) -> u32
    ensures { (life : OpenStore) → (plan : Saving) → IsSavePacked life plan store.old
        → SaveNext life plan store.old failed result store.new sector.new }
{
    let Some(plan) = saving_of(store) else {
        end(store, SPOILT);
        return DONE;
    };
    let plan = save_gone_on(store.asked, plan, failed);
    ask_save(store, &plan, sector)
}

/// The suspension once it is told how its last call ended, where one was asked for.
fn save_gone_on(asked: u32, plan: Saving, failed: u32) -> Saving
    requires page { HasPage plan }
    ensures page { HasPage result }
    ensures same { (result.from ≡ plan.from) × (result.at ≡ plan.at) }
    ensures first { asked ≡ 0 → result ≡ plan }
    ensures told { 0 < asked → (answer : Answer) × IsAnswer failed answer × SaveGoes plan answer result }
{
    if asked == 0 {
        return plan;
    }
    let mut next = plan;
    next.told(answer(failed));
    next
}

/// Asks for the call of a suspension that comes next, or goes on to its commit.
fn ask_save(store: &mut Sbistore, plan: &Saving, sector: &mut Sector) -> u32
    requires page { HasPage plan.now }
    requires sound { IsSaveSound plan.now }
    ensures bytes { SavePuts plan.now sector.new }
    ensures asks { AsksSave (save_asks plan.now) plan.now store.old result store.new sector.new }
{
    match plan.asks(sector) {
        ImageRequest::Read(_) => commit_save(store, plan, sector),
        ImageRequest::ReadPage(..) => commit_save(store, plan, sector),
        ImageRequest::Write(number) => keep_save(store, plan, WRITE, number),
        ImageRequest::WritePage(number, _) => keep_save(store, plan, WRITE_PAGE, number),
        ImageRequest::Sync => keep_save(store, plan, SYNC, 0),
        ImageRequest::Done => commit_save(store, plan, sector),
    }
}

/// Goes on from the area to the commit of the record that names it, or ends where a call failed.
fn commit_save(store: &mut Sbistore, plan: &Saving, sector: &mut Sector) -> u32
    requires sound { IsSaveSound plan.now }
    ensures { Commits plan.now store.old result store.new sector.new }
{
    match plan.commit() {
        Some(commit) => ask(store, &Plan::Committing(commit), sector),
        None => {
            end(store, Refusal::Device.code());
            DONE
        }
    }
}

/// Keeps a suspension that asks for a call of that kind.
fn keep_save(store: &mut Sbistore, plan: &Saving, kind: u32, number: usize) -> u32
    ensures kind { result ≡ kind }
    ensures store { store.new ≡ record (with_save plan.now store.old) { asked = 1; number = number } }
{
    pack_save(store, plan);
    store.asked = 1;
    store.number = number as u64;
    kind
}

/// Keeps a suspension that has not asked for a call yet.
pub fn begin_save(store: &mut Sbistore, plan: &Saving)
    ensures { store.new ≡ record (with_save plan.now store.old) { asked = 0 } }
{
    pack_save(store, plan);
    store.asked = 0;
}
