//! The calls of a suspension up to its commit: page by page a header and then the page, and a sync.
ghost use Rattle.std.specs.Prelude.{◌≡◌, ◌≤◌, ◌<◌, ◌↔◌, IsTrue, ◌+◌, ◌*◌, ◌-◌, ◌^◌, ℕ, List, length, Ok, Err, Some, None, IfOk, IfErr, IfSome};
ghost use Rattle.board_model.specs.Shapes.{IsSize, places_of, ram_bytes_of, sectors_of};
ghost use Rattle.disk.specs.Facts.{Content};
ghost use Rattle.disk.specs.declared.device.Fault.{Fault};
ghost use Rattle.layout.specs.Records.{AreCounts, IsInRange};
ghost use Rattle.layout.specs.declared.saved.Saved.{Saved};
ghost use Rattle.planned_store.specs.Saves.{HasPage, save_asks, save_sector, SavePuts, SaveGoes, next_page, counts_of, free_side, saved_record, commit_of, HasBoard, PlansSave, NoSave};
ghost use Rattle.planned_store.specs.SaveServed.{IsASave, IsSaveWithin};

use crate::commits::{Commit, CommitStep, Selected};
use crate::requests::ImageRequest;
use crate::stores::OpenStore;
use board_model::{Addr, HartId, ImageHead, PageNo, Refusal, Shape};
use disk::{Fault, Sector};
use layout::{PlaceHead, Record, Saved, Side, Version, area_start, place_head_bytes};
use store::Resumption;

/// How far a suspension has come: the call that it asks for, or how that part of it has ended.
#[derive(Clone, Copy, Drop)]
pub enum SaveStep {
    /// The header of the page's place.
    WriteHead,
    /// The page, after its header.
    WritePage,
    /// All pages stand, and are made durable.
    SyncArea,
    /// The area is durable: the record that names it is to be committed.
    Saved,
    /// A call failed: a crash leaves the state that it left before.
    Failed,
}

/// A suspension whose memory goes to the area that no image uses, page after page.
#[derive(Clone, Copy, Drop)]
pub struct Saving {
    pub from: Selected,
    pub at: Resumption,
    /// The page that is written.
    pub page: PageNo,
    pub step: SaveStep,
}

impl Saving {
    /// The call that comes next. Before a write of a sector the sector has its bytes.
    pub fn asks(&self, sector: &mut Sector) -> ImageRequest
        requires board { IsSize self.now.from.shape }
        requires page { HasPage self.now }
        ensures asked { result ≡ save_asks self.now }
        ensures bytes { SavePuts self.now sector.new }
        ensures some { (result ≡ ImageRequest.Done → ⊥) → IsASave result }
        ensures within { (c : Content) (memory : List ℕ) → sectors_of self.now.from.shape ≤ length c
            → length memory ≡ ram_bytes_of self.now.from.shape → IsSaveWithin result c memory }
    {
        match self.step {
            SaveStep::WriteHead => {
                *sector = place_head_bytes(&self.head());
                ImageRequest::Write(self.sector())
            }
            SaveStep::WritePage => ImageRequest::WritePage(self.sector() + 1, self.page),
            SaveStep::SyncArea => ImageRequest::Sync,
            SaveStep::Saved => ImageRequest::Done,
            SaveStep::Failed => ImageRequest::Done,
        }
    }

    fn head(&self) -> PlaceHead
        ensures { result ≡ record { page = self.now.page; serial = self.now.from.live.next } }
    {
        PlaceHead {
            page: self.page,
            serial: self.from.live.next,
        }
    }

    /// Where on the disk the page's place stands. Lanes are filled one after another, so that places follow pages.
    fn sector(&self) -> usize
        requires board { IsSize self.now.from.shape }
        requires page { self.now.page < self.now.from.shape.pages }
        ensures value { result ≡ save_sector self.now }
        ensures within { result + 9 ≤ sectors_of self.now.from.shape }
        ensures small { result < 2 ^ 32 }
    {
        area_start(&self.from.shape, free_side(&self.from.live.image)) + 9 * self.page.index()
    }

    /// Tells how the call that it asked for has ended.
    pub fn told(&mut self, answer: Result<(), Fault>)
        requires page { HasPage self.old }
        ensures goes { SaveGoes self.old answer self.new }
        ensures page { HasPage self.new }
        ensures same { (self.new.from ≡ self.old.from) × (self.new.at ≡ self.old.at) }
    {
        match answer {
            Ok(()) => self.gone_well(),
            Err(Fault) => self.failed(),
        }
    }

    fn gone_well(&mut self)
        requires page { HasPage self.old }
        ensures goes { SaveGoes self.old (Ok tt) self.new }
        ensures page { HasPage self.new }
        ensures same { (self.new.from ≡ self.old.from) × (self.new.at ≡ self.old.at) }
    {
        match self.step {
            SaveStep::WriteHead => self.step = SaveStep::WritePage,
            SaveStep::WritePage => self.page_written(),
            SaveStep::SyncArea => self.step = SaveStep::Saved,
            _ => {}
        }
    }

    /// A page was written: the next one comes, or all of them are made durable.
    fn page_written(&mut self)
        requires page { self.old.page < self.old.from.shape.pages }
        ensures after { self.new ≡ next_page self.old }
        ensures page { HasPage self.new }
    {
        match self.from.shape.page(self.page.number() as u64 + 1) {
            Some(next) => {
                self.page = next;
                self.step = SaveStep::WriteHead;
            }
            None => self.step = SaveStep::SyncArea,
        }
    }

    fn failed(&mut self)
        ensures goes { (e : Fault) → SaveGoes self.old (Err e) self.new }
        ensures page { HasPage self.old → HasPage self.new }
        ensures same { (self.new.from ≡ self.old.from) × (self.new.at ≡ self.old.at) }
    {
        match self.step {
            SaveStep::WriteHead => self.step = SaveStep::Failed,
            SaveStep::WritePage => self.step = SaveStep::Failed,
            SaveStep::SyncArea => self.step = SaveStep::Failed,
            _ => {}
        }
    }

    /// The commit of the record that names the area, once that is durable; none where a call failed.
    pub fn commit(&self) -> Option<Commit>
        requires next { self.now.from.live.next + 1 < 2 ^ 64 }
        ensures value { result ≡ commit_of self.now }
        ensures range { IsSize self.now.from.shape → IsInRange self.now.from.shape self.now.from.live
            → HasBoard self.now.from.shape self.now.from.shape.pages self.now.at.hart self.now.at.address
            → IfSome result (λ c. IsInRange c.from.shape c.next) }
    {
        let _opaque = self.at.opaque;
        match self.step {
            SaveStep::Saved => Some(Commit {
                from: self.from,
                next: self.record(),
                step: CommitStep::WriteRecord,
            }),
            _ => None,
        }
    }

    /// The record that names the area.
    fn record(&self) -> Record
        requires next { self.now.from.live.next + 1 < 2 ^ 64 }
        ensures { result ≡ saved_record self.now }
    {
        let live = &self.from.live;
        let head = ImageHead {
            serial: live.next,
            hart: self.at.hart,
            address: self.at.address,
            opaque: self.at.opaque,
        };
        Record {
            version: Version::Two,
            slot: live.slot,
            reason: live.reason,
            next: live.next + 1,
            image: Some(Saved {
                head,
                area: free_side(&live.image),
                counts: counts_of(&self.from.shape),
            }),
            trial: live.trial,
        }
    }
}

/// The area that this image does not use, area 0 where there is none.
fn free_side(image: &Option<Saved>) -> Side
    ensures { result ≡ free_side image.now }
{
    match image {
        None => Side::first(),
        Some(saved) => saved.area.other(),
    }
}

/// How many places of lanes 0 to 3 are in use, where one is full before the next begins.
fn counts_of(shape: &Shape) -> [u32; 4]
    ensures { result ≡ counts_of shape.now }
{
    let most = shape.places() as u32;
    let pages = shape.pages();
    let zero = pages.min(most);
    let one = (pages - zero).min(most);
    let two = (pages - zero - one).min(most);
    let three = (pages - zero - one - two).min(most);
    [zero, one, two, three]
}

/// The suspension of a memory of so many pages. Refused `Down`, `Over` and `JournalFull` as other commands; then `BadShape` for a
/// memory of another size, or a hart or an address that the board has not; then `SerialsSpent` where no serial is left.
pub fn plan_suspend(store: &OpenStore, pages: u64, at: Resumption) -> Result<Saving, Refusal>
    ensures ok { IfOk result (λ plan. PlansSave store.now pages at plan) }
    ensures refused { IfErr result (λ e. NoSave store.now pages at e) }
{
    store.takes()?;
    let from = store.selected;
    if !fits_board(&from.shape, pages, at.hart, at.address) {
        return Err(Refusal::BadShape);
    }
    let serial = store.selected.live.next;
    if serial == u64::MAX {
        return Err(Refusal::SerialsSpent);
    }
    let Some(page) = from.shape.page(0) else {
        return Err(Refusal::BadShape);
    };
    Ok(Saving {
        from,
        at,
        page,
        step: SaveStep::WriteHead,
    })
}

/// Whether a memory of so many pages, the hart and the address are the board's.
fn fits_board(shape: &Shape, pages: u64, hart: HartId, address: Addr) -> bool
    ensures { IsTrue result ↔ HasBoard shape.now pages hart address }
{
    pages == shape.pages() as u64
        && shape.hart(hart.number() as u64).is_some()
        && shape.address(address.value()).is_some()
}
