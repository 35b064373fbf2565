//! The calls of a load: of each place in use its header, and then the page after it.
ghost use Rattle.std.specs.Prelude.{◌≡◌, ◌≤◌, ◌<◌, ◌+◌, ◌^◌, ℕ, List, length, Ok, Err, IfOk, IfErr};
ghost use Rattle.board_model.specs.Shapes.{ram_bytes_of, sectors_of};
ghost use Rattle.disk.specs.Facts.{Content};
ghost use Rattle.disk.specs.declared.device.Fault.{Fault};
ghost use Rattle.layout.specs.Records.{AreCounts};
ghost use Rattle.planned_store.specs.LoadServed.{IsALoad, IsLoadWithin};
ghost use Rattle.planned_store.specs.Loads.{place_sector, load_asks, HasPlace, LoadGoes, HeadGoes, page_taken, loaded_by, PlansLoad, NoLoad};

use crate::places::place_of;
use crate::requests::ImageRequest;
use crate::stores::OpenStore;
use board_model::{PageNo, Refusal, Shape};
use disk::{Fault, Sector};
use layout::{Saved, area_start, parse_place_head};

/// How far a load has come: the call that it asks for, or how it has ended.
#[derive(Clone, Copy, Drop)]
pub enum LoadStep {
    /// The header of the next place.
    ReadHead,
    /// The page that stands after a header of its number.
    ReadPage(PageNo),
    /// Each page of the memory was read.
    Loaded,
    /// A header is not as it should be.
    Spoilt,
    /// A call failed.
    Failed,
}

/// A load of the image that a record keeps.
#[derive(Clone, Copy, Drop)]
pub struct Loading {
    pub shape: Shape,
    pub saved: Saved,
    /// How many places were read, counted through the lanes.
    pub done: usize,
    /// Of each page a byte, which is 0 until the page was read.
    pub came: [u8; 512],
    pub step: LoadStep,
}

impl Loading {
    /// The call that comes next.
    pub fn asks(&self) -> ImageRequest
        requires place { HasPlace self.now }
        ensures asked { result ≡ load_asks self.now }
        ensures some { (result ≡ ImageRequest.Done → ⊥) → IsALoad result }
        ensures within { (c : Content) (memory : List ℕ) → sectors_of self.now.shape ≤ length c
            → length memory ≡ ram_bytes_of self.now.shape → IsLoadWithin result c memory }
    {
        match self.step {
            LoadStep::ReadHead => ImageRequest::Read(self.sector()),
            LoadStep::ReadPage(page) => ImageRequest::ReadPage(self.sector() + 1, page),
            LoadStep::Loaded => ImageRequest::Done,
            LoadStep::Spoilt => ImageRequest::Done,
            LoadStep::Failed => ImageRequest::Done,
        }
    }

    /// Where on the disk the place stands that is read.
    fn sector(&self) -> usize
        requires counts { AreCounts self.now.shape self.now.saved.counts }
        requires more { self.now.done < self.now.shape.pages }
        ensures value { result ≡ place_sector self.now }
        ensures within { result + 9 ≤ sectors_of self.now.shape }
        ensures small { result < 2 ^ 32 }
    {
        area_start(&self.shape, self.saved.area)
            + place_of(&self.shape, &self.saved.counts, self.done)
    }

    /// Tells how the call that it asked for has ended. After the read of a header the sector has what was read.
    pub fn told(&mut self, answer: Result<(), Fault>, sector: &Sector)
        requires place { HasPlace self.old }
        ensures goes { LoadGoes self.old answer sector.now self.new }
        ensures place { HasPlace self.new }
        ensures same { (self.new.shape ≡ self.old.shape) × (self.new.saved ≡ self.old.saved) }
    {
        match answer {
            Ok(()) => self.gone_well(sector),
            Err(Fault) => self.failed(),
        }
    }

    fn gone_well(&mut self, sector: &Sector)
        requires place { HasPlace self.old }
        ensures goes { LoadGoes self.old (Ok tt) sector.now self.new }
        ensures place { HasPlace self.new }
        ensures same { (self.new.shape ≡ self.old.shape) × (self.new.saved ≡ self.old.saved) }
    {
        let step = self.step;
        match step {
            LoadStep::ReadHead => self.step = self.head_read(sector),
            LoadStep::ReadPage(page) => self.page_read(page),
            _ => {}
        }
    }

    /// What follows from a header: the page that it names is read, where the image has it and it was not read yet.
    fn head_read(&self, sector: &Sector) -> LoadStep
        ensures { HeadGoes self.now.shape self.now.saved.head.serial self.now.came sector.now result }
    {
        let Ok(head) = parse_place_head(sector, &self.shape) else {
            return LoadStep::Spoilt;
        };
        if head.serial != self.saved.head.serial {
            return LoadStep::Spoilt;
        }
        if self.came[head.page.index()] != 0 {
            return LoadStep::Spoilt;
        }
        LoadStep::ReadPage(head.page)
    }

    /// A page was read.
    fn page_read(&mut self, page: PageNo)
        requires counts { AreCounts self.old.shape self.old.saved.counts }
        requires more { self.old.done < self.old.shape.pages }
        requires page { page < self.old.shape.pages }
        ensures after { self.new ≡ page_taken page self.old }
        ensures place { HasPlace self.new }
    {
        self.came[page.index()] = 1;
        self.done += 1;
        self.step = if self.done < self.shape.pages() as usize {
            LoadStep::ReadHead
        } else {
            LoadStep::Loaded
        };
    }

    fn failed(&mut self)
        ensures goes { (e : Fault) (bytes : List ℕ) → LoadGoes self.old (Err e) bytes self.new }
        ensures place { HasPlace self.old → HasPlace self.new }
        ensures same { (self.new.shape ≡ self.old.shape) × (self.new.saved ≡ self.old.saved) }
    {
        match self.step {
            LoadStep::ReadHead => self.step = LoadStep::Failed,
            LoadStep::ReadPage(_) => self.step = LoadStep::Failed,
            _ => {}
        }
    }

    /// What a load that has ended answers.
    pub fn loaded(&self) -> Result<(), Refusal>
        ensures { result ≡ loaded_by self.now }
    {
        match self.step {
            LoadStep::Loaded => Ok(()),
            LoadStep::Spoilt => Err(Refusal::BadImage),
            _ => Err(Refusal::Device),
        }
    }
}

/// The load of the image that an open store has, into a memory of so many pages. Refused `Down` where a command is in doubt,
/// `BadShape` for a memory of another size, and `NoImage` where no image stands.
pub fn plan_load(store: &OpenStore, pages: u64) -> Result<Loading, Refusal>
    ensures ok { IfOk result (λ plan. PlansLoad store.now pages plan) }
    ensures refused { IfErr result (λ e. NoLoad store.now pages e) }
{
    if store.down {
        return Err(Refusal::Down);
    }
    let selected = &store.selected;
    if pages != selected.shape.pages() as u64 {
        return Err(Refusal::BadShape);
    }
    let Some(saved) = selected.live.image else {
        return Err(Refusal::NoImage);
    };
    Ok(Loading {
        shape: selected.shape,
        saved,
        done: 0,
        came: [0; 512],
        step: LoadStep::ReadHead,
    })
}
