//! The store: one life of the durable state.
ghost use Rattle.std.specs.Prelude.{◌≡◌, ◌≤◌, ◌<◌, ◌+◌, ◌-◌, ◌*◌, ◌^◌, ◌⊎◌, ◌↔◌, IsTrue, false, true, length, map, Some, None, Err, IfOk, IfErr, OnOk, IsErrOf, MatchResult};
ghost use Rattle.board_model.specs.Durable.{DurableState, Change, Suspend, after, fold, ends_life, refusal_of};
ghost use Rattle.board_model.specs.Views.{change_of, change_in};
ghost use Rattle.board_model.specs.Shapes.{Size, ram_bytes_of};
ghost use Rattle.image.specs.Refusals.{StopsWithin};
ghost use Rattle.disk.specs.Facts.{Failed};
ghost use Rattle.store.specs.Standing.{state_of, memory_in};
ghost use Rattle.store.specs.Entries.{are_plain, drop_image};
ghost use Rattle.store.specs.Taken.{are_taken};
ghost use Rattle.store.specs.Commits.{Keeps};
ghost use Rattle.store.specs.Follows.{durable_after, suspended, FitsBoard, Follows};
ghost use Rattle.store.specs.declared.doubts.Doubt.{Doubt};

mod copies;
mod looks;

use crate::commits::{Uncommitted, commit};
use crate::doubts::Doubt;
use crate::journals::Journal;
use crate::next_records::{free_area, record_after, suspended, suspended_state};
use crate::opens::find;
use crate::receipts::Receipt;
use crate::renews::migrated;
use crate::saving::{Resumption, Saving};
use board_model::{Addr, Command, Durable, Entry, HartId, MAX_COMMANDS, Refusal, Shape};
use crew::Crew;
use disk::{ArmedFault, Disk};
use image::{read_area, write_area};
use layout::{Record, Side};
use ram::Ram;
use savers::{LaneCounts, Snapshot};
use std::alloc::Global;

/// An open store: one life of the durable state, over a disk that nobody else writes.
#[derive(Drop)]
pub struct Store<D: Disk + Drop> {
    disk: D,
    shape: Shape,
    side: Side,
    opened: Record,
    current: Record,
    journal: Journal,
    doubt: Option<Doubt>,
    over: bool,
    failures_at_open: u64,
    refused_memory: bool,
    ghost kept: { Keeps (D.facts disk) shape side current doubt },
    ghost folded: { fold (state_of shape opened (D.facts disk).content)
        (map (λ e. change_in e (memory_in shape current (D.facts disk).content)) journal)
        ≡ state_of shape current (D.facts disk).content },
    ghost doubted: { (x : Doubt) → doubt ≡ Some x
        → state_of shape x.next (D.facts disk).content
        ≡ after (state_of shape current (D.facts disk).content)
        (change_in x.entry (memory_in shape x.next (D.facts disk).content)) },
    ghost plain: { over ≡ false → are_plain journal ≡ true },
    ghost same_image: { over ≡ false → drop_image journal ≡ false → current.image ≡ opened.image },
    ghost few: { length journal ≤ 4096 },
    ghost failed: { (x : Doubt) → doubt ≡ Some x → Failed failures_at_open (D.facts disk).failures },
    ghost counted: { failures_at_open ≤ (D.facts disk).failures },
    ghost legal: { are_taken (state_of shape opened (D.facts disk).content)
        (map (λ e. change_in e (memory_in shape current (D.facts disk).content)) journal) ≡ true },
    ghost allowed: { (x : Doubt) → doubt ≡ Some x
        → refusal_of (state_of shape current (D.facts disk).content)
        (change_in x.entry (memory_in shape x.next (D.facts disk).content)) ≡ None },
}

impl<D: Disk + Drop> Store<D> {
    ghost use Rattle.store.specs.Leaves.{IsIdle, LeavesOnly, LeavesEither, ReadsAlone, IsSettled, LeavesVersionTwo};
    ghost use Rattle.store.specs.Opens.{ReadsAs, OpenRefused, open_calls, OpenCalls, CausedRefusal};
    ghost use Rattle.store.specs.Lives.{Reaches, TakesNone, Refused, Applied, SuspendRefused, Suspended, IsLoaded, LoadRefused};
    ghost use Rattle.store.specs.Answers.{Opened, Answered, StaysOpen};
    ghost use Rattle.store.specs.Asked.{Asked};
    ghost use Rattle.store.specs.Frees.{HoldsMemory, WritesFree};
    ghost use Rattle.disk.specs.Facts.{Unchanged, counted};
    ghost use Rattle.disk.specs.FaultState.{fault_state_armed};
    ghost use Rattle.store.specs.Standing.{StandsFor};
    ghost use Rattle.store.specs.Views.{device_of, disk_of, fault_state_of, arms_of, size_of_store, life_of, found_state, journal_of, now_state, receipts, doubt_of, failures_at_open, was_refused_memory, view_of, Stands, Doubts};

    /// Opens a disk, and so begins a life. What the last life left in doubt is settled by a sync, and where
    /// the selected record is of version 1 the same state is written in version 2, by one commit. Each crash
    /// since the call's start, after a refusal too, leaves a content whose state a crash just before could
    /// have left, and after `Ok` only what was found. Refused `NotFormatted`, `BadShape` and `BadRecord` by
    /// what the disk reads as (docs/STORE.md, "Opening"), `Memory` where there is no room for the journal, and
    /// then nothing is written, and `Device` where the disk failed in this call. A refusal gives the disk back.
    pub fn open(alloc: Global, mut disk: D) -> Result<Store<D>, (D, Refusal)>
        requires none_out { IsIdle (D.facts disk) }
        ensures opened { IfOk result (λ store. Opened (D.facts disk) (view_of store)) }
        ensures version { IfOk result (λ store. LeavesVersionTwo (disk_of store)) }
        ensures memory { IfOk result (λ store. was_refused_memory store ≡ false) }
        ensures refused { IfErr result (λ e. OpenRefused (D.facts disk) e.1 (D.facts e.0)) }

        // And the other way: a disk that reads as a refusal is refused so, or by 5; one that stands for a
        // state is opened, but for 5 and 11.
        ensures refuses { (e : Refusal) → ReadsAs (D.facts disk).content e
            → MatchResult result (λ store. ⊥) (λ f. (f.1 ≡ e) ⊎ (f.1 ≡ Refusal.Device)) }
        ensures opens { (size : Size) (s : DurableState) → StandsFor (D.facts disk).content size s
            → IfErr result (λ f. (f.1 ≡ Refusal.Device) ⊎ (f.1 ≡ Refusal.Memory)) }

        // A disk without sectors is refused before any call.
        ensures no_sectors { length (D.facts disk).content ≡ 0
            → MatchResult result (λ store. ⊥) (λ f. (f.1 ≡ Refusal.BadShape) × (f.0 ≡ disk)) }

        // Nothing is written before an open is refused, but with 5.
        ensures reads_alone { IfErr result (λ e. (e.1 ≡ Refusal.Device → ⊥) → ReadsAlone (D.facts disk) (D.facts e.0)) }

        // Whatever it answers.
        ensures settles { MatchResult result (λ store. IsSettled (D.facts disk) (disk_of store)) (λ e. IsSettled
            (D.facts disk) (D.facts e.0)) }
        ensures calls { 0 < length (D.facts disk).content
            → MatchResult result (λ store. (disk_of store).calls ≡ counted (D.facts disk).calls (open_calls
            (D.facts disk).content)) (λ e. OpenCalls (D.facts disk).content e.1 (D.facts disk).calls
            (D.facts e.0).calls) }
        ensures cause { MatchResult result (λ store. fault_state_of store ≡ D.fault_state disk) (λ e. CausedRefusal
            (D.fault_state disk) e.1 (D.fault_state e.0)) }
    {
        let found = match find(&mut disk) {
            Ok(found) => found,
            Err(refusal) => return Err((disk, refusal)),
        };
        let Ok(journal) = Journal::new(alloc) else {
            return Err((disk, Refusal::Memory));
        };
        let kept = match migrated(&mut disk, found) {
            Ok(kept) => kept,
            Err(refusal) => return Err((disk, refusal)),
        };
        let failures_at_open = disk.failures();
        Ok(Store {
            disk,
            shape: kept.shape,
            side: kept.side,
            opened: kept.record,
            current: kept.record,
            journal,
            doubt: None,
            over: false,
            failures_at_open,
            refused_memory: false,
        })
    }

    /// Issues a command: its record is made durable, and then the gate that selects it. The receipt is its
    /// place in the journal of this life, from 1. Each crash since the call's start leaves the state before
    /// or the state after.
    ///
    /// Refused `Down` where an earlier command of this life is in doubt, and then nothing is done; `Over`
    /// after a reset; `JournalFull` after 4,096 commands; `BadSlot`, `NoImage`, `BadTries` and `NoTrial` by
    /// docs/DURABLE.md; `Device` where the disk failed before the gate was written; `Down` where it failed at
    /// the gate, and then this command is in doubt until the next open. After each refusal but `Down` a crash
    /// leaves the state before.
    pub fn apply(&mut self, command: Command) -> Result<Receipt, Refusal>
        ensures asked { Asked Applied self.old (change_of command) result self.new }
        ensures not_memory { IsErrOf result Refusal.Memory → ⊥ }
        ensures calls { OnOk result ((disk_of self.new).calls ≡ counted (disk_of self.old).calls 4) }
    {
        let next = self.next_for(command)?;
        self.issue(Entry::Command(command), next)
    }

    /// Suspends the board to the disk: this memory goes to the area that the live image does not use, through
    /// lanes and by that crew, and is made durable; then the command is committed as any other. The life is
    /// then over.
    ///
    /// Refused `Down`, `Over` and `JournalFull` as other commands; then `BadShape` for a memory of another
    /// size, or a hart or an address that the board has not; then `SerialsSpent` where no serial is left;
    /// `Memory`, before any call of the disk; `Device` where it failed before the gate was written, and `Down`
    /// where it failed at the gate. After each refusal but `Down` a crash leaves the state before, its image with all its bytes,
    /// also one that is then in the way of nothing but a later suspension.
    pub fn suspend<C: Crew>(
        &mut self,
        saving: Saving<'_, C>,
        ram: &Ram,
        at: Resumption,
    ) -> Result<Receipt, Refusal>
        ensures asked { Asked (Suspended (FitsBoard (size_of_store self.old) ram.now at.hart at.address)) self.old
            (Suspend at.hart at.address at.opaque ram.now) result self.new }
        ensures calls { OnOk result ((disk_of self.new).calls ≡ counted (disk_of self.old).calls 5) }
        ensures early { IsErrOf result Refusal.Memory → (disk_of self.new).calls ≡ (disk_of self.old).calls }
    {
        let entry = Entry::Suspend(at.hart, at.address, at.opaque);
        let durable = self.may_suspend(ram, at)?;
        let (area, counts) = match self.write_free(saving, ram) {
            Ok(saved) => saved,
            Err(refusal) => {
                self.refused_memory = remembers(self.refused_memory, refusal);
                return Err(refusal);
            }
        };
        let next = suspended(&durable, area, counts);
        self.issue(entry, next)
    }

    /// Whether memory was refused to a suspension of this life. Who made that call may not tell why it was
    /// refused: a guest finds -1.
    pub fn was_refused_memory(&self) -> bool
        ensures { result ≡ was_refused_memory self.now }
    {
        self.refused_memory
    }

    /// What each command is asked first: refused `Down` where one is in doubt, `Over` in a life that has
    /// ended, and `JournalFull` where there is no room for another.
    fn takes(&self) -> Result<(), Refusal>
        ensures ok { OnOk result ((self.now.doubt ≡ None) × (self.now.over ≡ false) × (receipts self.now < 4096)) }
        ensures refused { IfErr result (λ e. doubt_of self.now ≡ None → TakesNone (life_of self.now) e) }
        ensures up { IfErr result (λ e. doubt_of self.now ≡ None → e ≡ Refusal.Down → ⊥) }
        ensures not_device { IsErrOf result Refusal.Device → ⊥ }
        ensures not_memory { IsErrOf result Refusal.Memory → ⊥ }
        ensures down { (c : Change) → doubt_of self.now ≡ Some c → result ≡ Err Refusal.Down }
    {
        if self.doubt.is_some() {
            return Err(Refusal::Down);
        }
        if self.over {
            return Err(Refusal::Over);
        }
        if self.journal.len() == MAX_COMMANDS {
            return Err(Refusal::JournalFull);
        }
        Ok(())
    }

    /// The durable state after a suspension that may go to the disk.
    fn may_suspend(&self, ram: &Ram, at: Resumption) -> Result<Durable, Refusal>
        ensures ok { OnOk result
            ((self.now.doubt ≡ None) × (self.now.over ≡ false) × (receipts self.now < 4096)
            × FitsBoard self.now.shape ram.now at.hart at.address × (self.now.current.next + 1 < 2 ^ 64)) }
        ensures after { IfOk result (λ durable. durable ≡ durable_after self.now.current at) }
        ensures refused { IfErr result (λ e. doubt_of self.now ≡ None
            → SuspendRefused (FitsBoard self.now.shape ram.now at.hart at.address) (life_of self.now)
            (Suspend at.hart at.address at.opaque ram.now) e (life_of self.now)) }
        ensures up { IfErr result (λ e. doubt_of self.now ≡ None → e ≡ Refusal.Down → ⊥) }
        ensures not_device { IsErrOf result Refusal.Device → ⊥ }
        ensures not_memory { IsErrOf result Refusal.Memory → ⊥ }
        ensures down { (c : Change) → doubt_of self.now ≡ Some c → result ≡ Err Refusal.Down }
    {
        self.takes()?;
        if !fits_board(&self.shape, ram, at.hart, at.address) {
            return Err(Refusal::BadShape);
        }
        suspended_state(&self.current, at)
    }

    /// Writes the memory into the area that the live image does not use, area 0 where no image stands. The state
    /// stays, with all bytes of its image.
    fn write_free<C: Crew>(
        &mut self,
        saving: Saving<'_, C>,
        ram: &Ram,
    ) -> Result<(Side, LaneCounts), Refusal>
        requires up { self.old.doubt ≡ None }
        requires going { self.old.over ≡ false }
        requires ram { length ram.now ≡ ram_bytes_of self.old.shape }
        ensures holds { IfOk result (λ saved. HoldsMemory self.old.shape self.old.current ram.now
            (disk_of self.new).content saved.0 saved.1) }
        ensures writes { WritesFree (view_of self.old) result (view_of self.new) }
        ensures same { (self.new.doubt ≡ self.old.doubt) × (self.new.over ≡ self.old.over)
            × (self.new.current ≡ self.old.current) × (self.new.shape ≡ self.old.shape)
            × (self.new.journal ≡ self.old.journal) × (self.new.failures_at_open ≡ self.old.failures_at_open)
            × (self.new.refused_memory ≡ self.old.refused_memory) }
    {
        let area = free_area(&self.current);
        let snapshot = Snapshot {
            shape: &self.shape,
            ram,
            serial: self.current.next,
        };
        let counts = write_area(saving.alloc, &mut self.disk, saving.crew, area, &snapshot)?;
        Ok((area, counts))
    }

    /// Commits an entry that may go to the disk.
    fn issue(&mut self, entry: Entry, next: Record) -> Result<Receipt, Refusal>
        requires up { self.old.doubt ≡ None }
        requires reaches { Reaches (life_of self.old)
            (change_in entry (memory_in self.old.shape next (disk_of self.old).content)) }
        requires follows { Follows self.old.shape self.old.current entry next }
        ensures answered { Answered Applied (view_of self.old)
            (change_in entry (memory_in self.old.shape next (disk_of self.old).content)) result (view_of self.new) }
        ensures few { IfErr result (λ e. (e ≡ Refusal.Device) ⊎ (e ≡ Refusal.Down)) }
        ensures calls { OnOk result ((disk_of self.new).calls ≡ counted (disk_of self.old).calls 4) }
        ensures life { IsErrOf result Refusal.Down → Failed (failures_at_open self.new) (disk_of self.new).failures }
        ensures stays { StaysOpen (view_of self.old) (view_of self.new) }
        ensures memory { self.new.refused_memory ≡ self.old.refused_memory }
    {
        let ends = entry.ends_life();
        match commit(&mut self.disk, self.side, &next) {
            Ok(()) => {
                self.side = self.side.other();
                self.current = next;
                self.over = ends;
                self.journal.push(entry);
                Ok(Receipt::new(self.journal.len() as u32))
            }
            Err(Uncommitted::Unchanged) => Err(Refusal::Device),
            Err(Uncommitted::InDoubt) => {
                self.doubt = Some(Doubt { entry, next });
                Err(Refusal::Down)
            }
        }
    }

    /// The record that the command makes, where it goes to the disk.
    fn next_for(&self, command: Command) -> Result<Record, Refusal>
        ensures ok { IfOk result (λ next. (self.now.doubt ≡ None) × Reaches (life_of self.now) (change_of command)
            × Follows self.now.shape self.now.current (Entry.Command command) next) }
        ensures refused { IfErr result (λ e. doubt_of self.now ≡ None
            → Refused (life_of self.now) (change_of command) e (life_of self.now)) }
        ensures up { IfErr result (λ e. doubt_of self.now ≡ None → e ≡ Refusal.Down → ⊥) }
        ensures not_device { IsErrOf result Refusal.Device → ⊥ }
        ensures not_memory { IsErrOf result Refusal.Memory → ⊥ }
        ensures down { (c : Change) → doubt_of self.now ≡ Some c → result ≡ Err Refusal.Down }
    {
        self.takes()?;
        record_after(&self.current, command)
    }

    /// Loads the memory of the image that stands. Nothing of the disk changes or is made durable, and no command is
    /// issued: the image stays.
    ///
    /// Refused `BadShape` for a memory of another size, `NoImage` where no image stands, `Device` where the
    /// disk failed in this call, and `BadImage` where the image reads as no memory. After `BadShape` and
    /// `NoImage` memory and store are as they were; after `Device` and `BadImage` the memory is of no use.
    pub fn load_image(&mut self, ram: &mut Ram) -> Result<(), Refusal>
        ensures loads { OnOk result (IsLoaded (now_state self.old) ram.new) }
        ensures refused { IfErr result (λ e. LoadRefused (size_of_store self.old) (now_state self.old) ram.old
            (disk_of self.old) (fault_state_of self.old) e (disk_of self.new) (fault_state_of self.new)) }
        ensures untouched { IfErr result (λ e. (e ≡ Refusal.Device → ⊥) → (e ≡ Refusal.BadImage → ⊥)
            → (ram.new ≡ ram.old) × (self.new ≡ self.old)) }
        ensures length { length ram.new ≡ length ram.old }
        ensures life { life_of self.new ≡ life_of self.old }
        ensures reads_alone { ReadsAlone (disk_of self.old) (disk_of self.new) }
        ensures unsynced { (disk_of self.new).moment ≡ (disk_of self.old).moment }
        ensures no_failure { OnOk result
            (((disk_of self.new).failures ≡ (disk_of self.old).failures)
            × (fault_state_of self.new ≡ fault_state_of self.old)) }
        ensures calls { OnOk result
            ((disk_of self.new).calls ≡ counted (disk_of self.old).calls (2 * (size_of_store self.old).pages)) }
        ensures stops { IfErr result (λ e. StopsWithin (size_of_store self.old).pages e (disk_of self.old).calls
            (disk_of self.new).calls) }
        ensures stays { StaysOpen (view_of self.old) (view_of self.new) }
        ensures memory { was_refused_memory self.new ≡ was_refused_memory self.old }
    {
        if ram.pages() != self.shape.pages() {
            return Err(Refusal::BadShape);
        }
        let Some(saved) = self.current.image else {
            return Err(Refusal::NoImage);
        };
        read_area(&mut self.disk, &self.shape, &saved, ram)?;
        Ok(())
    }

    /// Arms a fault of the disk, which changes nothing of the store.
    pub fn arm(&mut self, fault: ArmedFault)
        ensures life { life_of self.new ≡ life_of self.old }
        ensures facts { Unchanged (disk_of self.old) (disk_of self.new) }
        ensures armed { fault_state_of self.new ≡ fault_state_armed fault (fault_state_of self.old) }
        ensures arms { arms_of self.new fault }
        ensures board { size_of_store self.new ≡ size_of_store self.old }
        ensures opened { failures_at_open self.new ≡ failures_at_open self.old }
        ensures memory { was_refused_memory self.new ≡ was_refused_memory self.old }
    {
        self.disk.arm(fault);
    }

    /// Whether an armed cut has struck the disk.
    pub fn struck(&self) -> bool
        ensures { result ≡ (fault_state_of self.now).struck }
    {
        self.disk.struck()
    }

    /// What an open store keeps, from one call to the next: a crash leaves the state now, or with a command
    /// in doubt one of two. The table of commands refuses neither such a command nor, each in the state that
    /// those before it made, one of the journal; and a command is in doubt only where the disk has failed since
    /// the open. It does nothing.
    pub fn stands(&self)
        ensures up { (s : DurableState) → Stands self.now s → LeavesOnly (disk_of self.now) (size_of_store self.now) s }
        ensures down { (s t : DurableState) → Doubts self.now s t
            → LeavesEither (disk_of self.now) (size_of_store self.now) s t }
        ensures allowed { (c : Change) → doubt_of self.now ≡ Some c → refusal_of (now_state self.now) c ≡ None }
        ensures failed { (c : Change) → doubt_of self.now ≡ Some c
            → Failed (failures_at_open self.now) (disk_of self.now).failures }
        ensures journal { are_taken (found_state self.now) (journal_of self.now) ≡ true }
    {}

    /// Ends the life, and gives back the disk that the store held, as it is: a crash leaves the state now, or
    /// with a command in doubt one of two. One is in doubt only where the disk has failed since the open.
    pub fn into_disk(self) -> D
        ensures disk { result ≡ device_of self }
        ensures up { (s : DurableState) → Stands self s → LeavesOnly (D.facts result) (size_of_store self) s }
        ensures down { (s t : DurableState) → Doubts self s t → LeavesEither (D.facts result) (size_of_store self) s t }
        ensures allowed { (c : Change) → doubt_of self ≡ Some c → refusal_of (now_state self) c ≡ None }
        ensures failed { (c : Change) → doubt_of self ≡ Some c → Failed (failures_at_open self) (D.facts result).failures }
        ensures none_out { IsIdle (D.facts result) }
        ensures facts { Unchanged (disk_of self) (D.facts result) }
        ensures content { (D.facts result).content ≡ (disk_of self).content }
        ensures failures { (D.facts result).failures ≡ (disk_of self).failures }
        ensures fault_state { D.fault_state result ≡ fault_state_of self }
    {
        let Store {
            disk,
            shape: _,
            side: _,
            opened: _,
            current: _,
            journal: _,
            doubt: _,
            over: _,
            failures_at_open: _,
            refused_memory: _,
        } = self;
        disk
    }
}

/// Whether memory was refused, once that refusal has come.
fn remembers(was: bool, refusal: Refusal) -> bool
    ensures memory { refusal ≡ Refusal.Memory → result ≡ true }
    ensures other { (refusal ≡ Refusal.Memory → ⊥) → result ≡ was }
{
    match refusal {
        Refusal::Memory => true,
        _ => was,
    }
}

/// Whether the memory, the hart and the address are the board's.
fn fits_board(shape: &Shape, ram: &Ram, hart: HartId, address: Addr) -> bool
    ensures { IsTrue result ↔ FitsBoard shape.now ram.now hart address }
{
    ram.pages() == shape.pages()
        && shape.hart(hart.number() as u64).is_some()
        && shape.address(address.value()).is_some()
}
