//! The disk and the lanes that it lends, as traits.
ghost use Rattle.std.specs.Prelude.{◌≡◌, ◌⊎◌, ◌≤◌, ◌<◌, ◌+◌, ◌*◌, ◌++◌, ◌∷◌, [], ℕ, length, map, is_ok, OnOk, OnErr, IfOk};

use std::alloc::AllocError;

/// 512 bytes, the least that a disk reads or writes.
pub type Sector = [u8; 512];

/// The device failed, and counted it.
#[derive(Clone, Copy, PartialEq, Eq)]
pub struct Fault;

/// A fault for a later call of a disk or of one of its lanes. Calls are reads, writes and syncs,
/// counted from 1 for the first one after the fault was armed; a fault of call 0 never strikes.
#[derive(Clone, Copy)]
pub enum ArmedFault {
    /// The disk's call of this number fails.
    FailAt(u64),
    /// Power is lost within the disk's call of this number. It fails, and so does each later one.
    CutAt(u64),
    /// The call of the second number fails, of the lane that the first counts from 0. The calls of
    /// that lane go on counting from one split to the next.
    FailLane(usize, u64),
    /// Power is lost within the call of the second number of the lane that the first counts from
    /// 0. From then on each call of that lane fails, and after the join each call of the disk.
    CutLane(usize, u64),
}

/// A call of a lane: from which of its sectors on, how many of them, and whether it answered `Ok`.
/// Calls stand in contracts alone: no value of this type is ever made.
pub enum LaneCall {
    Read(usize, usize, bool),
    Write(usize, usize, bool),
}

/// Some sectors in a row, lent by a disk until a join takes them back. What a crash leaves in them
/// is a matter of the disk alone. Contracts note each call that is made of a lane, in order.
pub trait Lane {
    ghost use Rattle.disk.specs.Facts.{LaneFacts, Torn, Written, AreSectorsAt, Counts};

    ghost lane_facts: { Self → LaneFacts };

    /// Reads what stands from that sector of the lane on. At `Err` the buffer holds any bytes.
    fn read(&mut self, first: usize, sectors: &mut [Sector]) -> Result<(), Fault>
        requires { first + length sectors.old ≤ length (lane_facts self.old).content }
        ensures found { OnOk result (AreSectorsAt first (lane_facts self.old).content sectors.new) }
        ensures content { (lane_facts self.new).content ≡ (lane_facts self.old).content }
        ensures place { (lane_facts self.new).first ≡ (lane_facts self.old).first }
        ensures failures { Counts (lane_facts self.old).failures (lane_facts self.new).failures result }
        ensures calls { (lane_facts self.new).calls
            ≡ (lane_facts self.old).calls ++ LaneCall.Read first (length sectors.old) (is_ok result) ∷ [] };

    /// Writes these sectors from that one of the lane on. At `Err` the range reads as any bytes
    /// until it is written again.
    fn write(&mut self, first: usize, sectors: &[Sector]) -> Result<(), Fault>
        requires { first + length sectors.now ≤ length (lane_facts self.old).content }
        ensures written { OnOk result
            (Written first sectors.now (lane_facts self.old).content (lane_facts self.new).content) }
        ensures content { Torn first (length sectors.now) (lane_facts self.old).content (lane_facts self.new).content }
        ensures place { (lane_facts self.new).first ≡ (lane_facts self.old).first }
        ensures failures { Counts (lane_facts self.old).failures (lane_facts self.new).failures result }
        ensures calls { (lane_facts self.new).calls
            ≡ (lane_facts self.old).calls ++ LaneCall.Write first (length sectors.now) (is_ok result) ∷ [] };

    /// How often a call of this lane has failed since the split.
    fn failures(&self) -> u64
        ensures { result ≡ (lane_facts self.now).failures };
}

/// A disk of sectors.
///
/// Between two syncs a crash may leave any bytes in each range that was written, also by a write
/// that failed; all else stays. A sync that succeeds leaves what a read gives, and nothing else.
/// Each error of a call is one failure more, in a count that stays where it ends. What a call does
/// to the contents that a crash may leave, before, during and after it, is its clause `crash`.
pub trait Disk {
    ghost use Rattle.disk.specs.Facts.{Content, Facts, Torn, Written, Stays, Passes, Only, Apart, AreSectorsAt, Handed, InRow, Joined, Unchanged, counted, most, nothing, lent_sectors, lane_failures};
    ghost use Rattle.disk.specs.FaultState.{FaultState, CausedInLanes, fault_state_armed};
    ghost use Rattle.disk.specs.Calls.{MakesCalls, NoCall};
    ghost use Rattle.disk.specs.declared.device.ArmedFault.{ArmedFault};

    type Lane: Lane + Send + Drop;

    ghost facts: { Self → Facts };

    /// What is armed, whether an armed cut has struck, how often the disk failed by itself, and all
    /// that was ever armed.
    ghost fault_state: { Self → FaultState };

    /// That fault is armed, and each call of it is still to come. A disk may ignore what is armed.
    ghost arms: { Self → ArmedFault → Type 0 };

    /// How many sectors the disk has.
    fn sectors(&self) -> usize
        ensures { result ≡ length (facts self.now).content };

    /// Reads what stands from that sector on, and makes nothing durable. At `Err` the buffer holds
    /// any bytes. Sectors that are lent are not the disk's to read.
    fn read(&mut self, first: usize, sectors: &mut [Sector]) -> Result<(), Fault>
        requires within { first + length sectors.old ≤ length (facts self.old).content }
        requires apart { Apart first (length sectors.old) (facts self.old).lent }
        ensures found { OnOk result (AreSectorsAt first (facts self.old).content sectors.new) }
        ensures unsynced { (facts self.new).moment ≡ (facts self.old).moment }
        ensures called { MakesCalls 1 Stays (facts self.old) (facts self.new) (fault_state self.old)
            (fault_state self.new) result };

    /// Writes these sectors from that one on. Until a sync succeeds, a crash may leave any bytes in
    /// the range, at `Err` as at `Ok`. At `Err` the range reads as any bytes until it is written
    /// again. Sectors that are lent are not the disk's to write.
    fn write(&mut self, first: usize, sectors: &[Sector]) -> Result<(), Fault>
        requires within { first + length sectors.now ≤ length (facts self.old).content }
        requires apart { Apart first (length sectors.now) (facts self.old).lent }
        ensures written { OnOk result (Written first sectors.now (facts self.old).content (facts self.new).content) }
        ensures called { MakesCalls 1 (Torn first (length sectors.now)) (facts self.old) (facts self.new)
            (fault_state self.old) (fault_state self.new) result };

    /// Makes durable what a read gives: at `Ok` a crash leaves that and nothing else, but for
    /// sectors that are lent. At `Err` it has made nothing durable.
    fn sync(&mut self) -> Result<(), Fault>
        ensures durable { OnOk result
            ((facts self.old).lent.lanes ≡ 0 → Only (facts self.new).content (facts self.new).may_leave) }
        ensures but_lent { OnOk result
            ((c : Content) → (facts self.new).may_leave c
            → Torn (facts self.old).lent.first (lent_sectors (facts self.old).lent) (facts self.new).content c) }
        ensures called { MakesCalls 1 Stays (facts self.old) (facts self.new) (fault_state self.old)
            (fault_state self.new) result };

    /// Lends so many lanes, at most 4, of so many sectors each, in a row from the first. From now
    /// until a sync after the join succeeds, a crash may leave any bytes in them. At `Err` memory
    /// was refused, and nothing is lent.
    fn split(
        &mut self,
        first: usize,
        lanes: usize,
        each: usize,
    ) -> Result<Vec<Self::Lane>, AllocError>
        requires none_out { (facts self.old).lent.lanes ≡ 0 }
        requires few { lanes ≤ 4 }
        requires within { first + lanes * each ≤ length (facts self.old).content }
        ensures handed { IfOk result (λ out. Handed (record { first = first; lanes = lanes; each = each })
            (facts self.old).content (map Self.Lane.lane_facts out.items)) }
        ensures out { OnOk result ((facts self.new).lent ≡ record { first = first; lanes = lanes; each = each }) }
        ensures refused { OnErr result ((facts self.new).lent ≡ (facts self.old).lent) }
        ensures content { (facts self.new).content ≡ (facts self.old).content }
        ensures crash { Passes (facts self.old) (facts self.new) (Torn first (lanes * each)) }
        ensures crash_refused { OnErr result (Passes (facts self.old) (facts self.new) Stays) }
        ensures no_call { NoCall (facts self.old) (facts self.new) (fault_state self.old) (fault_state self.new) };

    /// Takes back all lanes that are lent, in their order, with what they hold and their failures.
    fn join(&mut self, lanes: Vec<Self::Lane>)
        requires { InRow (facts self.old).lent (map Self.Lane.lane_facts lanes.items) }
        ensures content { Joined (facts self.old).lent (map Self.Lane.lane_facts lanes.items) (facts self.old).content
            (facts self.new).content }
        ensures back { (facts self.new).lent ≡ nothing }
        ensures crash { Passes (facts self.old) (facts self.new) Stays }
        ensures failures { (facts self.new).failures
            ≡ counted (facts self.old).failures (lane_failures (map Self.Lane.lane_facts lanes.items)) }
        ensures calls { (facts self.new).calls ≡ (facts self.old).calls }
        ensures cause { CausedInLanes (fault_state self.old) (fault_state self.new)
            (lane_failures (map Self.Lane.lane_facts lanes.items)) };

    /// How often a call of the disk has failed, and of the lanes that it took back. At 2^64 - 1 the
    /// count stays, and then each call is held to have counted one.
    fn failures(&self) -> u64
        ensures { result ≡ (facts self.now).failures };

    /// Arms a fault in place of an older one. It is no call of the disk and changes no fact of it.
    /// A lane's fault goes to that lane at the next split. A disk may ignore what is armed.
    fn arm(&mut self, fault: ArmedFault)
        ensures facts { Unchanged (facts self.old) (facts self.new) }
        ensures armed { fault_state self.new ≡ fault_state_armed fault (fault_state self.old) }
        ensures arms { arms self.new fault };

    /// Whether an armed cut has struck, so that power is gone. It is no call of the disk.
    fn struck(&self) -> bool
        ensures { result ≡ (fault_state self.now).struck };

    /// A crash may leave what a read gives.
    ghost may_keep: { (disk : Self) → (facts disk).may_leave (facts disk).content };

    /// This moment is one of those since an earlier one.
    ghost counts_now: { (disk : Self) (t : ℕ) (c : Content) → t ≤ (facts disk).moment → (facts disk).may_leave c
        → (facts disk).since t c };

    /// Since this moment there is no other.
    ghost only_now: { (disk : Self) (c : Content) → (facts disk).since (facts disk).moment c
        → (facts disk).may_leave c };

    /// Both counts stay where they end.
    ghost bounded: { (disk : Self) → (facts disk).failures ≤ most };

    ghost bounded_calls: { (disk : Self) → (facts disk).calls ≤ most };
}
