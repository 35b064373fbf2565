//! What a packet asks.

/// An object of which parts are asked for.
#[derive(Clone, Copy, Drop)]
pub enum Object {
    /// The registers.
    Description,
    /// The memory.
    MemoryMap,
    /// The threads.
    Threads,
}

/// What a watchpoint minds.
#[derive(Clone, Copy, Drop)]
pub enum Watching {
    /// Writes.
    Writes,
    /// Reads.
    Reads,
    /// Both.
    Accesses,
}

/// What is asked without moving the board. The number of a thread is one more than that of its hart.
#[derive(Clone, Copy, Drop)]
pub enum GdbLook {
    /// `?`: why nothing runs.
    Reason,
    /// `g`: the registers of the hart that is shown.
    Registers,
    /// `p`: one of them, by its number.
    Register(u64),
    /// `m`: from that address on so many bytes of memory.
    Memory(u64, u64),
    /// `Hg`: that thread is shown from now on.
    Show(u64),
    /// `Hc`: that thread steps from now on, and goes on first.
    Run(u64),
    /// `Hc` of any thread: the one that is selected does so from now on.
    RunSelected,
    /// `H` of any thread, but for `Hc`: nothing is chosen.
    AnyThread,
    /// `T`, and `H` of another kind: whether there is that thread, which GDB asks of one that it selects.
    IsAlive(u64),
    /// `Z0` and `Z1`: a breakpoint at that address.
    SetPoint(u64),
    /// `z0` and `z1`: none any more.
    ClearPoint(u64),
    /// `Z2`, `Z3` and `Z4`: a watch on writes, on reads or on both, of so many bytes from that address on.
    SetWatch(Watching, u64, u64),
    /// `z2`, `z3` and `z4`: none any more.
    ClearWatch(Watching, u64, u64),
    /// `G`, `P` and `M`: registers or memory are to be written.
    Write,
    /// `qSupported`: what there is.
    Supports,
    /// `qXfer`: of that object, from that offset on so many bytes.
    Part(Object, u64, u64),
    /// `qC`: the thread that is shown.
    CurrentThread,
    /// `qAttached`: whether the program ran before.
    IsAttached,
    /// `qfThreadInfo`: the threads.
    FirstThreads,
    /// `qsThreadInfo`: more of them.
    MoreThreads,
    /// `QStartNoAckMode`: packets are not acknowledged any more.
    NoAcks,
    /// `vCont?`: which actions there are.
    Actions,
    /// `D` and `vKill`: the talk is over.
    Detach,
    /// `k`: the talk is over, without an answer.
    Kill,
    /// A packet of these whose numbers are none.
    Malformed,
    /// Any other packet.
    Unknown,
}

/// What may move the board.
#[derive(Clone, Copy, Drop)]
pub enum Move {
    /// `s`: the hart that runs makes a turn.
    Step,
    /// `c`: all harts go on.
    Go,
    /// `bs`: back before the last turn of the hart that runs.
    StepBack,
    /// `bc`: back.
    GoBack,
    /// `vCont`: an action for each thread.
    Resume,
    /// `qRcmd`: a line of the user's.
    Monitor,
}

/// What a packet asks.
#[derive(Clone, Copy, Drop)]
pub enum GdbRequest {
    /// It looks, chooses, or speaks of the talk itself.
    Look(GdbLook),
    /// It may move the board: it steps, goes on, goes back, or says a line of the user's.
    Move(Move),
}
