//! The order that leads to a board, told step by step.

ghost use Rattle.std.specs.Prelude.{◌≡◌, ◌<◌, IfOk, IfSome, true};
ghost use Rattle.state_space.specs.Orders.{Leads};
ghost use Rattle.board_space.specs.Space.{Happens, start_of};

use crate::facts::{HartFacts, HartState, OrderStep, RunEnd, StoreCall, TrapFacts};
use crate::places::{is_in_ram, place_text};
use crate::standing::{csr, is_trapped, state_of};
use board_model::{HartId, Refusal, Shape};
use board_space::{Explored, Happening};
use elf_image::Elf;
use hart::Hart;
use hsm::Standing;
use model_board::{Board, Power, Rest, Status};
use rv_decode::{Reg, SCAUSE, SEPC, STVAL};
use std::alloc::{AllocError, Global};

/// What is known of the kernel and its board.
#[derive(Clone, Copy, Drop)]
pub struct Setting<'a> {
    pub alloc: Global,
    pub elf: Option<&'a Elf<'a>>,
    pub shape: &'a Shape,
}

/// What a trap left.
#[derive(Clone, Copy, Drop)]
struct Trap {
    cause: u64,
    from: u64,
    value: u64,
}

/// The order that leads to a board.
#[derive(Drop)]
pub struct Walk {
    /// Its steps.
    pub order: Vec<OrderStep>,
    /// The harts at its end.
    pub harts: Vec<HartFacts>,
    /// The board there.
    pub board: Board,
}

/// What a hart at a call asks of the store: its extension stands in a7.
fn call_of(board: &Board, hart: HartId) -> StoreCall
    requires { hart < board.now.size.harts }
{
    if board.machine().hart(hart).reg(Reg::new(17)) == 0x5352_5354 {
        StoreCall::Reset
    } else {
        StoreCall::Sleep
    }
}

/// How a run of turns ended after which no hart of the board runs. None where they do.
fn board_end(rest: &Rest) -> Option<RunEnd> {
    match rest.power {
        Power::Ended => Some(RunEnd::ShutsDown(rest.reason)),
        Power::Off(Some(_)) => Some(RunEnd::Sleeps),
        Power::Off(None) => Some(RunEnd::Reboots),
        Power::On if rest.doze.is_some() => Some(RunEnd::Sleeps),
        Power::On => None,
    }
}

/// How a run of a hart's turns ended, on the board after it.
fn run_end(setting: Setting<'_>, board: &Board, hart: HartId) -> Result<RunEnd, AllocError>
    requires { hart < board.now.size.harts }
{
    match board_end(&board.rest()) {
        Some(end) => Ok(end),
        None => hart_end(setting, board, hart),
    }
}

/// How it ended for the hart, where the board is on and does not doze.
fn hart_end(setting: Setting<'_>, board: &Board, hart: HartId) -> Result<RunEnd, AllocError>
    requires { hart < board.now.size.harts }
{
    if is_trapped(board, hart) {
        return Ok(RunEnd::Traps);
    }
    match state_of(board, hart) {
        HartState::Stopped => Ok(RunEnd::Stops),
        HartState::Suspended => Ok(RunEnd::Suspends),
        HartState::Started | HartState::StartPending => {
            let pc = board.machine().hart(hart).pc();
            Ok(RunEnd::At(place_text(setting.alloc, setting.elf, setting.shape, pc)?))
        }
    }
}

/// Adds a step to an order.
fn add_step(order: &mut Vec<OrderStep>, step: OrderStep) -> Result<(), AllocError> {
    order.push(step)?;
    Ok(())
}

/// Adds turns of a hart to an order, to those before them where they are the same hart's.
fn add_turns(
    order: &mut Vec<OrderStep>,
    hart: HartId,
    turns: u64,
    end: RunEnd,
) -> Result<(), AllocError> {
    let mut made = turns;
    if let Some(OrderStep::Turns(last, before, _)) = order.last()
        && *last == hart.number()
    {
        made = made.saturating_add(*before);
        let _last = order.pop();
    }
    add_step(order, OrderStep::Turns(hart.number(), made, end))
}

/// Adds a refusal of what a hart asks of the store.
fn add_refusal(
    order: &mut Vec<OrderStep>,
    board: &Board,
    hart: HartId,
    down: bool,
) -> Result<(), AllocError> {
    if board.machine().shape().harts() <= hart.number() {
        return Ok(());
    }
    let call = call_of(board, hart);
    add_step(order, OrderStep::Refused(hart.number(), call, down))
}

/// Adds a happening to an order, as it is about to come to the board.
fn add_happening(
    order: &mut Vec<OrderStep>,
    board: &Board,
    happening: Happening,
) -> Result<(), AllocError> {
    match happening {
        Happening::Turn(_) => Ok(()),
        Happening::Refused(hart, down) => add_refusal(order, board, hart, down),
        Happening::Wake => add_step(order, OrderStep::Wake),
        Happening::Cut => add_step(order, OrderStep::Cut),
        Happening::PowerOn => {
            let resumes = matches!(board.rest().power, Power::Off(Some(_)));
            add_step(order, OrderStep::PowerOn(resumes))
        }
    }
}

/// The trap of a hart that stands outside of RAM: the one that led it there. Where it jumped there, the one that follows.
fn trap_of(stands: &Hart, shape: &Shape) -> Trap {
    let from = csr(stands, SEPC);
    if is_in_ram(shape, from) {
        return Trap {
            cause: csr(stands, SCAUSE),
            from,
            value: csr(stands, STVAL),
        };
    }
    Trap {
        cause: 1,
        from: stands.pc(),
        value: stands.pc(),
    }
}

/// Notes the traps after which harts stand newly, and forgets those of harts that do not.
fn note_traps(traps: &mut [Option<Trap>; 8], board: &Board, shape: &Shape) {
    for number in 0..8u64 {
        let Some(hart) = board.machine().shape().hart(number) else {
            continue;
        };
        let place = hart.index();
        if !is_trapped(board, hart) {
            traps[place] = None;
        } else if traps[place].is_none() {
            traps[place] = Some(trap_of(board.machine().hart(hart), shape));
        }
    }
}

/// What is told of a trap.
fn trap_facts(setting: Setting<'_>, trap: Trap) -> Result<TrapFacts, AllocError> {
    Ok(TrapFacts {
        cause: trap.cause,
        place: place_text(setting.alloc, setting.elf, setting.shape, trap.from)?,
        value: trap.value,
    })
}

/// Where a hart of that state is about to start, if it is.
fn start_of(state: &Standing) -> Option<u64> {
    match state {
        Standing::StartPending(address, _) => Some(address.value()),
        _ => None,
    }
}

/// Where a hart stands: one that is about to start at its start's address.
fn stand_of(board: &Board, hart: HartId) -> u64
    requires { hart < board.now.size.harts }
{
    let state = board.rest().tables.states[hart.index()];
    match start_of(&state) {
        Some(address) => address,
        None => board.machine().hart(hart).pc(),
    }
}

/// What is told of a hart.
fn hart_facts(
    setting: Setting<'_>,
    board: &Board,
    hart: HartId,
    trap: Option<Trap>,
) -> Result<HartFacts, AllocError>
    requires { hart < board.now.size.harts }
{
    let stand = stand_of(board, hart);
    let trap = match trap {
        None => None,
        Some(trap) => Some(trap_facts(setting, trap)?),
    };
    Ok(HartFacts {
        hart: hart.number(),
        state: state_of(board, hart),
        place: place_text(setting.alloc, setting.elf, setting.shape, stand)?,
        is_pending: board.machine().is_pending(hart),
        trap,
    })
}

/// What is told of the harts of a board, but for their traps; nothing where it is not on.
pub fn harts_of(setting: Setting<'_>, board: &Board) -> Result<Vec<HartFacts>, AllocError> {
    harts_facts(setting, board, &[None; 8])
}

/// What is told of the harts of a board; nothing where it is not on.
fn harts_facts(
    setting: Setting<'_>,
    board: &Board,
    traps: &[Option<Trap>; 8],
) -> Result<Vec<HartFacts>, AllocError> {
    let mut harts = Vec::new(setting.alloc);
    if board.status() != Status::On {
        return Ok(harts);
    }
    for number in 0..8u64 {
        if let Some(hart) = board.machine().shape().hart(number) {
            harts.push(hart_facts(setting, board, hart, traps[hart.index()])?)?;
        }
    }
    Ok(harts)
}

/// Adds the turns that a hart made.
fn add_run(
    setting: Setting<'_>,
    order: &mut Vec<OrderStep>,
    board: &Board,
    hart: HartId,
    turns: u64,
) -> Result<(), AllocError>
    requires { hart < board.now.size.harts }
{
    if turns == 0 {
        return Ok(());
    }
    let end = run_end(setting, board, hart)?;
    add_turns(order, hart, turns, end)
}

/// Adds the turns by which a board settles, which it makes.
#[tactic(auto, using(crate::proofs::Leading::leads_none, crate::proofs::Leading::leads_on))]
fn add_settling(
    setting: Setting<'_>,
    explored: &Explored,
    order: &mut Vec<OrderStep>,
    board: &mut Board,
) -> Result<(), AllocError>
    requires { board.old.size ≡ explored.now.asked.size }
    ensures leads { Leads (Happens explored.now.asked) board.old.board board.new.board }
    ensures size { board.new.size ≡ board.old.size }
{
    for number in 0..8u64 {
        let turns = explored.settle(board, number);
        if let Some(hart) = board.machine().shape().hart(number) {
            add_run(setting, order, board, hart, u64::from(turns))?;
        }
    }
    Ok(())
}

/// Lets an event come to the board, and adds it and the turns by which the board settles. Whether it could come.
#[tactic(auto, using(crate::proofs::Leading::leads_once, crate::proofs::Leading::leads_on))]
fn add_event(
    setting: Setting<'_>,
    explored: &Explored,
    order: &mut Vec<OrderStep>,
    board: &mut Board,
    event: u8,
) -> Result<bool, AllocError>
    requires { board.old.size ≡ explored.now.asked.size }
    ensures leads { result ≡ Ok true → Leads (Happens explored.now.asked) board.old.board board.new.board }
    ensures size { board.new.size ≡ board.old.size }
{
    let Some(happening) = explored.happening(event) else {
        return Ok(false);
    };
    add_happening(order, board, happening)?;
    if !explored.replay(board, event) {
        return Ok(false);
    }
    if let Happening::Turn(hart) = &happening
        && hart.number() < board.machine().shape().harts()
    {
        add_run(setting, order, board, *hart, 1)?;
    }
    add_settling(setting, explored, order, board)?;
    Ok(true)
}

/// The way to a row; an empty one where there is no such row.
pub fn way_to(alloc: Global, explored: &Explored, row: usize) -> Result<Vec<u8>, Refusal> {
    match explored.way(row) {
        Ok(Some(way)) => Ok(way),
        Ok(None) => Ok(Vec::new(alloc)),
        Err(_) => Err(Refusal::Memory),
    }
}

/// Lets the events of a way come to the board one after the other, adds them and the turns by which it settles after each, and notes traps.
/// Whether each could come.
#[tactic(auto, using(crate::proofs::Leading::leads_none))]
fn follow(
    setting: Setting<'_>,
    explored: &Explored,
    way: &[u8],
    order: &mut Vec<OrderStep>,
    board: &mut Board,
    traps: &mut [Option<Trap>; 8],
) -> Result<bool, AllocError>
    requires { board.old.size ≡ explored.now.asked.size }
    ensures { result ≡ Ok true → Leads (Happens explored.now.asked) board.old.board board.new.board }
{
    for event in way {
        if !add_event(setting, explored, order, board, *event)? {
            return Ok(false);
        }
        note_traps(traps, board, setting.shape);
    }
    Ok(true)
}

/// The first board, with no step yet.
fn first_walk(alloc: Global, explored: &Explored) -> Result<Walk, Refusal>
    ensures at { IfOk result (λ w. w.board.board ≡ start_of explored.now.asked) }
    ensures size { IfOk result (λ w. w.board.size ≡ explored.now.asked.size) }
{
    match explored.first_board() {
        Ok(board) => Ok(Walk {
            order: Vec::new(alloc),
            harts: Vec::new(alloc),
            board,
        }),
        Err(_) => Err(Refusal::Memory),
    }
}

/// Goes on with a walk along a way. Whether each event of it could come.
fn walk_along(
    setting: Setting<'_>,
    explored: &Explored,
    way: &[u8],
    walk: &mut Walk,
) -> Result<bool, AllocError>
    requires { walk.old.board.size ≡ explored.now.asked.size }
    ensures { result ≡ Ok true → Leads (Happens explored.now.asked) walk.old.board.board walk.new.board.board }
{
    let mut traps: [Option<Trap>; 8] = [None; 8];
    let Walk {
        order,
        harts,
        board,
    } = walk;
    if !follow(setting, explored, way, order, board, &mut traps)? {
        return Ok(false);
    }
    *harts = harts_facts(setting, board, &traps)?;
    Ok(true)
}

/// Follows a shortest way to a board that was found. None where an event of it can't come, which does not happen.
pub fn walk_to(
    setting: Setting<'_>,
    explored: &Explored,
    row: usize,
) -> Result<Option<Walk>, Refusal>
    ensures { IfOk result (λ walk. IfSome walk (λ w.
        Leads (Happens explored.now.asked) (start_of explored.now.asked) w.board.board)) }
{
    let way = way_to(setting.alloc, explored, row)?;
    let mut walk = first_walk(setting.alloc, explored)?;
    match walk_along(setting, explored, way.as_slice(), &mut walk) {
        Ok(true) => Ok(Some(walk)),
        Ok(false) => Ok(None),
        Err(_) => Err(Refusal::Memory),
    }
}
