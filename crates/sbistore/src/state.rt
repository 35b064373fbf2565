//! What C keeps for the library: numbers and bytes alone (include/sbistore.h).

ghost use Rattle.std.specs.Prelude.{◌≡◌};
ghost use Rattle.sbistore.specs.Told.{told_of, plain_of, with_trial, with_image};

use board_model::{ImageHead, Trial};

/// Nothing more is asked for, and `number` is the code.
pub const DONE: u32 = 0;

/// Sector `number` is to be read.
pub const READ: u32 = 1;

/// Sector `number` is to be written.
pub const WRITE: u32 = 2;

/// What was written is to be made durable.
pub const SYNC: u32 = 3;

/// The 8 sectors from `number` on are to be read into page `page`.
pub const READ_PAGE: u32 = 4;

/// Page `page` is to be written into the 8 sectors from `number` on.
pub const WRITE_PAGE: u32 = 5;

/// The code of a command or a look where no store is open.
pub const NOT_OPEN: u32 = 100;

/// The code of a command of no kind.
pub const NO_COMMAND: u32 = 101;

/// The code of a state that no call of the library left so.
pub const SPOILT: u32 = 102;

/// The state of the library: of an open store, and of the plan that is under way.
#[derive(Drop)]
#[repr(C)]
pub struct Sbistore {
    /// The sector of a request; after the last one the code.
    pub number: u64,
    /// How many commands of this life were acknowledged.
    pub receipts: u64,
    /// The page of a request of one.
    pub page: u64,
    pub(crate) sectors: u64,
    /// Where a suspended board goes on, and the value that it then finds.
    pub(crate) address: u64,
    pub(crate) opaque: u64,
    /// How many places of an image were read.
    pub(crate) done: u64,
    /// Which plan is under way, and for a commit and a format which step of it; 0 where none is.
    pub(crate) phase: u32,
    pub(crate) step: u32,
    /// 0 until the first request of a plan.
    pub(crate) asked: u32,
    pub(crate) opened: u32,
    pub(crate) over: u32,
    pub(crate) down: u32,
    /// Whether the command ends the life.
    pub(crate) ends: u32,
    pub(crate) harts: u32,
    pub(crate) pages: u32,
    pub(crate) lanes: u32,
    pub(crate) side: u32,
    /// The hart that a suspended board goes on with.
    pub(crate) hart: u32,
    /// The record that is selected, and the one that a commit writes, as their sectors have them.
    pub(crate) live: [u8; 512],
    /// Of a load the bytes that tell which pages came.
    pub(crate) next: [u8; 512],
}

/// The durable state, without the image's memory.
#[derive(Drop)]
#[repr(C)]
pub struct Durable {
    /// The serial of the next suspension.
    pub next: u64,
    pub slot: u32,
    pub reason: u32,
    pub on_trial: u32,
    pub fallback: u32,
    pub left: u32,
    pub has_image: u32,
    pub image_serial: u64,
    pub image_address: u64,
    pub image_opaque: u64,
    pub image_hart: u32,
    pub padding: u32,
}

/// Tells the durable state.
pub(crate) fn tell(state: &board_model::Durable, told: &mut Durable)
    ensures { told.new ≡ told_of state.now }
{
    *told = plain(state);
    tell_trial(&state.trial, told);
    tell_image(&state.image, told);
}

/// The durable state as one without trial and image.
fn plain(state: &board_model::Durable) -> Durable
    ensures { result ≡ plain_of state.now }
{
    Durable {
        next: state.next,
        slot: state.slot.number(),
        reason: state.reason.number(),
        on_trial: 0,
        fallback: 0,
        left: 0,
        has_image: 0,
        image_serial: 0,
        image_address: 0,
        image_opaque: 0,
        image_hart: 0,
        padding: 0,
    }
}

fn tell_trial(trial: &Option<Trial>, told: &mut Durable)
    ensures { told.new ≡ with_trial trial.now told.old }
{
    match trial {
        None => {}
        Some(trial) => {
            told.on_trial = 1;
            told.fallback = trial.fallback.number();
            told.left = trial.left.number();
        }
    }
}

fn tell_image(image: &Option<ImageHead>, told: &mut Durable)
    ensures { told.new ≡ with_image image.now told.old }
{
    match image {
        None => {}
        Some(image) => {
            told.has_image = 1;
            told.image_serial = image.serial;
            told.image_address = image.address.value();
            told.image_opaque = image.opaque;
            told.image_hart = image.hart.number();
        }
    }
}
