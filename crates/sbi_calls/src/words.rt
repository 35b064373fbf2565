//! What a turn of a hart comes to, or a call that is made in its place.

ghost use Rattle.std.specs.Prelude.{◌≡◌};
ghost use Rattle.sbi_calls.specs.Words.{is_answered, is_doze, ends_row};

/// What a hart did in a turn (docs/BOARD.md, "A turn of a hart"). The life goes on.
#[derive(Clone, Copy, PartialEq, Eq, Drop)]
pub enum Did {
    /// Nothing.
    Idle,
    /// The hart began with what it was started with.
    Entered,
    /// The suspended hart woke.
    Woke,
    /// The hart in whose doze the board was began again.
    Resumed,
    /// It made one instruction, took a trap, or had a call answered.
    Next,
    /// It was suspended.
    Suspended,
    /// It stopped.
    Stopped,
    /// It had the board sleep in its RAM, until that is woken.
    Dozing,
}

impl Did {
    /// Whether a call after which that is said was answered.
    pub fn is_answered(self) -> bool
        ensures { result ≡ is_answered self }
    {
        match self {
            Did::Next => true,
            Did::Idle
            | Did::Entered
            | Did::Woke
            | Did::Resumed
            | Did::Suspended
            | Did::Stopped
            | Did::Dozing => false,
        }
    }

    /// Whether the board then sleeps in its RAM.
    pub fn is_doze(self) -> bool
        ensures { result ≡ is_doze self }
    {
        match self {
            Did::Dozing => true,
            Did::Idle
            | Did::Entered
            | Did::Woke
            | Did::Resumed
            | Did::Next
            | Did::Suspended
            | Did::Stopped => false,
        }
    }

    /// Whether no turn of the hart follows in a line: it stopped, or the board dozes.
    pub fn ends_row(self) -> bool
        ensures { result ≡ ends_row self }
    {
        match self {
            Did::Stopped | Did::Dozing => true,
            Did::Idle | Did::Entered | Did::Woke | Did::Resumed | Did::Next | Did::Suspended =>
                false,
        }
    }
}

/// What a turn comes to where no store is at hand.
#[derive(Clone, Copy, Drop)]
pub enum Turned {
    /// It was made, and the hart did this.
    Made(Did),
    /// The hart stands at a call that comes to a durable command, of which nothing was done.
    Durable,
}
