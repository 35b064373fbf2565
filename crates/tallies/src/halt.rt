//! The word, and the watches of those who look at it or set it.

ghost use Rattle.std.specs.Prelude.{◌≡◌, None, is_some, true, false, IfOk};
ghost use Rattle.tallies.specs.Halts.{HasLooked, watched};

use crate::halt_views::HaltView;
use atomic_table::{Join, Play, Seat, Split, Table, TableRule};
use std::alloc::{AllocError, Global};
use std::marker::Model;

/// The rule of the table.
pub struct SetOnce;

impl TableRule<(), HaltView, ()> for SetOnce {
    ghost use Rattle.tallies.specs.Halts.{IsKept, first_view};

    ghost holds = { λ key. IsKept };

    ghost first = { λ key. first_view };
}

struct Entering;

impl Play<(), HaltView> for Entering {
    ghost use Rattle.tallies.specs.Halts.{Enters};

    ghost then = { Enters };
}

struct Looking;

impl Play<(), HaltView> for Looking {
    ghost use Rattle.tallies.specs.Halts.{Looks};

    ghost then = { Looks };
}

struct SettingHalt;

impl Play<(), HaltView> for SettingHalt {
    ghost use Rattle.tallies.specs.Halts.{Sets};

    ghost then = { Sets };
}

struct Learning;

impl Play<(), HaltView> for Learning {
    ghost use Rattle.tallies.specs.Halts.{Learns};

    ghost then = { Learns };
}

struct Known;

impl Split<HaltView> for Known {
    ghost use Rattle.tallies.specs.Halts.{same_view, what_is_known};

    ghost left = { same_view };

    ghost right = { what_is_known };
}

impl Join<HaltView> for Known {
    ghost use Rattle.tallies.specs.Halts.{with_known, no_looks};

    ghost both = { with_known };

    ghost spent = { no_looks };
}

/// A word that is set once, and then stays. A contract sees which it is.
#[derive(Drop)]
pub struct Halt {
    table: Table<(), HaltView, (), SetOnce, Global>,
}

impl Model for Halt {
    ghost use Rattle.std.specs.Prelude.{◌<◌};
    ghost use Rattle.atomic_table.specs.Seated.{TableId};

    ghost Value = { TableId };

    ghost view = { λ h. h.table.shared.table_id };

    ghost invariant = { λ h. 0 < h.table.shared.table_id.words };
}

/// What one knows of such a word who looks at it, or may set it. It takes no bytes. A contract sees a `Watched`.
#[derive(Drop)]
pub struct Watch {
    seat: Seat<(), HaltView>,
}

impl Model for Watch {
    ghost use Rattle.std.specs.Prelude.{◌≡◌, []};
    ghost use Rattle.tallies.specs.Halts.{Watched};

    ghost Value = { Watched };

    ghost view = { λ w. record { of = w.seat.table_id; may_set = w.seat.me.0.may_set; unset = w.seat.me.0.unset; sum = w.seat.me.0.sum } };

    ghost invariant = { λ w. w.seat.me.1 ≡ [] };
}

impl Halt {
    /// A word that is not set, and the watch of the one who may set it.
    pub fn new(alloc: Global) -> Result<(Halt, Watch), AllocError>
        ensures { IfOk result (λ r. r.1 ≡ watched r.0 true 0 None) }
    {
        let (table, seat) = Table::of_words(alloc, &[0], &())?;
        Ok((Halt { table }, Watch { seat }))
    }

    /// The watch of one who has not looked yet.
    pub fn watch(&self) -> Watch
        ensures { result ≡ watched self.now false 0 None }
    {
        let (_found, seat) = self.table.shared.load_new_seat::<Entering>(0);
        Watch { seat }
    }

    /// One look: whether the word is set. Where it is not, the look is counted.
    pub fn is_set(&self, watch: &mut Watch) -> bool
        requires { watch.old.of ≡ self.now }
        ensures { HasLooked result watch.old watch.new }
    {
        self.table.shared.load::<Looking>(&mut watch.seat, 0) != 0
    }

    /// Sets the word, by the one who may: each look from then on finds it set, and nobody may set it again.
    pub fn set(&self, watch: &mut Watch)
        requires of { watch.old.of ≡ self.now }
        requires may { watch.old.may_set ≡ true }
        ensures of { watch.new.of ≡ self.now }
        ensures may { watch.new.may_set ≡ false }
        ensures set { is_some watch.new.sum ≡ true }
    {
        self.table.shared.swap::<SettingHalt>(&mut watch.seat, 0, 1);
    }

    /// A watch that knows the same of the word, and has not looked itself.
    pub fn known(&self, watch: &mut Watch) -> Watch
        requires { watch.old.of ≡ self.now }
        ensures same { watch.new ≡ watch.old }
        ensures known { result ≡ watched self.now false 0 watch.old.sum }
    {
        let seat = self.table.shared.split_seat::<Known>(&mut watch.seat);
        Watch { seat }
    }

    /// While one may set the word, nobody has found it set.
    pub fn compare(&self, setter: &mut Watch, watch: &mut Watch)
        requires setter { (setter.old.of ≡ self.now) × (setter.old.may_set ≡ true) }
        requires watch { watch.old.of ≡ self.now }
        ensures setter { (setter.new.of ≡ self.now) × (setter.new.may_set ≡ true) × (is_some setter.new.sum ≡ false) }
        ensures watch { watch.new ≡ watch.old }
        ensures unset { is_some watch.old.sum ≡ false }
    {
        let other = self.known(watch);
        self.table
            .shared
            .join_seat::<Known>(&mut setter.seat, other.seat);
        self.table.shared.load::<Learning>(&mut setter.seat, 0);
    }
}
