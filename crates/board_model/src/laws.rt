//! Laws of the durable commands over whole lists, each the contract of a function that does nothing.

ghost use Rattle.std.specs.Prelude.{◌≡◌, ℕ, ◌+◌, ◌-◌, ◌≤◌, true, List, [], ◌∷◌, ◌++◌, Option, None, Some, All, nat_lt, if◌then◌else◌};
ghost use Rattle.board_model.specs.Durable.{DurableState, Image, Change, Tries, Attempt, formatted, refusal_of, after, fold, image_step, MakesImage, DropsImage, LeavesImage, is_table_number, HasValidNumbers, HasImage, IsOrdered, IsWhole, CarriesWhole, attempts, LeavesTrial};
ghost use Rattle.board_model.specs.Views.{durable_of};
ghost use Rattle.board_model.specs.Trials.{IsUndecided, boots_in};
ghost use Rattle.board_model.specs.Shapes.{Size, IsSize};
ghost use Rattle.board_model.specs.declared.durable.Reason.{Reason};
ghost use Rattle.board_model.specs.declared.durable.Trial.{Trial};

/// The fold of a longer list is the fold of its end, from the fold of its beginning.
pub fn longer_list()
    ensures { (s : DurableState) (cs ds : List Change) → fold s (cs ++ ds) ≡ fold (fold s cs) ds }
{}

/// The next serial never falls, and a standing image's serial stays below it.
pub fn serials_rise()
    ensures { (s : DurableState) (cs : List Change) → IsOrdered s
        → (s.next ≤ (fold s cs).next) × IsOrdered (fold s cs) }
{}

/// What a command does to the image is told by its kind: it makes one under the next serial, it drops the one
/// that stands, or it leaves it; and one that leaves it does the same whatever the image.
pub fn the_image_by_kind()
    ensures made { (s : DurableState) (c : Change) → image_step c ≡ MakesImage
        → ((i : Image) × ((after s c).image ≡ Some i) × (i.serial ≡ s.next)) × ((after s c).next ≡ s.next + 1) }
    ensures dropped { (s : DurableState) (c : Change) → image_step c ≡ DropsImage
        → after s c ≡ record s { image = None } }
    ensures left { (s : DurableState) (c : Change) → image_step c ≡ LeavesImage
        → ((after s c).image ≡ s.image) × ((after s c).next ≡ s.next) }
    ensures apart { (s : DurableState) (x : Option Image) (c : Change) → image_step c ≡ LeavesImage
        → after (record s { image = x }) c ≡ record (after s c) { image = x } }
{}

/// The table of commands never looks at the memory of an image: it refuses the same without, and makes the same
/// of all the rest.
pub fn no_memory_is_read()
    ensures refusal { (s t : DurableState) (c : Change) → durable_of s ≡ durable_of t
        → refusal_of s c ≡ refusal_of t c }
    ensures next { (s t : DurableState) (c : Change) → durable_of s ≡ durable_of t
        → durable_of (after s c) ≡ durable_of (after t c) }
{}

/// The table of commands refuses by few numbers, and after a command that it does not refuse the slot and the
/// trial are within their ranges.
pub fn the_table_keeps_its_ranges()
    ensures refused { (s : DurableState) (c : Change) (n : ℕ) → refusal_of s c ≡ Some n → is_table_number n ≡ true }
    ensures stays { (s : DurableState) (c : Change) → HasValidNumbers s → refusal_of s c ≡ None
        → HasValidNumbers (after s c) }
{}

/// A reset, a suspension, Consume and Discard leave the slot and its trial.
pub fn other_commands_leave_the_trial()
    ensures { (s : DurableState) (c : Change) → LeavesTrial c
        → ((after s c).slot ≡ s.slot) × ((after s c).trial ≡ s.trial) }
{}

/// A trial of n boots that is never found good falls back to its old slot at the boot after the n-th, and not
/// before, whatever resets, suspensions and resumes come in between. What it falls back to is the slot that
/// stood before the trial, however often the trial was begun anew.
pub fn a_trial_ends()
    ensures never_good { (s : DurableState) (n boots : ℕ) (cs : List Change) → s.trial ≡ None → All IsUndecided cs
        → (fold s (Tries n boots ∷ cs)).slot ≡ (if nat_lt boots (boots_in cs) then s.slot else n) }
    ensures booted { (s : DurableState) (t : Trial) (n : ℕ) → s.trial ≡ Some t → n ≤ t.left
        → ((fold s (attempts n)).slot ≡ s.slot)
        × ((fold s (attempts n)).trial ≡ Some (record t { left = t.left - n })) }
    ensures falls_back { (s : DurableState) (t : Trial) → s.trial ≡ Some t
        → ((fold s (Attempt ∷ attempts t.left)).slot ≡ t.fallback) × ((fold s (Attempt ∷ attempts t.left)).trial ≡ None) }
    ensures begun { (s : DurableState) (n boots : ℕ) → s.trial ≡ None
        → (after s (Tries n boots)).trial ≡ Some (record { fallback = s.slot; left = boots }) }
    ensures again { (s : DurableState) (t : Trial) (n boots : ℕ) → s.trial ≡ Some t
        → (after s (Tries n boots)).trial ≡ Some (record t { left = boots }) }
{}

/// An image that a command replaced or dropped never stands again under its serial, whatever commands follow.
pub fn image_never_again()
    ensures { (s : DurableState) (c : Change) (cs : List Change) (serial : ℕ) → IsOrdered s → HasImage s serial
        → (HasImage (after s c) serial → ⊥) → HasImage (fold (after s c) cs) serial → ⊥ }
{}

/// Where each suspension carries the memory of its board, so does each image that stands after it; and such a
/// memory has bytes. What a format leaves has no image.
pub fn images_stay_whole()
    ensures first { (size : Size) → IsWhole size formatted }
    ensures next { (size : Size) (s : DurableState) (c : Change) → IsWhole size s → CarriesWhole size c
        → IsWhole size (after s c) }
    ensures all { (size : Size) (s : DurableState) (cs : List Change) → IsWhole size s → All (CarriesWhole size) cs
        → IsWhole size (fold s cs) }
    ensures some { (size : Size) (s : DurableState) (i : Image) → IsSize size → IsWhole size s → s.image ≡ Some i
        → i.memory ≡ [] → ⊥ }
{}
