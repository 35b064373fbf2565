//! What holds of the hart table between any two steps of any threads.

ghost use Rattle.std.specs.Prelude.{ℕ, ◌+◌, ◌*◌};
ghost use Rattle.hsm.specs.Rule.{HartInvariant, reading};
ghost use Rattle.hsm.specs.States.{StartsLedger, QuietLaw};
ghost use Rattle.tallies.specs.Rules.{StepsAreTrue, EarlierStepsStand, ChangesAreNoted};

/// The ledger of starts; what a quiet hart knows; that each step that a seat notes found what the word held,
/// and that nothing changes but by such steps. The rule of which they speak is that of
/// [`HartTable`](crate::HartTable).
pub fn laws()
    ensures starts { StartsLedger }
    ensures quiet { QuietLaw }
    ensures truth { (harts boot : ℕ) → StepsAreTrue reading (1 + 2 * harts) (HartInvariant harts boot) (λ s kept. kept.steps.log) }
    ensures earlier { (harts boot : ℕ) → EarlierStepsStand reading (1 + 2 * harts) (HartInvariant harts boot) }
    ensures unnoted { (harts boot : ℕ) → ChangesAreNoted reading (1 + 2 * harts) (HartInvariant harts boot) }
{}
