//! What holds of each story.
ghost use Rattle.std.specs.Prelude.{[], List};
ghost use Rattle.board_model.specs.Shapes.{Size};
ghost use Rattle.disk.specs.FaultState.{FaultState};
ghost use Rattle.theorem.specs.Images.{ShowsSuspended};
ghost use Rattle.theorem.specs.Story.{Now, begin, Tells};
ghost use Rattle.theorem.specs.declared.asks.Asked.{Asked};
ghost use Rattle.theorem.specs.declared.asks.Seen.{Seen};

/// *An image that it finds is the suspended memory, byte for byte. No image is resumed twice.* In each story from a format on, by what
/// was asked and seen alone: what a load reads, and what a board goes on with, is of the last suspension that was acknowledged, or of
/// one in doubt since; and of one that no board went on with. It does nothing.
pub fn images_go_on_once()
    ensures { (size : Size) (faults : FaultState) (asked : List Asked) (seen : List Seen) (w : Now)
        → Tells size (begin faults) asked seen w → ShowsSuspended [] asked seen }
{}
