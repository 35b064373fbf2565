//! Laws of the table of answers, the contract of a function that does nothing.

ghost use Rattle.sbi_calls.specs.Laws.{ErrorsChangeNothing, StartsTheStopped, StatusIsOne};

/// What the table of answers says in the words of the calls.
pub fn call_determines_answer()
    ensures errors { ErrorsChangeNothing }
    ensures starts { StartsTheStopped }
    ensures status { StatusIsOne }
{}
