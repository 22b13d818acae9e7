ghost use Rattle.sharing.specs.Laws.{OddCents};

// Does nothing: its contract is what follows from the laws of a rule alone.
pub fn laws_hold()
    ensures { OddCents }
{}
