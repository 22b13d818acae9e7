ghost use Rattle.interval.specs.Laws.{ReadIsSpelled, SpelledIsRead, AllAreSpelled, IntervalsInRange};

// Does nothing: its contract says which words are an interval, and of which figures.
pub fn reading_law()
    ensures accepted { ReadIsSpelled }
    ensures written { SpelledIsRead }
    ensures every { AllAreSpelled }
    ensures intervals { IntervalsInRange }
{}
