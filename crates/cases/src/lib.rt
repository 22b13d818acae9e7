#![tactic(auto)]

ghost use Rattle.cases.specs.Figures.{WorkedFigures};

// Does nothing: its contract is that the worked figures follow from the definitions.
pub fn worked_figures()
    ensures { WorkedFigures }
{}
