// The worked figures, shown of the definitions that the contracts use.
ghost use Rattle.codec.specs.Figures.{WorkedFigures};

// States the figures; there is nothing to do.
pub fn worked_figures()
    ensures { WorkedFigures }
{}
