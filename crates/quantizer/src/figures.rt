// What the codec's table says, in figures and of every error.
ghost use Rattle.quantizer.specs.Figures.{Figures, Ranged};

// Q3 takes the error -6 to the value 0 and -7 to -7, and Q2 takes 125 to 127. Each size of error
// falls in the range of the step that it is given.
pub fn worked_figures()
    ensures figures { Figures }
    ensures ranged { Ranged }
{}
