ghost use Rattle.unroll.specs.Layers.{LayersHaveRuns};

/// The layers of a function have its outcome and its choices, for every function, well formed or
/// not, on every input and for every tape.
pub fn layers_have_runs()
    ensures { LayersHaveRuns }
{}
