ghost use Rattle.ir_reader.specs.Laws.{OneFunction, OneModule, ModuleOrFault, OneFault};

/// A text is at most one module, has at most one fault, and not both. It does nothing.
pub fn is_one_module()
    ensures modules { OneModule }
    ensures apart { ModuleOrFault }
    ensures faults { OneFault }
{}

/// The tokens of a define are one function, or are refused for one reason at one position. It does
/// nothing.
pub fn is_one_function()
    ensures { OneFunction }
{}
