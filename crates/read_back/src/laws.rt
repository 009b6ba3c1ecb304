ghost use Rattle.read_back.specs.ReadBack.{MadeModulesArePrintable, PrintedModulesReadBack};

/// What is printed of a module is read as the same module. It does nothing.
pub fn printed_modules_read_back()
    ensures { PrintedModulesReadBack }
{}

/// The modules that are made from a seed can be printed so. It does nothing.
pub fn made_modules_are_printable()
    ensures { MadeModulesArePrintable }
{}
