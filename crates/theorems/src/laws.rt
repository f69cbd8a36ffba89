// Laws of what is allowed.
ghost use Rattle.theorems.specs.Statements.{Bridge, StrongerModels, AddressDependencies, Registers};

// Happens-before and orders agree: an outcome is allowed exactly when some order fulfils it.
pub fn bridge()
    ensures { Bridge }
{}

// What is forbidden under a model stays forbidden under one that keeps more.
pub fn stronger_models_only_forbid()
    ensures { StrongerModels }
{}

// What is forbidden stays forbidden when an access that named no address register names one.
pub fn address_dependencies_only_forbid()
    ensures { AddressDependencies }
{}

// A register holds what the last instruction to set it put there.
pub fn registers_hold_what_was_set_last()
    ensures { Registers }
{}
