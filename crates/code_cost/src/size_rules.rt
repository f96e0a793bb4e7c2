//! The rules of size: a program has at most 65,535 instructions, and each stack at most 4,096
//! words.
//!
//! `specs/Rules.antt` says where they fail, over the costs and sizes that `code_cost_spec` defines;
//! `specs/Example.antt` has programs at the limits, and the law shows which of them keep to the
//! rules. Nothing here can run.
//!
//! The law. This function does nothing; its contract is the law.

ghost use Rattle.code_cost.specs.Example.{RulesOfSizeAreTried};

/// Programs at the limits of the rules of size, and above them.
pub fn rules_of_size_are_tried()
    ensures { RulesOfSizeAreTried }
{}
