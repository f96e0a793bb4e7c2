//! Law: each of the seven tests of an image passes exactly where a rule in plain words holds.
//!
//! `valid_image` says of each test which fault it finds first. `specs/PlainRules.antt` says of each
//! what an image has to be, with no order of steps in it: that code is of its tree
//! (`specs/Code.antt`), that operands fit (`specs/Operands.antt`), and for costs, sizes, ranks,
//! bounds and handlers which declared number is at least, or equal to, which needed one.
//! `specs/RulesLaw.antt` ties both. Nothing here can run.

ghost use Rattle.valid_image_law.specs.Reached.{AddressesBelongToOwners, BoundAreReached, StaysAreReached, WaitsAreReached};
ghost use Rattle.valid_image_law.specs.RulesLaw.{PartsFailByTheirRules, PartsPassByTheirRules, ValidKeepsAllRules};

/// A part of an image has no fault exactly where its rule holds.
pub fn parts_pass_by_their_rules()
    ensures { PartsPassByTheirRules }
{}

/// A part of an image has a fault exactly where its rule does not hold.
pub fn parts_fail_by_their_rules()
    ensures { PartsFailByTheirRules }
{}

/// An image is valid exactly where it keeps all seven rules.
pub fn valid_keeps_all_rules()
    ensures { ValidKeepsAllRules }
{}

/// A tree reaches a WAIT by the computation over the routines exactly where one stands in it, or in
/// a routine that it calls, and so on.
pub fn waits_are_reached()
    ensures { WaitsAreReached }
{}

/// An address belongs to the piece that starts last at it or before it.
pub fn addresses_belong_to_owners()
    ensures { AddressesBelongToOwners }
{}

/// What a process is taken to stay in a monitor is the longest stay that an entry of it declares
/// which the process reaches.
pub fn stays_are_reached()
    ensures { StaysAreReached }
{}

/// A routine counts as bound to a process or a monitor exactly where it is, or calls one that does.
pub fn bound_are_reached()
    ensures { BoundAreReached }
{}
