//! Laws: two ways in which a loader may compute what `valid_image` defines.
//!
//! Costs may be held at their cap, and depths at 4,097, after each step of the computation over a
//! tree (`specs/Held.antt`), so that fixed words suffice; and the piece that an address belongs to
//! may be found in one sweep over the addresses (`specs/Swept.antt`). Calls of `valid_held` state the
//! laws; nothing here can run.
//!
//! The laws.

ghost use Rattle.valid_image_law.specs.Held.{HoldingChangesNothing};
ghost use Rattle.valid_image_law.specs.Swept.{SweepingFindsOwners};

/// What a step comes to, held at its limits, is the same where what it is made of was held before.
pub fn holding_changes_nothing()
    ensures { HoldingChangesNothing }
{}

/// The piece that the next address belongs to is the last one that starts there, or else that of
/// the address before.
pub fn sweeping_finds_owners()
    ensures { SweepingFindsOwners }
{}
