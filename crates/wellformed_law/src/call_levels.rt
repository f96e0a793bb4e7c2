//! Laws of the calls of a program: where no routine reaches itself, each routine has a level above
//! those that it calls.
//!
//! `specs/Levels.antt` says what a level is over the places of routines; the levels of the meaning
//! are over their names.
//!
//! Laws of the calls of a program. These functions do nothing; their contracts are the laws.

ghost use Rattle.std.specs.Prelude.{ℕ, List, Contains};
ghost use Rattle.syntax_tree.specs.Plain.{Name};
ghost use Rattle.syntax_tree.specs.Placed.{Process, process, Prog, plain, plain_process};
ghost use Rattle.syntax_tree.specs.declared.place.Place.{Place};
ghost use Rattle.static_names.specs.Resolved.{IsNamed};
ghost use Rattle.source_semantics.specs.Nesting.{Levels};
ghost use Rattle.static_calls.specs.Reaching.{ReachesItself};
ghost use Rattle.static_semantics.specs.Places.{NamesFound};
ghost use Rattle.static_semantics.specs.Mirrors.{NamesListed, AreMirrored};
ghost use Rattle.wellformed_law.specs.Levels.{HasPlaceLevels};

/// Where no routine reaches itself by calls, each has a level above those that it calls.
pub fn calls_have_levels()
    ensures { (g : Prog Place) → ((place : Place) → ¬ ReachesItself g place) → HasPlaceLevels g }
{}

/// Then the routines that a process may call have levels by their names, as the meaning asks.
pub fn routines_have_levels()
    ensures { (g : Prog Place) → NamesFound g → NamesListed g → HasPlaceLevels g →
        (p : Process Place) → Contains g.decls (process p) → AreMirrored g p
        → (level : Name → ℕ) × Levels (plain g) (plain_process p) level }
{}
