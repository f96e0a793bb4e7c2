//! Laws: what is due of `go` on what `make` has stored.
//!
//! `specs/Loads.antt` says that it is status 0, and that its log has the lines, the bytes and the
//! mark that `make` told. Nothing here can run.
//!
//! The laws.

ghost use Rattle.calls_law.specs.Loads.{LoadsGoAsTold, MakeThenGoIsAsTold};

use command_due_law::one_answer::go_is_one;

/// What is due of `go` on the texts of a load is status 0; the line of the load tells the number of
/// its instructions, and lines, bytes and mark of its log.
pub fn loads_go_as_told()
    ensures { LoadsGoAsTold }
{
    go_is_one();
}

/// So it is after a call of `make` that answers 0, whose two files have two names.
pub fn make_then_go_is_as_told()
    ensures { MakeThenGoIsAsTold }
{
    loads_go_as_told();
}
