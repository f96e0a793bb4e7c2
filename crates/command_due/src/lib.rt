//! What is due of each command, by what its files hold.
//!
//! `specs/Source.antt` says what a program text comes to with an overhead: its fault, or a program
//! that is late, or one that is timely, with its image. `specs/CommandsDue.antt` has the status,
//! the bytes that are put and those that are stored, for `go`, `check`, `json`, `compile`, `print`,
//! `run` and `migrate`; `specs/Runs.antt` what holds of every run of an image that is stored.
//!
//! Of the other commands: `SpareDue` with `Lines` (`slack`), `WhyDue` (`why`) and `FitDue` (`fit`),
//! whose texts are those of `sched_program`, `AsmDue` with `Texts` (`asm`, `dis`), `StopDue` with
//! `Stops` and `Text` (`watch`), `ChartDue` (`chart`, whose text is that of `run_chart`),
//! `TableDue` (`table`, by `table_format`), `ReplayDue` (`replay`), `EdfDue` with `Image`, `Tasks`,
//! `Waits` and `Report` (`edf`). `make` reads no file: `command`. The definitions alone stand here.
#![tactic(auto)]
