//! Values of constants, words of variables, what names mean.
//!
//! Values are those of the source meaning, words those of the relation of code and text. `laid_..`
//! lay the variables of a text one after the other, `Tables` answers what is the same in all texts,
//! and `variable` finds the variable that a name means in one. Each gives just what `code_spec`
//! says, in constant expected time; that tables tell it is a law (`lookup`).
#![tactic(auto)]

mod callees;
mod fitting;
mod frames;
mod lookup;
mod tables;
mod values;
mod var_layout;
mod var_locations;
mod variables;

pub use callees::callee;
pub use fitting::{fit_value, fit_word};
pub use frames::{laid_monitor, laid_process, laid_routine};
pub use lookup::{tables_tell, variables_are_told};
pub use tables::{Tables, number};
pub use values::ConstantValues;
pub use var_layout::{VarLayout, lay_members, lay_params, lay_vars, range_of};
pub use var_locations::VarLocations;
pub use variables::variable;
