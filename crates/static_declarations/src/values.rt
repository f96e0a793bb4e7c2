//! The values of constants.

ghost use Rattle.std.specs.Prelude.{◌≡◌, OnOk, IfOk, map};
ghost use Rattle.syntax_tree.specs.Placed.{placed_constant, placed_decl, plain_constant, plain_decl};
ghost use Rattle.source_semantics.specs.Names.{signed};
ghost use Rattle.static_declarations.specs.Seen.{number_value, kept_worth, amount, with_constant, with_decl, with_decls, no_worth};

use indexmap::IndexMap;
use out_of_memory::OutOfMemory;
use std::alloc::Global;
use syntax_tree::{Constant, Declaration, Value};

/// A number by its sign and its size. Zero has either sign.
#[derive(Clone, Copy, Debug)]
pub struct Number {
    pub minus: bool,
    pub size: u32,
}

/// Constants by name, each with its value.
pub type Values<'a> = IndexMap<&'a [u8], Number>;

impl Number {
    /// The number, or what it is with its sign turned.
    fn signed(self, minus: bool) -> Number
        ensures { number_value result ≡ signed minus (number_value self) }
    {
        Number {
            minus: self.minus != minus,
            size: self.size,
        }
    }

    /// The value, from -4,294,967,295 to 4,294,967,295.
    pub fn get(self) -> i64
        ensures { result ≡ number_value self }
    {
        let size = i64::from(self.size);
        if self.minus { -size } else { size }
    }
}

/// The value of the constant of that name, 0 where there is none.
pub fn named(values: &Values<'_>, name: &[u8]) -> Number
    ensures { number_value result ≡ kept_worth values.now.entries name.now }
{
    let none = Number {
        minus: false,
        size: 0,
    };
    values.get(name).copied().unwrap_or(none)
}

/// The value of a constant.
pub fn value_of(values: &Values<'_>, constant: &Constant) -> Number
    ensures { number_value result ≡ amount (kept_worth values.now.entries)
        (plain_constant (placed_constant constant.now)) }
{
    match &constant.value {
        Value::Literal(size) => Number {
            minus: constant.minus,
            size: *size,
        },
        Value::Name(name) => named(values, name.as_bytes()).signed(constant.minus),
    }
}

/// Keeps the value of one more constant.
fn keep<'a>(values: &mut Values<'a>, name: &'a [u8], number: Number) -> Result<(), OutOfMemory>
    ensures { OnOk result (kept_worth values.new.entries ≡
        with_constant (kept_worth values.old.entries) name.now (number_value number)) }
{
    values.insert(name, number)?;
    Ok(())
}

/// One more declaration.
fn next<'a>(values: &mut Values<'a>, decl: &'a Declaration) -> Result<(), OutOfMemory>
    ensures { OnOk result (kept_worth values.new.entries ≡
        with_decl (kept_worth values.old.entries) (plain_decl (placed_decl decl.now))) }
{
    if let Declaration::Const { name, value, .. } = decl {
        let number = value_of(values, value);
        keep(values, name.as_bytes(), number)?;
    }
    Ok(())
}

/// The constants of declarations, each with its value, which names those before it alone.
pub fn values<'a>(alloc: Global, decls: &'a [Declaration]) -> Result<Values<'a>, OutOfMemory>
    ensures { IfOk result (λ values. kept_worth values.entries ≡
        with_decls no_worth (map plain_decl (map placed_decl decls.now))) }
{
    let mut values = Values::with_capacity(alloc, decls.len())?;
    for decl in decls {
        next(&mut values, decl)?;
    }
    Ok(values)
}
