//! Variables one after the other.

ghost use Rattle.std.specs.Prelude.{◌≡◌, ◌≤◌, ◌<◌, ◌+◌, ◌^◌, OnOk, List, [], ◌∷◌, ◌++◌, map, option_map, filter_map, length};
ghost use Rattle.syntax_tree.specs.Placed.{placed, plain, placed_kind, placed_member, placed_param, placed_scalar, placed_var, plain_kind, plain_member, plain_param, plain_scalar, plain_var};
ghost use Rattle.source_semantics.specs.Names.{variable_in};
ghost use Rattle.source_semantics.specs.Store.{range_of as range_of_kind, kind_range as range_of_type};
ghost use Rattle.code_spec.specs.Layout.{shape_of, size_of, words_of, places_from, param_places};
ghost use Rattle.code_names.specs.First.{names_of};
ghost use Rattle.codegen_spec.specs.Told.{told_shape, told_range};
ghost use Rattle.code_layout.specs.LayoutTables.{place_names, told_all};
ghost use Rattle.syntax_tree.specs.Plain.{Var as SpecVar, Member as SpecMember, Param as SpecParam};
ghost use Rattle.codegen_spec.specs.declared.var_location.Area.TheVariants as in_area;

use crate::fitting::{count_between, fit_value, fit_word};
use crate::values::ConstantValues;
use codegen_spec::{Area, ValueRange, VarLocation, VarShape};
use out_of_memory::OutOfMemory;
use std::alloc::Global;
use syntax_tree::{Member, Name, Param, Scalar, Type, Var};

/// Variables that are laid one after the other: their names, where they lie, and the word behind
/// them. 128 bits tell it exactly: there are fewer than 2^64 variables, each with fewer than 2^33
/// words.
#[derive(Drop)]
pub struct VarLayout<'a> {
    pub names: Vec<&'a [u8]>,
    pub spots: Vec<VarLocation>,
    pub word: u128,
}

/// The range that values of a type keep to, if any.
pub fn range_of(values: &ConstantValues<'_>, kind: &Scalar) -> Option<ValueRange>
    ensures { result ≡ option_map told_range (range_of_kind (plain (placed values.now))
        (plain_scalar (placed_scalar kind.now))) }
{
    match kind {
        Scalar::Int | Scalar::Boolean => None,
        Scalar::Subrange { low, high } => Some(ValueRange {
            low: fit_value(values.value(low)),
            high: fit_value(values.value(high)),
        }),
    }
}

/// How many words a variable of a type takes.
fn size(values: &ConstantValues<'_>, kind: &Type) -> u64
    ensures exact { result ≡ size_of (shape_of (plain (placed values.now))
        (plain_kind (placed_kind kind.now))) }
    ensures small { result < 2 ^ 33 }
{
    match kind {
        Type::Scalar(_) => 1,
        Type::Array { low, high, .. } => count_between(values.value(low), values.value(high)),
    }
}

fn shape(values: &ConstantValues<'_>, kind: &Type) -> VarShape
    ensures { result ≡ told_shape (shape_of (plain (placed values.now))
        (plain_kind (placed_kind kind.now))) }
{
    match kind {
        Type::Scalar(_) => VarShape::Single,
        Type::Array { low, .. } => VarShape::Array {
            low: fit_value(values.value(low)),
            len: fit_word(u128::from(size(values, kind))),
        },
    }
}

/// The range that the values of a variable keep to, if any.
fn kind_range(values: &ConstantValues<'_>, kind: &Type) -> Option<ValueRange>
    ensures { result ≡ option_map told_range (range_of_type (plain (placed values.now))
        (plain_kind (placed_kind kind.now))) }
{
    match kind {
        Type::Scalar(kind) => range_of(values, kind),
        Type::Array { element, .. } => range_of(values, element),
    }
}

impl<'a> VarLayout<'a> {
    /// No variables; the first is to lie at this word.
    pub fn new(alloc: Global, word: u128) -> VarLayout<'a>
        ensures names { result.names.items ≡ [] }
        ensures spots { result.spots.items ≡ [] }
        ensures word { result.word ≡ word }
    {
        VarLayout {
            names: Vec::new(alloc),
            spots: Vec::new(alloc),
            word,
        }
    }
}

/// One more variable of so many words.
fn lay<'a>(
    laying: &mut VarLayout<'a>,
    name: &'a Name,
    spot: VarLocation,
    size: u64,
) -> Result<(), OutOfMemory>
    requires room { laying.old.word < 2 ^ 127 }
    ensures names { OnOk result (names_of laying.new.names.items ≡
        names_of laying.old.names.items ++ name.now ∷ []) }
    ensures spots { OnOk result (laying.new.spots.items ≡ laying.old.spots.items ++ spot ∷ []) }
    ensures word { OnOk result (laying.new.word ≡ laying.old.word + size) }
{
    laying.names.push(name.as_bytes())?;
    laying.spots.push(spot)?;
    laying.word += u128::from(size);
    Ok(())
}

/// One more variable of an area.
fn lay_var<'a>(
    values: &ConstantValues<'_>,
    area: Area,
    laying: &mut VarLayout<'a>,
    var: &'a Var,
) -> Result<(), OutOfMemory>
    requires { laying.old.word < 2 ^ 127 }
    ensures names { OnOk result ((rest : List SpecVar) → names_of laying.new.names.items ++
        place_names (places_from (plain (placed values.now)) laying.new.word rest) ≡
        names_of laying.old.names.items ++ place_names
        (places_from (plain (placed values.now)) laying.old.word
        (plain_var (placed_var var.now) ∷ rest))) }
    ensures spots { OnOk result ((rest : List SpecVar) → laying.new.spots.items ++
        told_all area (places_from (plain (placed values.now)) laying.new.word rest) ≡
        laying.old.spots.items ++ told_all area
        (places_from (plain (placed values.now)) laying.old.word
        (plain_var (placed_var var.now) ∷ rest))) }
    ensures word { OnOk result ((rest : List SpecVar) → laying.new.word +
        words_of (plain (placed values.now)) rest ≡ laying.old.word +
        words_of (plain (placed values.now)) (plain_var (placed_var var.now) ∷ rest)) }
    ensures small { OnOk result (laying.new.word ≤ laying.old.word + 2 ^ 33) }
{
    let spot = VarLocation {
        area,
        word: fit_word(laying.word),
        shape: shape(values, &var.kind),
        range: kind_range(values, &var.kind),
    };
    lay(laying, &var.name, spot, size(values, &var.kind))?;
    Ok(())
}

/// Lays variables of an area.
pub fn lay_vars<'a>(
    values: &ConstantValues<'_>,
    area: Area,
    laying: &mut VarLayout<'a>,
    vars: &'a [Var],
) -> Result<(), OutOfMemory>
    requires { laying.old.word ≤ 2 ^ 98 }
    ensures names { OnOk result (names_of laying.new.names.items ≡
        names_of laying.old.names.items ++ place_names
        (places_from (plain (placed values.now)) laying.old.word
        (map plain_var (map placed_var vars.now)))) }
    ensures spots { OnOk result (laying.new.spots.items ≡ laying.old.spots.items ++
        told_all area (places_from (plain (placed values.now)) laying.old.word
        (map plain_var (map placed_var vars.now)))) }
    ensures word { OnOk result (laying.new.word ≡ laying.old.word +
        words_of (plain (placed values.now)) (map plain_var (map placed_var vars.now))) }
    ensures small { OnOk result (laying.new.word ≤ laying.old.word + 2 ^ 97) }
{
    for var in vars {
        lay_var(values, area, laying, var)?;
    }
    Ok(())
}

/// One more member of a monitor.
fn lay_member<'a>(
    values: &ConstantValues<'_>,
    laying: &mut VarLayout<'a>,
    member: &'a Member,
) -> Result<(), OutOfMemory>
    requires { laying.old.word < 2 ^ 127 }
    ensures names { OnOk result ((rest : List SpecMember) → names_of laying.new.names.items ++
        place_names (places_from (plain (placed values.now)) laying.new.word
        (filter_map variable_in rest)) ≡ names_of laying.old.names.items ++
        place_names (places_from (plain (placed values.now)) laying.old.word
        (filter_map variable_in (plain_member (placed_member member.now) ∷ rest)))) }
    ensures spots { OnOk result ((rest : List SpecMember) → laying.new.spots.items ++
        told_all in_area.Monitor (places_from (plain (placed values.now)) laying.new.word
        (filter_map variable_in rest)) ≡ laying.old.spots.items ++
        told_all in_area.Monitor (places_from (plain (placed values.now)) laying.old.word
        (filter_map variable_in (plain_member (placed_member member.now) ∷ rest)))) }
    ensures word { OnOk result ((rest : List SpecMember) → laying.new.word +
        words_of (plain (placed values.now)) (filter_map variable_in rest) ≡ laying.old.word +
        words_of (plain (placed values.now)) (filter_map variable_in
        (plain_member (placed_member member.now) ∷ rest))) }
    ensures small { OnOk result (laying.new.word ≤ laying.old.word + 2 ^ 33) }
{
    match member {
        Member::Var(var) => {
            lay_var(values, Area::Monitor, laying, var)?;
            Ok(())
        }
        Member::Condition { .. } => Ok(()),
    }
}

/// Lays the variables of a monitor.
pub fn lay_members<'a>(
    values: &ConstantValues<'_>,
    laying: &mut VarLayout<'a>,
    members: &'a [Member],
) -> Result<(), OutOfMemory>
    requires { laying.old.word ≤ 2 ^ 98 }
    ensures names { OnOk result (names_of laying.new.names.items ≡
        names_of laying.old.names.items ++ place_names
        (places_from (plain (placed values.now)) laying.old.word
        (filter_map variable_in (map plain_member (map placed_member members.now))))) }
    ensures spots { OnOk result (laying.new.spots.items ≡ laying.old.spots.items ++
        told_all in_area.Monitor (places_from (plain (placed values.now)) laying.old.word
        (filter_map variable_in (map plain_member (map placed_member members.now))))) }
    ensures word { OnOk result (laying.new.word ≡ laying.old.word +
        words_of (plain (placed values.now)) (filter_map variable_in
        (map plain_member (map placed_member members.now)))) }
{
    for member in members {
        lay_member(values, laying, member)?;
    }
    Ok(())
}

/// One more parameter.
fn lay_param<'a>(
    values: &ConstantValues<'_>,
    laying: &mut VarLayout<'a>,
    param: &'a Param,
) -> Result<(), OutOfMemory>
    requires { laying.old.word < 2 ^ 127 }
    ensures names { OnOk result ((rest : List SpecParam) → names_of laying.new.names.items ++
        place_names (param_places (plain (placed values.now)) laying.new.word rest) ≡
        names_of laying.old.names.items ++ place_names
        (param_places (plain (placed values.now)) laying.old.word
        (plain_param (placed_param param.now) ∷ rest))) }
    ensures spots { OnOk result ((rest : List SpecParam) → laying.new.spots.items ++
        told_all in_area.Frame (param_places (plain (placed values.now)) laying.new.word rest) ≡
        laying.old.spots.items ++ told_all in_area.Frame
        (param_places (plain (placed values.now)) laying.old.word
        (plain_param (placed_param param.now) ∷ rest))) }
    ensures word { OnOk result (laying.new.word ≡ laying.old.word + 1) }
{
    let spot = VarLocation {
        area: Area::Frame,
        word: fit_word(laying.word),
        shape: VarShape::Single,
        range: range_of(values, &param.kind),
    };
    lay(laying, &param.name, spot, 1)?;
    Ok(())
}

/// Lays the parameters of a routine.
pub fn lay_params<'a>(
    values: &ConstantValues<'_>,
    laying: &mut VarLayout<'a>,
    params: &'a [Param],
) -> Result<(), OutOfMemory>
    requires { laying.old.word ≤ 2 ^ 98 }
    ensures names { OnOk result (names_of laying.new.names.items ≡
        names_of laying.old.names.items ++ place_names
        (param_places (plain (placed values.now)) laying.old.word
        (map plain_param (map placed_param params.now)))) }
    ensures spots { OnOk result (laying.new.spots.items ≡ laying.old.spots.items ++
        told_all in_area.Frame (param_places (plain (placed values.now)) laying.old.word
        (map plain_param (map placed_param params.now)))) }
    ensures word { OnOk result (laying.new.word ≡ laying.old.word + length params.now) }
    ensures small { OnOk result (laying.new.word ≤ laying.old.word + 2 ^ 64) }
{
    for param in params {
        lay_param(values, laying, param)?;
    }
    Ok(())
}
