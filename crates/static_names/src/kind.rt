//! What names are declared and used as.

ghost use Rattle.std.specs.Prelude.{◌≡◌};
ghost use Rattle.static_names.specs.Reach.{suits as suits_by};

use syntax_tree::Place;

/// What a name is declared as. Parameters are variables.
#[derive(Clone, Copy)]
pub enum Kind {
    Program,
    Constant,
    Device,
    Event,
    Routine,
    Entry,
    Monitor,
    Process,
    Variable,
    LoopVariable,
    Condition,
}

/// What a name is used as. `Value` is a name in an expression, `Target` one that is assigned to.
#[derive(Clone, Copy)]
pub enum NameUse {
    Constant,
    Value,
    Target,
    Routine,
    Entry,
    Device,
    Event,
    Monitor,
    Condition,
}

/// Where and as what a name is declared. The place is that of the name.
#[derive(Clone, Copy)]
pub struct Declared {
    pub place: Place,
    pub kind: Kind,
}

/// Whether a name that is declared so may be used so.
pub fn suits(want: NameUse, kind: Kind) -> bool
    ensures { result ≡ suits_by want kind }
{
    match want {
        NameUse::Constant => matches!(kind, Kind::Constant),
        NameUse::Value => matches!(kind, Kind::Constant | Kind::Variable | Kind::LoopVariable),
        NameUse::Target => matches!(kind, Kind::Variable),
        NameUse::Routine => matches!(kind, Kind::Routine | Kind::Entry),
        NameUse::Entry => matches!(kind, Kind::Entry),
        NameUse::Device => matches!(kind, Kind::Device),
        NameUse::Event => matches!(kind, Kind::Event),
        NameUse::Monitor => matches!(kind, Kind::Monitor),
        NameUse::Condition => matches!(kind, Kind::Condition),
    }
}
