//! What a name is declared as.

ghost use Rattle.std.specs.Prelude.{◌≡◌};
ghost use Rattle.algol_sorts.specs.Sorts.{by_value, sort_is_by_name, sort_is_simple};

use algol_tree::Kind;

/// What a name is declared as.
#[derive(Clone, Copy)]
pub enum Sort {
    /// A simple variable, or a simple parameter by value.
    Variable(Kind),
    /// A simple parameter by name.
    ByName(Kind),
    /// An array: the kind of its elements, and how many subscripts it has.
    Array(Kind, usize),
    /// A parameter that stands for such an array.
    FormalArray(Kind, usize),
    Event,
    Task,
    /// A parameter that stands for an event or a task.
    FormalEvent,
    Label,
    File,
    /// A procedure, and the type of its result, where it has one.
    Procedure(Option<Kind>),
    /// A parameter that no specification names.
    Unspecified,
}

impl Sort {
    /// Whether it is a simple variable or a simple parameter.
    pub fn is_simple(self) -> bool
        ensures { result ≡ sort_is_simple self }
    {
        match self {
            Sort::Variable(_) => true,
            Sort::ByName(_) => true,
            _ => false,
        }
    }

    /// Whether it is a simple parameter by name.
    pub fn is_by_name(self) -> bool
        ensures { result ≡ sort_is_by_name self }
    {
        match self {
            Sort::ByName(_) => true,
            _ => false,
        }
    }

    /// The same of a parameter that VALUE names.
    pub fn by_value(self) -> Sort
        ensures { result ≡ by_value self }
    {
        match self {
            Sort::ByName(kind) => Sort::Variable(kind),
            _ => self,
        }
    }
}
