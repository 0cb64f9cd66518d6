ghost use Rattle.std.specs.Prelude.{◌≡◌};
ghost use Rattle.abc_objects.specs.Results.{is_hit, or_next, passes_over, skip_for};

use crate::traits::Member;
use abc_heap_values::{ObjId, Value};
use abc_link_names::Owner;

/// What a search is for: a read, a call or a delete passes over setters, a write over getters.
#[derive(Clone, Copy, Debug, PartialEq, Eq)]
pub enum Want {
    Read,
    Write,
}

/// Which declared traits a search passes over.
#[derive(Clone, Copy, Debug, PartialEq, Eq)]
pub enum Skip {
    Setters,
    Getters,
    Nothing,
}

/// What a name finds on a value.
#[derive(Clone, Copy, Debug, PartialEq, Eq)]
pub enum Found {
    /// A slot of the object, by its place in the layout.
    Slot { slot: u32, constant: bool },
    /// A method, and whose it is.
    Method { class: Owner, method: u32 },
    Getter(u32),
    Setter(u32),
    /// A dynamic property of the object or of one of its delegates.
    Property { holder: ObjId, value: Value },
    /// An element of an array, which is the object or one of its delegates.
    Element { holder: ObjId, index: u32 },
    /// The length of an array.
    Length(ObjId),
    /// Nothing but traits that were passed over.
    WrongSide,
    Missing,
}

/// Where a name is found among scopes.
#[derive(Clone, Copy, Debug, PartialEq, Eq)]
pub enum ScopeFound {
    Object(ObjId),
    /// On the global object of a script that has to be started first.
    Start(u32),
    Missing,
}

impl Want {
    /// What a search for this passes over.
    pub fn skip(self) -> Skip
        ensures { result ≡ skip_for self }
    {
        match self {
            Want::Read => Skip::Setters,
            Want::Write => Skip::Getters,
        }
    }
}

impl Skip {
    /// Whether a search passes over a declared trait.
    pub fn passes_over(self, member: Member) -> bool
        ensures { result ≡ passes_over self member }
    {
        matches!(
            (self, member),
            (Skip::Setters, Member::Setter(_)) | (Skip::Getters, Member::Getter(_))
        )
    }
}

impl Found {
    /// Whether something is found.
    pub fn is_hit(self) -> bool
        ensures { result ≡ is_hit self }
    {
        !matches!(self, Found::WrongSide | Found::Missing)
    }

    /// What two searches find, one after the other.
    pub fn or(self, next: Found) -> Found
        ensures { result ≡ or_next self next }
    {
        match (self, next) {
            (Found::Missing, next) => next,
            (Found::WrongSide, Found::Missing) => Found::WrongSide,
            (Found::WrongSide, next) => next,
            (hit, _) => hit,
        }
    }
}
