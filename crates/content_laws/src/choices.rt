//! What ranges over members: a `forall`, and the parameters of transitions.

ghost use Rattle.content_laws.specs.Choices.{LawForall, LawMember, LawNoMember};

/// A condition for all members of an object type, or of the value of a set variable, is true exactly where it is true for
/// each of them.
pub fn forall_is_each()
    ensures { LawForall }
{}

/// A transition is enabled only where each parameter that ranges over a set variable has a member of its value, and where
/// one has not, it is not enabled, whatever its preconditions are.
pub fn parameter_is_member()
    ensures enabled { LawMember }
    ensures disabled { LawNoMember }
{}
