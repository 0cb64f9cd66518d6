ghost use Rattle.abc_objects.specs.Laws.{AnswersTheFirst, AsksNoObject, FindsAMethod, FindsASlot, FindsOwnMethods, FindsOwnSlots, FindsTheFirstPlace, FindsTraitsAlone, FindsWhatIsThere, HidesItsBase};

/// A search answers the first of its candidates that fits and is not passed over. Without one it is `WrongSide` where
/// another fits, and else `Missing`.
pub fn answer_is_the_first()
    ensures { AnswersTheFirst }
{}

/// A search in scopes answers the first place that has the name, and `Missing` where none has it.
pub fn place_is_the_first()
    ensures { FindsTheFirstPlace }
{}

/// A name that does not hold the public namespace finds declared traits alone: no element and no property.
pub fn properties_are_public()
    ensures { FindsTraitsAlone }
{}

/// A trait of a layout that fits hides those of its bases.
pub fn derived_trait_hides()
    ensures { HidesItsBase }
{}

/// Which declared traits a name finds depends on the text of the name, and on no object. A write asks for these, and then for
/// an own property: so what a delegate holds doesn't matter to it.
pub fn no_object_matters()
    ensures { AsksNoObject }
{}

/// A property, an element or a length that is found is its holder's.
pub fn found_is_there()
    ensures { FindsWhatIsThere }
{}

/// A slot that is found among declared traits is one of the layout from which the search begins. One that is found on an
/// object is one of the object's layout.
pub fn found_slot_is_there()
    ensures declared { FindsASlot }
    ensures on { FindsOwnSlots }
{}

/// A method, a getter or a setter that is found is named by a trait of the layout from which the search begins, or of one
/// above it; so it is on an object, by the object's layout.
pub fn found_method_is_there()
    ensures declared { FindsAMethod }
    ensures on { FindsOwnMethods }
{}
