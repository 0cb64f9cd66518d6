ghost use Rattle.abc_meaning.specs.ThrowLaws.{BeginsSound, IsNeverStuck, StaysSound};
ghost use Rattle.abc_meaning_sound.specs.RunLaws.{BasesHaveMakers, SearchesFindWhatIsThere, SomeAreVerified};

/// What is found on an object or in scopes is there, with all that its owner keeps.
pub fn searches_find_what_is_there()
    ensures { SearchesFindWhatIsThere }
{}

/// What makes the instances of a base can be run.
pub fn bases_have_makers()
    ensures { BasesHaveMakers }
{}

/// The state that a run begins with is sound.
pub fn runs_begin_sound()
    ensures { BeginsSound }
{}

/// Every step from a sound state leaves a sound state, or an end that is not Stuck.
pub fn steps_stay_sound()
    ensures { StaysSound }
{}

/// A run of a verified file is never stuck, with any fuel, limits and host.
pub fn verified_files_never_stick()
    ensures { IsNeverStuck }
{}

/// There is a verified file whose run begins: all that is asked can be met together.
pub fn some_files_are_verified()
    ensures { SomeAreVerified }
{}
