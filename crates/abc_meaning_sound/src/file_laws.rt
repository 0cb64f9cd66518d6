ghost use Rattle.abc_meaning_sound.specs.FileLaws.{FilesGive, ScopesHaveLayouts};

/// Methods have bodies, owners and types, instructions their operands, and slots values to start with.
pub fn files_give()
    ensures { FilesGive }
{}

/// Activations and catch objects have layouts, and each class a base that is known.
pub fn scopes_have_layouts()
    ensures { ScopesHaveLayouts }
{}
