ghost use Rattle.std.specs.Prelude.{All, List, ℕ};
ghost use Rattle.abc_text_lines.specs.Answers.{IsAssemblyOf};
ghost use Rattle.abc_file_types.specs.declared.tables.Abc.{Abc};
ghost use Rattle.abc_file_types.specs.Bodies.{IsReadyBody};

/// Where a text is one of a file, some bytes spell the code of each of the file's bodies, and its exceptions name places
/// in it.
pub fn texts_have_ready_bodies()
    ensures { (text : List ℕ) → (v : Abc) → IsAssemblyOf text v → All IsReadyBody v.bodies }
{}
