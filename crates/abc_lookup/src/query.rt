ghost use Rattle.std.specs.Prelude.{◌≡◌};
ghost use Rattle.std.specs.Str.{bytes_eq};
ghost use Rattle.abc_heap_store.specs.Texts.{IsText, text_of};
ghost use Rattle.abc_base_graphs.specs.Index.{first};
ghost use Rattle.abc_base_graphs.specs.Texts.{texts_of};
ghost use Rattle.abc_objects.specs.Spaces.{name_holds_public};

use abc_link::Linked;
use abc_objects::{Arena, Name, Skip};

/// A search for a name, of which is known what does not change from place to place.
#[derive(Clone, Copy)]
pub(crate) struct Query<'a> {
    pub l: &'a Linked,
    pub a: &'a Arena,
    pub name: Name,
    pub skip: Skip,
    /// The text of the name.
    pub text: &'a [u8],
    /// The number of that text, if it is the empty one or a string of the file.
    pub number: Option<u32>,
    /// Whether the name holds the public namespace or any.
    pub public: bool,
    ghost named: { IsText l.now.file.strings a.now name.text },
    ghost texted: { text.now ≡ text_of l.now.file.strings a.now name.text },
    ghost told: { first (bytes_eq text.now) (texts_of l.now.file.strings) ≡ number },
    ghost held: { name_holds_public l.now name.spaces ≡ public },
}
