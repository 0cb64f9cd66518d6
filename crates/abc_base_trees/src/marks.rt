ghost use Rattle.std.specs.Prelude.{◌≡◌, get_or, true};

/// The mark at a place; past the end it counts as set.
#[tactic(auto, using(crate::proofs::Efforts::no_mark, crate::proofs::Efforts::a_mark))]
pub(crate) fn has_mark(marks: &[bool], place: usize) -> bool
    ensures { result ≡ get_or marks.now place true }
{
    match marks.get(place) {
        Some(mark) => *mark,
        None => true,
    }
}
