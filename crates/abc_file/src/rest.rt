ghost use Rattle.std.specs.Prelude.{◌≡◌, ◌≤◌, Err, IfErr, OnOk, None};
ghost use Rattle.abc_base.specs.Faults.{Rose};
ghost use Rattle.abc_file.specs.Reading.{IsInputEnd, IsTrailing, IsUsedUp};
ghost use Rattle.abc_varint.specs.Reads.{IsInput, WindowKeeps, known_input};
ghost use Rattle.abc_varint.specs.declared.error.ReadError.{ReadError};

use abc_base::Source;
use abc_file_types::Reason;
use abc_varint::{ReadError, Window};

/// Ok where nothing follows what was read; a byte that does is refused by `Trailing`.
#[tactic(auto, using(abc_varint::proofs::Inputs::known_is))]
pub fn read_nothing_more<S: Source>(w: &mut Window, source: &mut S) -> Result<(), ReadError>
    requires { w.old.kept ≡ None }
    ensures ended { OnOk result (IsInputEnd w.old (S.left source.old) w.new (S.left source.new)) }
    ensures trailing { IfErr result (λ e. IsTrailing w.old (S.left source.old) w.new (S.left source.new) e) }
    ensures input { IsInput w.old (S.left source.old) (known_input w.new (S.left source.new)) }
    ensures stands { OnOk result
        ((w.new.kept ≡ None) × (w.new.place ≡ w.old.place) × (w.new.end ≡ w.old.end)) }
    ensures keeps { WindowKeeps w.old w.new result }
    ensures end { OnOk result (IsUsedUp (S.left source.old) (S.left source.new)) }
    ensures later { S.faults source.old ≤ S.faults source.new }
    ensures cause { result ≡ Err ReadError.ReadFault → Rose (S.faults source.old) (S.faults source.new) }
{
    let done = w.is_at_end(source)?;
    if done {
        return Ok(());
    }
    Err(ReadError::Refused {
        place: w.place(),
        reason: Reason::Trailing,
    })
}
