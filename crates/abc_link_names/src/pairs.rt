ghost use Rattle.std.specs.Prelude.{◌≡◌};
ghost use Rattle.std.specs.List.{list_any};
ghost use Rattle.abc_link_names.specs.ItemTypes.{any_pair};

/// Of so many values each pair may be looked at: that takes less time than to put them into a table.
pub const FEW: usize = 16;

/// When two values of a list clash.
pub trait Clash {
    ghost use Rattle.std.specs.Prelude.{◌≡◌, Bool};

    /// What may clash.
    type Value;

    ghost clash: { Self → Self.Value → Self.Value → Bool };

    /// Whether a value clashes with a later one.
    fn do_clash(&self, first: &Self::Value, later: &Self::Value) -> bool
        ensures { result ≡ clash self.now first.now later.now };
}

/// Whether a value clashes with one of some later ones.
fn clashes_in<C: Clash>(clash: &C, first: &C::Value, others: &[C::Value]) -> bool
    ensures { result ≡ list_any (C.clash clash.now first.now) others.now }
{
    for other in others {
        if clash.do_clash(first, other) {
            return true;
        }
    }
    false
}

/// Whether two values of a list clash. Each pair is looked at.
pub fn any_pair_of<C: Clash>(clash: &C, items: &[C::Value]) -> bool
    ensures { result ≡ any_pair (C.clash clash.now) items.now }
{
    let mut left = items;
    while let Some(parts) = left.split_first() {
        if clashes_in(clash, parts.0, parts.1) {
            return true;
        }
        left = parts.1;
    }
    false
}
