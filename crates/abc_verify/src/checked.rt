use abc_link::Linked;
use std::marker::Model;

/// A linked file whose methods all have typings, which only [`verify`](crate::verify) makes.
#[derive(Drop)]
pub struct Verified {
    linked: Linked,
}

impl Model for Verified {
    ghost use Rattle.abc_link_names.specs.Linked.{LinkedFile};
    ghost use Rattle.abc_verify.specs.Typed.{IsVerified};

    ghost Value = { LinkedFile };

    ghost view = { λ v. v.linked };

    ghost invariant = { λ v. IsVerified v.linked };
}

impl Verified {
    ghost use Rattle.std.specs.Prelude.{◌≡◌};
    ghost use Rattle.abc_verify.specs.Typed.{IsVerified};

    /// A linked file of which it is known that its methods have typings.
    pub(crate) fn of(linked: Linked) -> Verified
        requires { IsVerified linked }
        ensures { result ≡ linked }
    {
        Verified { linked }
    }

    /// The linked file.
    pub fn linked(&self) -> &Linked
        ensures { result.now ≡ self.now }
    {
        &self.linked
    }

    /// What every verified file keeps: each method that has a body has a typing.
    pub fn verified_law(&self)
        ensures { IsVerified self.now }
    {
        let _linked = &self.linked;
    }
}
