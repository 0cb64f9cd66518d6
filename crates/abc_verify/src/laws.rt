ghost use Rattle.std.specs.Prelude.{◌≡◌};
ghost use Rattle.abc_link_names.specs.Linked.{LinkedFile};
ghost use Rattle.abc_file_types.specs.declared.tables.Abc.{Abc};
ghost use Rattle.abc_verify.specs.Verified.{IsVerifiedOf};

/// A file has at most one linked file that is verified.
pub fn one_linked_file()
    ensures { (v : Abc) → (l m : LinkedFile) → IsVerifiedOf v l → IsVerifiedOf v m → l ≡ m }
{}
