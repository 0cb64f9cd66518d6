ghost use Rattle.std.specs.Prelude.{◌≡◌, MatchOption};
ghost use Rattle.abc_link_names.specs.Pool.{name, no_name, text, set, space, shared_code as code_of, plain_name, definite_name, is_qname_or_multiname, qname};

use crate::named::{DefiniteName, PlainName, Spaces};
use abc_file_types::{Abc, Multiname, Namespace, NsKind};

/// A string of the pool, by its index; 0 is the empty text.
#[tactic(auto, using(abc_base::proofs::Past::past_end))]
pub fn text_at(abc: &Abc, index: u32) -> &[u8]
    ensures { result.now ≡ text abc.now index }
{
    if index == 0 {
        return b"";
    }
    match abc.strings.find(index as usize - 1) {
        Some(bytes) => bytes.as_slice(),
        None => b"",
    }
}

/// A namespace of the pool, by its index; 0 is none.
#[tactic(auto, using(abc_base::proofs::Past::past_end))]
pub(crate) fn space_at(abc: &Abc, index: u32) -> Namespace
    ensures { result ≡ space abc.now index }
{
    let none = Namespace {
        kind: NsKind::Private,
        name: 0,
    };
    if index == 0 {
        return none;
    }
    match abc.namespaces.fetch(index as usize - 1) {
        Some(space) => space,
        None => none,
    }
}

/// A set of namespaces of the pool, by its index; 0 is none.
#[tactic(auto, using(abc_base::proofs::Past::past_end))]
pub fn set_at(abc: &Abc, index: u32) -> &[u32]
    ensures { result.now ≡ set abc.now index }
{
    if index == 0 {
        return &[];
    }
    match abc.sets.find(index as usize - 1) {
        Some(set) => set.as_slice(),
        None => &[],
    }
}

/// The code of a kind of namespace, where 16 counts as 08.
pub(crate) fn shared_code(kind: NsKind) -> u8
    ensures { result ≡ code_of kind }
{
    match kind {
        NsKind::Private => 0x05,
        NsKind::Namespace | NsKind::Package => 0x08,
        NsKind::PackageInternal => 0x17,
        NsKind::Protected => 0x18,
        NsKind::Explicit => 0x19,
        NsKind::StaticProtected => 0x1a,
    }
}

/// The text and the namespaces of a QName or a Multiname that has a name.
fn plain_name_of(multiname: &Multiname) -> Option<PlainName>
    ensures { result ≡ plain_name multiname.now }
{
    match multiname {
        Multiname::QName {
            attr: false,
            ns: 0,
            name,
        } if *name > 0 => Some(PlainName {
            string: *name,
            spaces: Spaces::Every,
        }),
        Multiname::QName {
            attr: false,
            ns,
            name,
        } if *name > 0 => Some(PlainName {
            string: *name,
            spaces: Spaces::One(*ns),
        }),
        Multiname::Multi {
            attr: false,
            name,
            set,
        } if *name > 0 => Some(PlainName {
            string: *name,
            spaces: Spaces::Set(*set),
        }),
        _ => None,
    }
}

/// The namespace and the text of a QName that has both.
fn definite_name_of(multiname: &Multiname) -> Option<DefiniteName>
    ensures { result ≡ definite_name multiname.now }
{
    match multiname {
        Multiname::QName {
            attr: false,
            ns,
            name,
        } if *ns > 0 && *name > 0 => Some(DefiniteName {
            ns: *ns,
            string: *name,
        }),
        _ => None,
    }
}

/// The namespace and the text of a QName; those of another name are 0.
fn qname_of(multiname: &Multiname) -> DefiniteName
    ensures { result ≡ qname multiname.now }
{
    match multiname {
        Multiname::QName { ns, name, .. } => DefiniteName {
            ns: *ns,
            string: *name,
        },
        _ => DefiniteName { ns: 0, string: 0 },
    }
}

/// Whether a name is a QName or a Multiname.
fn is_plain_name(multiname: &Multiname) -> bool
    ensures { result ≡ is_qname_or_multiname multiname.now }
{
    match multiname {
        Multiname::QName { attr, .. } | Multiname::Multi { attr, .. } => !*attr,
        _ => false,
    }
}

/// A name of the pool, by its index, if there is one; 0 is none.
#[tactic(auto, using(abc_base::proofs::Past::past_end))]
fn name_at(abc: &Abc, index: u32) -> Option<&Multiname>
    ensures { MatchOption result (name abc.now index ≡ no_name) (λ n. name abc.now index ≡ n.now) }
{
    if index == 0 {
        return None;
    }
    match abc.names.find(index as usize - 1) {
        Some(multiname) => Some(multiname),
        None => None,
    }
}

/// The text and the namespaces of a name of the pool, where it is a QName or a Multiname that has a name.
pub fn plain_name_at(abc: &Abc, index: u32) -> Option<PlainName>
    ensures { result ≡ plain_name (name abc.now index) }
{
    match name_at(abc, index) {
        Some(multiname) => plain_name_of(multiname),
        None => None,
    }
}

/// The namespace and the text of a name of the pool, where it is a QName that has both.
pub fn definite_name_at(abc: &Abc, index: u32) -> Option<DefiniteName>
    ensures { result ≡ definite_name (name abc.now index) }
{
    match name_at(abc, index) {
        Some(multiname) => definite_name_of(multiname),
        None => None,
    }
}

/// Whether a name of the pool is a QName or a Multiname; 0 is none.
pub fn is_plain_at(abc: &Abc, index: u32) -> bool
    ensures { result ≡ is_qname_or_multiname (name abc.now index) }
{
    match name_at(abc, index) {
        Some(multiname) => is_plain_name(multiname),
        None => false,
    }
}

/// The namespace and the text of a QName of the pool, as those of a trait; those of another name are 0.
pub fn qname_at(abc: &Abc, index: u32) -> DefiniteName
    ensures { result ≡ qname (name abc.now index) }
{
    match name_at(abc, index) {
        Some(multiname) => qname_of(multiname),
        None => DefiniteName { ns: 0, string: 0 },
    }
}

/// The name of a namespace of the pool: a string, where 0 is the empty text.
pub fn space_name(abc: &Abc, index: u32) -> u32
    ensures { result ≡ (space abc.now index).name }
{
    space_at(abc, index).name
}
