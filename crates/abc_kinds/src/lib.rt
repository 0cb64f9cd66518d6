//! The order of kinds over the layouts of a linked file, and the least kind above two.
#![tactic(auto)]

ghost use Rattle.std.specs.Prelude.{◌≡◌, ◌<◌, ◌↔◌, IsTrue};
ghost use Rattle.abc_link_names.specs.Kinds.{IsAtMost, IsJoin};
ghost use Rattle.abc_link_names.specs.Linked.{IsLinkedFile};
ghost use Rattle.abc_link_names.specs.Tree.{IsBelow, IsCommon};
ghost use Rattle.abc_link_names.specs.Types.{kind_of_type as kind_of};
ghost use Rattle.abc_kinds.specs.Steps.{ClimbsTo, NearsTo};

use abc_base::HostClass;
pub use abc_link_names::{Kind, LayoutId, Part, Ty};

/// What tells which layout each layout stands under.
pub trait Tree {
    ghost use Rattle.std.specs.Prelude.{◌≡◌};
    ghost use Rattle.abc_link_names.specs.Linked.{IsLinkedFile, LinkedFile, above, layout_of};
    ghost use Rattle.abc_link_names.specs.Tree.{IsBelow};

    ghost file: { Self → LinkedFile };

    /// The layouts are those of a linked file: so a layout stands under one with a lower number. This does nothing.
    fn linked_law(&self)
        ensures { IsLinkedFile (file self.now) };

    /// The layout that a layout stands under. Object's is above itself, and above what is no layout.
    fn above(&self, layout: LayoutId) -> LayoutId
        ensures { result.0 ≡ above (file self.now) layout.0 };

    /// A layout that a layout is or stands under: one far above, where such a one is known.
    fn far_above(&self, layout: LayoutId) -> LayoutId
        ensures { IsBelow (file self.now) layout.0 result.0 };

    /// The layout of a part; of a part without one, that of Object's instances.
    fn layout_of(&self, part: Part) -> LayoutId
        ensures { result ≡ layout_of (file self.now) part };
}

/// The next layout on the way up to another, or to where that would be.
#[tactic(auto, using(crate::proofs::Climbing::climbs_far))]
fn climbed<T: Tree>(tree: &T, at: LayoutId, other: LayoutId) -> LayoutId
    requires linked { IsLinkedFile (T.file tree.now) }
    requires higher { other.0 < at.0 }
    ensures { ClimbsTo (T.file tree.now) at.0 other.0 result.0 }
{
    let far = tree.far_above(at);
    if other.0 <= far.0 && far.0 < at.0 {
        return far;
    }
    tree.above(at)
}

/// Whether a layout is another or stands under it.
#[tactic(auto, using(crate::proofs::Climbing::climb_on, crate::proofs::Climbing::reached))]
pub fn is_below<T: Tree>(tree: &T, layout: LayoutId, other: LayoutId) -> bool
    ensures { IsTrue result ↔ IsBelow (T.file tree.now) layout.0 other.0 }
{
    tree.linked_law();
    let mut at = layout;
    while at.0 > other.0 {
        at = climbed(tree, at, other);
    }
    at.0 == other.0
}

/// The next layout on the way up to one that another stands under.
#[tactic(auto, using(crate::proofs::Climbing::nears_far))]
fn nearer<T: Tree>(tree: &T, at: LayoutId, other: LayoutId) -> LayoutId
    requires linked { IsLinkedFile (T.file tree.now) }
    requires apart { IsBelow (T.file tree.now) other.0 at.0 → ⊥ }
    ensures { NearsTo (T.file tree.now) at.0 other.0 result.0 }
{
    let far = tree.far_above(at);
    if far.0 < at.0 && !is_below(tree, other, far) {
        return far;
    }
    tree.above(at)
}

/// The lowest layout that is above both.
#[tactic(auto, using(crate::proofs::Climbing::meeting_starts, crate::proofs::Climbing::meet))]
pub fn common<T: Tree>(tree: &T, a: LayoutId, b: LayoutId) -> LayoutId
    ensures { IsCommon (T.file tree.now) a.0 b.0 result.0 }
{
    tree.linked_law();
    let mut at = a;
    while !is_below(tree, b, at) {
        at = nearer(tree, at, b);
    }
    at
}

/// Whether a kind is another or below it.
pub fn at_most<T: Tree>(tree: &T, a: Kind, b: Kind) -> bool
    ensures { IsTrue result ↔ IsAtMost (T.file tree.now) a b }
{
    match (a, b) {
        (_, Kind::Any) => true,
        (Kind::Undef, Kind::Undef) => true,
        (Kind::Null, Kind::Null | Kind::Text | Kind::Space | Kind::Obj(_)) => true,
        (Kind::Num, Kind::Num) => true,
        (Kind::Bool, Kind::Bool) => true,
        (Kind::Text, Kind::Text) => true,
        (Kind::Space, Kind::Space) => true,
        (Kind::Obj(l), Kind::Obj(m)) => is_below(tree, l, m),
        _ => false,
    }
}

/// The least kind above both.
pub fn join<T: Tree>(tree: &T, a: Kind, b: Kind) -> Kind
    ensures { IsJoin (T.file tree.now) a b result }
{
    match (a, b) {
        (Kind::Obj(l), Kind::Obj(m)) => Kind::Obj(common(tree, l, m)),
        (Kind::Null, Kind::Text | Kind::Space | Kind::Obj(_)) => b,
        (Kind::Text | Kind::Space | Kind::Obj(_), Kind::Null) => a,
        _ => { if a == b { a } else { Kind::Any } }
    }
}

/// The kind of the values of a type.
pub fn kind_of_type<T: Tree>(tree: &T, ty: Ty) -> Kind
    ensures { result ≡ kind_of (T.file tree.now) ty }
{
    match ty {
        Ty::Any | Ty::Object => Kind::Any,
        Ty::Void => Kind::Undef,
        Ty::Int | Ty::UInt | Ty::Number => Kind::Num,
        Ty::Boolean => Kind::Bool,
        Ty::Text => Kind::Text,
        Ty::Space => Kind::Space,
        Ty::Of(layout) => Kind::Obj(layout),
        Ty::Interface(_) => Kind::Obj(tree.layout_of(Part::Host(HostClass::Object))),
    }
}
