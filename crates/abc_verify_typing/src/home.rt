use abc_link_names::LayoutId;

/// Where a method stands, as far as super operations ask.
#[derive(Clone, Copy, Debug, PartialEq, Eq)]
pub enum Home {
    /// In no class that has a base, or not on its instances.
    Elsewhere,
    /// A method of the instances of this layout, whose class has a base.
    OnInstances(LayoutId),
    /// What makes the instances of this layout, whose class has a base.
    MakesInstances(LayoutId),
}
