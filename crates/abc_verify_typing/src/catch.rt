use abc_link_names::{Kind, LayoutId};

/// Where a throw between two places goes on.
#[derive(Clone, Copy, Debug, PartialEq, Eq)]
pub struct Catch {
    /// The first place that the handler covers.
    pub from: u32,
    /// The first place after those that it covers.
    pub to: u32,
    pub target: u32,
    /// What is known of the value that is caught.
    pub kind: Kind,
    /// The layout of the catch object.
    pub layout: LayoutId,
}
