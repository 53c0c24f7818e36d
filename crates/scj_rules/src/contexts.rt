//! Where a node stands.

use scj_base::{ClassId, NodeId};

/// Where a node stands in its program.
#[derive(Clone, Copy, Debug)]
pub struct Context {
    /// The class.
    pub class: Option<ClassId>,
    /// The field, method or constructor.
    pub member: Option<NodeId>,
    /// The last variable that is known at the node (JLS 6.3). The one before it is the last that is known there.
    pub last: Option<NodeId>,
    /// Whether it stands in the arguments of a super call.
    pub in_super_call: bool,
    /// Whether it stands directly before a dot.
    pub before_dot: bool,
}
