//! Methods as rows that are copied.

use scj_base::{ClassId, MethodId, NodeId};

/// Where a method is declared.
#[derive(Clone, Copy, Debug)]
pub enum MethodSource {
    /// In the framework, as the method of this number.
    Framework(MethodId),
    /// At this node of the program.
    Declared(NodeId),
}

/// A method that is found for a class.
#[derive(Clone, Copy, Debug)]
pub struct MethodRef {
    /// The class or interface that declares it.
    pub on: ClassId,
    /// Where it is declared.
    pub source: MethodSource,
}
