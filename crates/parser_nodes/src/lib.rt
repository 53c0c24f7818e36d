//! What the steps of the parser share: the nodes that grow, the stack, and the lexemes as they are seen.
#![tactic(auto)]

pub mod growing_nodes;
pub mod items;
pub mod kinds;
pub mod read_members;
pub mod stacks;
pub mod views;
