//! What the mission sequencer asks of a program holds of each accepted one: of the classes of the safelet, of
//! sequencers, missions and handlers, of their scopes, and of static fields.
#![tactic(auto)]

pub mod sequencer;
