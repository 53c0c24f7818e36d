//! The numbers that the framework's calls take: priorities and ports.

ghost use Rattle.std.specs.Prelude.{◌≡◌};
ghost use Rattle.scj_model.specs.Operations.{is_port, is_priority};

/// Whether a number is a priority (JSR 302: PriorityParameters).
#[tactic(auto, using(crate::proofs::NumberLemmas::priority_is))]
pub fn is_priority(number: i32) -> bool
    ensures { result ≡ is_priority number }
{
    1 <= number && number <= 28
}

/// Whether a number is a port of the device.
#[tactic(auto, using(crate::proofs::NumberLemmas::port_is))]
pub fn is_port(number: i32) -> bool
    ensures { result ≡ is_port number }
{
    0 <= number && number < 256
}
