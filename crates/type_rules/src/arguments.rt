//! Arguments and the parameters that take them.

ghost use Rattle.std.specs.Prelude.{◌≡◌, length, is_some};
ghost use Rattle.std.specs.List.{list_all};
ghost use Rattle.scj_rules.specs.Contexts.{declarations_of};
ghost use Rattle.scj_rules.specs.Types.{all_types, constructor_parameters};
ghost use Rattle.scj_rules.specs.TypeRules.{misfit, takes_arguments};
ghost use Rattle.type_rules.specs.Parameters.{taken, parameter_type, takes_value, fits, all_fit};
ghost use Rattle.program_facts.specs.Reported.{declared, types};

use crate::names::{assigns, type_written};
use method_rows::MethodRef;
use program_facts::{At, ProgramFacts};
use scj_base::{ClassId, NodeId};
use scj_rules::{Ty, WrittenType};

/// Parameters.
#[derive(Clone, Copy)]
pub enum Takes {
    /// Those of a method.
    Method(MethodRef),
    /// Those of a list, if there is one.
    Listed(Option<NodeId>),
}

/// The same, node by node.
fn have_types(at: &At<'_>, ids: &[NodeId]) -> bool
    ensures { result ≡ list_all (λ id. is_some (types at.now id)) ids.now }
{
    ids.iter().all(|id| at.type_of(*id).is_some())
}

/// Whether each of these nodes has a type.
#[tactic(auto, using(crate::proofs::ArgumentLemmas::typed_each))]
pub fn are_typed(at: &At<'_>, ids: &[NodeId]) -> bool
    ensures { result ≡ is_some (all_types (types at.now) ids.now) }
{
    have_types(at, ids)
}

/// How many parameters there are.
#[tactic(auto, unfolding(crate::specs::Parameters::taken))]
fn count(facts: &ProgramFacts<'_>, takes: &Takes) -> usize
    ensures { result ≡ length (taken facts.now.nodes takes.now) }
{
    match takes {
        Takes::Method(method) => method_rows::parameter_count(facts.program(), method),
        Takes::Listed(parameters) => node_views::parameter_count(facts.program(), *parameters),
    }
}

/// The type of the parameter of a number.
#[tactic(auto, unfolding(crate::specs::Parameters::taken))]
fn parameter_type(facts: &ProgramFacts<'_>, takes: &Takes, i: usize) -> Option<WrittenType>
    ensures { result ≡ parameter_type (taken facts.now.nodes takes.now) i }
{
    match takes {
        Takes::Method(method) => method_rows::parameter_type(facts.program(), method, i),
        Takes::Listed(parameters) => node_views::parameter_type(facts.program(), *parameters, i),
    }
}

/// Whether a value of a type fits a parameter or a result of the type that is written.
fn takes_value(facts: &ProgramFacts<'_>, written: &WrittenType, t: &Ty) -> bool
    ensures { result ≡ takes_value (declarations_of facts.now) t.now written.now }
{
    match type_written(facts, written) {
        Some(u) => assigns(facts, t, &u),
        None => false,
    }
}

/// Whether an argument has a type that fits the parameter of a number, if there is one.
fn fits(at: &At<'_>, takes: &Takes, i: usize, argument: NodeId) -> bool
    ensures { result ≡ fits (declared at.now) (types at.now) (taken at.now.facts.now.nodes takes.now) i argument }
{
    match (at.type_of(argument), parameter_type(at.facts, takes, i)) {
        (Some(t), Some(written)) => takes_value(at.facts, &written, &t),
        _ => false,
    }
}

/// Whether each argument fits the parameter of its number, and there are as many.
#[tactic(auto, using(crate::proofs::ArgumentLemmas::one_misfits, crate::proofs::ArgumentLemmas::one_fits, crate::proofs::ArgumentLemmas::none_left))]
fn all_fit(at: &At<'_>, takes: &Takes, ids: &[NodeId]) -> bool
    ensures { result ≡ all_fit (declared at.now) (types at.now) (taken at.now.facts.now.nodes takes.now) 0 ids.now }
{
    for i in 0..ids.len() {
        if !fits(at, takes, i, ids[i]) {
            return false;
        }
    }
    !(ids.len() < count(at.facts, takes))
}

/// Whether the arguments have types, and their number or types don't fit (JLS 15.9.3, 15.12.2, 8.8.7).
pub fn misfit(at: &At<'_>, takes: &Takes, ids: &[NodeId]) -> bool
    ensures { result ≡ misfit (declared at.now) (types at.now) (taken at.now.facts.now.nodes takes.now) ids.now }
{
    misfit_typed(at, takes, ids, are_typed(at, ids))
}

/// The same, where it is told whether they have types.
#[tactic(auto, using(crate::proofs::ArgumentLemmas::misfit_is))]
pub(crate) fn misfit_typed(at: &At<'_>, takes: &Takes, ids: &[NodeId], typed: bool) -> bool
    requires { typed ≡ is_some (all_types (types at.now) ids.now) }
    ensures { result ≡ misfit (declared at.now) (types at.now) (taken at.now.facts.now.nodes takes.now) ids.now }
{
    typed && !all_fit(at, takes, ids)
}

/// The parameters of a class's constructor: none where none is written (JLS 8.8.9).
#[tactic(auto, using(crate::proofs::ArgumentLemmas::constructor_takes), unfolding(crate::specs::Parameters::taken))]
pub fn constructor_parameters(facts: &ProgramFacts<'_>, class: ClassId) -> Takes
    ensures { taken facts.now.nodes result ≡ constructor_parameters (declarations_of facts.now).classes class }
{
    match facts.classes().constructor_in(class) {
        Some(node) => Takes::Listed(node_views::constructor_parameters(facts.program(), node)),
        None => Takes::Listed(None),
    }
}

/// Whether the constructor of a class takes arguments.
#[tactic(auto, unfolding(scj_rules::specs::Classes::is_empty))]
pub fn takes_arguments(facts: &ProgramFacts<'_>, class: ClassId) -> bool
    ensures { result ≡ takes_arguments (declarations_of facts.now) class }
{
    count(facts, &constructor_parameters(facts, class)) > 0
}
