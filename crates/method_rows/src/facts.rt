//! What is declared of a method.

ghost use Rattle.std.specs.Prelude.{◌≡◌, List, length, slice_get, option_map, unwrap_or};
ghost use Rattle.scj_tree.specs.declared.nodes.Node.{Node as Row};
ghost use Rattle.scj_rules.specs.Views.{method_at, parameters_at};
ghost use Rattle.scj_rules.specs.declared.views.Declared.{Declared as Declaration};
ghost use Rattle.method_rows.specs.Methods.{found_method, no_method};

use crate::framework::{count, made, nothing, parameter_of, result_written};
use crate::refs::{MethodRef, MethodSource};
use node_views as views;
use scj_base::{MethodId, Name, NodeId};
use scj_builtins::framework_method as framework_row;
use scj_rules::{Declared, WrittenType};
use scj_tree::Program;

/// What is declared of the method; its type is the result's.
#[tactic(auto, unfolding(crate::specs::Methods::found_method, crate::specs::Methods::method_from, crate::specs::Methods::framework_numbered, scj_rules::specs::Classes::framework_method), using(crate::proofs::MethodLemmas::part_of_some, crate::proofs::MethodLemmas::none_of_none))]
pub fn declared(program: &Program, method: &MethodRef) -> Declared
    ensures { result ≡ (found_method program.now.nodes method.now).method.declared }
{
    match &method.source {
        MethodSource::Framework(id) => match &framework_row(*id) {
            Some(row) => made(
                row.name,
                row.is_static,
                row.is_abstract,
                result_written(row.gives),
            ),
            None => nothing(),
        },
        MethodSource::Declared(node) => match views::method_declared(program, *node) {
            Some(declared) => declared,
            None => nothing(),
        },
    }
}

/// Its name alone.
#[tactic(auto, unfolding(crate::specs::Methods::found_method, crate::specs::Methods::method_from, crate::specs::Methods::framework_numbered, scj_rules::specs::Classes::framework_method), using(crate::proofs::MethodLemmas::name_of))]
pub fn name(program: &Program, method: &MethodRef) -> Name
    ensures { result ≡ (found_method program.now.nodes method.now).method.declared.name }
{
    match &method.source {
        MethodSource::Framework(id) => match &framework_row(*id) {
            Some(row) => row.name,
            None => Name::new(b""),
        },
        MethodSource::Declared(node) => {
            views::method_name(program, *node).unwrap_or(Name::new(b""))
        }
    }
}

/// Its result's type alone.
#[tactic(auto, unfolding(crate::specs::Methods::found_method, crate::specs::Methods::method_from, crate::specs::Methods::framework_numbered, scj_rules::specs::Classes::framework_method), using(crate::proofs::MethodLemmas::type_of))]
pub fn result_type(program: &Program, method: &MethodRef) -> WrittenType
    ensures { result ≡ (found_method program.now.nodes method.now).method.declared.declared_type }
{
    match &method.source {
        MethodSource::Framework(id) => match &framework_row(*id) {
            Some(row) => result_written(row.gives),
            None => WrittenType::Void,
        },
        MethodSource::Declared(node) => {
            views::result_type(program, *node).unwrap_or(WrittenType::Void)
        }
    }
}

/// Whether it is called on the class.
#[tactic(auto, unfolding(crate::specs::Methods::found_method, crate::specs::Methods::method_from, crate::specs::Methods::framework_numbered, scj_rules::specs::Classes::framework_method), using(crate::proofs::MethodLemmas::is_static_where_declared))]
pub fn is_static(program: &Program, method: &MethodRef) -> bool
    ensures { result ≡ (found_method program.now.nodes method.now).method.declared.modifiers.is_static }
{
    match &method.source {
        MethodSource::Framework(id) => match &framework_row(*id) {
            Some(row) => row.is_static,
            None => false,
        },
        MethodSource::Declared(node) => views::is_static_method(program, *node),
    }
}

/// The node that declares it; of a framework's method the first number.
#[tactic(auto, unfolding(crate::specs::Methods::found_method, crate::specs::Methods::method_from, crate::specs::Methods::framework_numbered, scj_rules::specs::Classes::framework_method), using(crate::proofs::MethodLemmas::node_where_declared, crate::proofs::MethodLemmas::no_node))]
pub fn node(program: &Program, method: &MethodRef) -> NodeId
    ensures { result ≡ (found_method program.now.nodes method.now).method.declared.node }
{
    match &method.source {
        MethodSource::Framework(_) => NodeId::at(0),
        MethodSource::Declared(node) => {
            if views::is_method(program, *node) {
                *node
            } else {
                NodeId::at(0)
            }
        }
    }
}

/// The number of a framework's method.
#[tactic(auto, unfolding(crate::specs::Methods::found_method, crate::specs::Methods::method_from, crate::specs::Methods::framework_numbered, scj_rules::specs::Classes::framework_method), using(crate::proofs::MethodLemmas::no_number))]
pub fn builtin(method: &MethodRef) -> Option<MethodId>
    ensures { (nodes : List Row) → result ≡ (found_method nodes method.now).method.builtin }
{
    match &method.source {
        MethodSource::Framework(id) => match &framework_row(*id) {
            Some(row) => Some(row.number),
            None => None,
        },
        MethodSource::Declared(_) => None,
    }
}

/// Whether a program may call it: what a program declares, and what the framework lets it call.
#[tactic(auto, unfolding(crate::specs::Methods::found_method, crate::specs::Methods::method_from, crate::specs::Methods::framework_numbered, scj_rules::specs::Classes::framework_method), using(crate::proofs::MethodLemmas::is_callable_where_declared))]
pub fn is_callable_row(program: &Program, method: &MethodRef) -> bool
    ensures { result ≡ (found_method program.now.nodes method.now).method.callable }
{
    match &method.source {
        MethodSource::Framework(id) => match &framework_row(*id) {
            Some(row) => row.callable,
            None => false,
        },
        MethodSource::Declared(node) => views::is_method(program, *node),
    }
}

/// Whether a class below may declare it anew.
#[tactic(auto, unfolding(crate::specs::Methods::found_method, crate::specs::Methods::method_from, crate::specs::Methods::framework_numbered, scj_rules::specs::Classes::framework_method), using(crate::proofs::MethodLemmas::is_open_where_declared))]
pub fn is_overridable(program: &Program, method: &MethodRef) -> bool
    ensures { result ≡ (found_method program.now.nodes method.now).method.overridable }
{
    match &method.source {
        MethodSource::Framework(id) => match &framework_row(*id) {
            Some(row) => row.overridable,
            None => false,
        },
        MethodSource::Declared(node) => views::is_method(program, *node),
    }
}

/// The node of the body, if there is one.
#[tactic(auto, unfolding(crate::specs::Methods::found_method, crate::specs::Methods::method_from, crate::specs::Methods::framework_numbered, scj_rules::specs::Classes::framework_method), using(crate::proofs::MethodLemmas::body_of_source, crate::proofs::MethodLemmas::no_body))]
pub fn body(program: &Program, method: &MethodRef) -> Option<NodeId>
    ensures { result ≡ (found_method program.now.nodes method.now).method.body }
{
    match &method.source {
        MethodSource::Framework(_) => None,
        MethodSource::Declared(node) => views::method_body(program, *node),
    }
}

/// The list of the parameters of a declared method.
#[tactic(auto, using(crate::proofs::MethodLemmas::parameters_of_source))]
fn parameters_of(program: &Program, node: NodeId) -> Option<NodeId>
    ensures { parameters_at program.now.nodes result
        ≡ (unwrap_or (method_at program.now.nodes node) no_method).parameters }
{
    views::method_parameters(program, node)
}

/// How many parameters it has.
#[tactic(auto, unfolding(crate::specs::Methods::found_method, crate::specs::Methods::method_from, crate::specs::Methods::framework_numbered, scj_rules::specs::Classes::framework_method))]
pub fn parameter_count(program: &Program, method: &MethodRef) -> usize
    ensures { result ≡ length (found_method program.now.nodes method.now).method.parameters }
{
    match &method.source {
        MethodSource::Framework(id) => match &framework_row(*id) {
            Some(row) => count(row.parameters),
            None => 0,
        },
        MethodSource::Declared(node) => {
            views::parameter_count(program, parameters_of(program, *node))
        }
    }
}

/// A parameter, if there are as many.
#[tactic(auto, unfolding(crate::specs::Methods::found_method, crate::specs::Methods::method_from, crate::specs::Methods::framework_numbered, scj_rules::specs::Classes::framework_method))]
pub fn parameter(program: &Program, method: &MethodRef, i: usize) -> Option<Declared>
    ensures { result ≡ slice_get (found_method program.now.nodes method.now).method.parameters i }
{
    match &method.source {
        MethodSource::Framework(id) => parameter_of(*id, i),
        MethodSource::Declared(node) => {
            views::parameter(program, parameters_of(program, *node), i)
        }
    }
}

/// The type of a parameter, if there are as many.
#[tactic(auto, unfolding(crate::specs::Methods::found_method, crate::specs::Methods::method_from, crate::specs::Methods::framework_numbered, scj_rules::specs::Classes::framework_method))]
pub fn parameter_type(program: &Program, method: &MethodRef, i: usize) -> Option<WrittenType>
    ensures { result ≡ option_map (λ (d : Declaration). d.declared_type)
        (slice_get (found_method program.now.nodes method.now).method.parameters i) }
{
    match &method.source {
        MethodSource::Framework(id) => match parameter_of(*id, i) {
            Some(declared) => Some(declared.declared_type),
            None => None,
        },
        MethodSource::Declared(node) => {
            views::parameter_type(program, parameters_of(program, *node), i)
        }
    }
}
