//! Written types that are compared.

ghost use Rattle.std.specs.Prelude.{◌≡◌, [], ◌∷◌, map, IfNone, IfSome};
ghost use Rattle.scj_rules.specs.ClassRules.{is_same_type, have_same_types, class_written};
ghost use Rattle.scj_rules.specs.Contexts.{declarations_of};
ghost use Rattle.scj_rules.specs.declared.views.Declared.{Declared as Declaration};
ghost use Rattle.method_rows.specs.Methods.{found_method};
ghost use Rattle.class_rules.specs.Types.{types_among, types_left};

use class_rows::ClassTable;
use method_rows::{MethodRef, MethodSource, parameter_count, parameter_type};
use node_views::{method_parameters, parameter_nodes, variable_type};
use scj_base::{ClassId, NodeId};
use scj_rules::WrittenType;
use scj_tree::Program;

/// Whether two written types are the same.
#[tactic(auto, unfolding(scj_rules::specs::ClassRules::is_same_type))]
pub fn is_same_type(a: &WrittenType, b: &WrittenType) -> bool
    ensures { result ≡ is_same_type a.now b.now }
{
    match a {
        WrittenType::Int => matches!(b, WrittenType::Int),
        WrittenType::Boolean => matches!(b, WrittenType::Boolean),
        WrittenType::Void => matches!(b, WrittenType::Void),
        WrittenType::Long => matches!(b, WrittenType::Long),
        WrittenType::Text => matches!(b, WrittenType::Text),
        WrittenType::IntArray => matches!(b, WrittenType::IntArray),
        WrittenType::BooleanArray => matches!(b, WrittenType::BooleanArray),
        WrittenType::Class(name) => match b {
            WrittenType::Class(other) => name == other,
            _ => false,
        },
        WrittenType::ClassArray(name) => match b {
            WrittenType::ClassArray(other) => name == other,
            _ => false,
        },
    }
}

/// The class of a written type, where it is a class type.
#[tactic(auto, unfolding(scj_rules::specs::ClassRules::class_written))]
pub fn class_written(classes: &ClassTable<'_>, written: &WrittenType) -> Option<ClassId>
    ensures { result ≡ class_written (declarations_of classes.now).names written.now }
{
    match written {
        WrittenType::Class(name) => classes.class_of(name),
        _ => None,
    }
}

/// The types of parameters that are still to be compared.
#[derive(Clone, Copy)]
pub enum Types<'a> {
    /// Those of the parameters at nodes.
    Nodes(&'a [NodeId]),
    /// Those of a method from the parameter of a number on.
    Parameters(MethodRef, usize),
}

/// The types of the parameters of a method: one of the framework has few, which are looked up by their numbers.
#[tactic(auto, unfolding(crate::specs::Types::types_left, crate::specs::Types::types_among, method_rows::specs::Methods::found_method, method_rows::specs::Methods::method_from), using(method_rows::proofs::MethodLemmas::parameters_of_source))]
fn types_of<'a>(program: &'a Program, m: &MethodRef) -> Types<'a>
    ensures { types_left program.now.nodes result
        ≡ map (λ (d : Declaration). d.declared_type) (found_method program.now.nodes m.now).method.parameters }
{
    match &m.source {
        MethodSource::Declared(node) => {
            Types::Nodes(parameter_nodes(program, method_parameters(program, *node)))
        }
        MethodSource::Framework(_) => Types::Parameters(*m, 0),
    }
}

/// The type of the first parameter among nodes, and the nodes behind it.
#[tactic(auto, unfolding(crate::specs::Types::types_among))]
fn next_among<'a>(program: &Program, list: &'a [NodeId]) -> Option<(WrittenType, &'a [NodeId])>
    ensures none { IfNone result (types_among program.now.nodes list.now ≡ []) }
    ensures some { IfSome result (λ r. types_among program.now.nodes list.now ≡ r.0
        ∷ types_among program.now.nodes r.1.now) }
{
    let mut others = list;
    while let [id, rest @ ..] = others {
        if let Some(written) = variable_type(program, *id) {
            return Some((written, rest));
        }
        others = rest;
    }
    None
}

/// The first of these types, and the others.
#[tactic(auto, unfolding(crate::specs::Types::types_left), using(crate::proofs::OverrideLemmas::type_there, crate::proofs::OverrideLemmas::none_there))]
fn next_type<'a>(program: &Program, types: &Types<'a>) -> Option<(WrittenType, Types<'a>)>
    ensures none { IfNone result (types_left program.now.nodes types.now ≡ []) }
    ensures some { IfSome result (λ r. types_left program.now.nodes types.now ≡ r.0
        ∷ types_left program.now.nodes r.1) }
{
    match types {
        Types::Nodes(list) => {
            let Some((written, rest)) = next_among(program, list) else {
                return None;
            };
            Some((written, Types::Nodes(rest)))
        }
        Types::Parameters(m, number) => {
            if *number >= parameter_count(program, m) {
                return None;
            }
            let Some(written) = parameter_type(program, m, *number) else {
                return None;
            };
            Some((written, Types::Parameters(*m, *number + 1)))
        }
    }
}

/// Whether two methods have parameters of the same types.
pub fn have_same_types(program: &Program, m: &MethodRef, other: &MethodRef) -> bool
    ensures { result ≡ have_same_types (found_method program.now.nodes m.now).method.parameters
        (found_method program.now.nodes other.now).method.parameters }
{
    let mut left = types_of(program, m);
    let mut right = types_of(program, other);
    while let Some((written, rest)) = next_type(program, &left) {
        let Some((against, behind)) = next_type(program, &right) else {
            return false;
        };
        if !is_same_type(&written, &against) {
            return false;
        }
        left = rest;
        right = behind;
    }
    next_type(program, &right).is_none()
}
