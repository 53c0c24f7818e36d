//! The framework's methods, from the rows of its table: what is declared of them, and which one has a name.

ghost use Rattle.std.specs.Prelude.{◌≡◌, false, [], unwrap_or, length, option_map, slice_get};
ghost use Rattle.scj_builtins.specs.Framework.{parameter_list};
ghost use Rattle.scj_rules.specs.Classes.{of_framework, parameter_written, result_written};
ghost use Rattle.method_rows.specs.Methods.{framework_method_on, framework_numbered, no_method};

use scj_base::{ClassId, MethodId, Name, NodeId, Position};
use scj_builtins::{
    GivesKind, ParameterKind, Parameters, framework_method as framework_row, method_named,
};
use scj_rules::{Declared, Modifiers, WrittenType};

/// What the framework declares.
pub fn made(name: Name, is_static: bool, is_abstract: bool, declared_type: WrittenType) -> Declared
    ensures { result ≡ of_framework name is_static is_abstract declared_type }
{
    Declared {
        node: NodeId::at(0),
        position: Position {
            file: 0,
            line: 0,
            col: 0,
        },
        name,
        modifiers: Modifiers {
            defines_scope: false,
            scope: None,
            runs_in: None,
            is_static,
            is_abstract,
            is_synchronized: false,
        },
        declared_type,
    }
}

/// What is declared of no method.
pub fn nothing() -> Declared
    ensures { result ≡ no_method.declared }
{
    made(Name::new(b""), false, false, WrittenType::Void)
}

/// The result's type of a framework's method, as a user class writes it.
#[tactic(auto, unfolding(scj_rules::specs::Classes::result_written))]
pub fn result_written(gives: GivesKind) -> WrittenType
    ensures { result ≡ result_written gives }
{
    match gives {
        GivesKind::Nothing => WrittenType::Void,
        GivesKind::Number => WrittenType::Int,
        GivesKind::Long => WrittenType::Long,
        GivesKind::Truth => WrittenType::Boolean,
        GivesKind::Sequencer => WrittenType::Class(Name::new(b"MissionSequencer")),
        GivesKind::Mission => WrittenType::Class(Name::new(b"Mission")),
    }
}

/// What is declared of a parameter of a framework's method.
#[tactic(auto, unfolding(scj_rules::specs::Classes::parameter_written))]
fn unnamed(kind: ParameterKind) -> Declared
    ensures { result ≡ of_framework [] false false (parameter_written kind) }
{
    let declared_type = match kind {
        ParameterKind::Int => WrittenType::Int,
        ParameterKind::Text => WrittenType::Text,
        ParameterKind::Object => WrittenType::Class(Name::new(b"Object")),
        ParameterKind::Runnable => WrittenType::Class(Name::new(b"Runnable")),
    };
    made(Name::new(b""), false, false, declared_type)
}

/// How many parameters these are.
#[tactic(auto, unfolding(scj_builtins::specs::Framework::parameter_list))]
pub fn count(parameters: Parameters) -> usize
    ensures { result ≡ length (parameter_list parameters) }
{
    match parameters {
        Parameters::Empty => 0,
        Parameters::One(_) => 1,
        Parameters::Two(_, _) => 2,
    }
}

/// One of these parameters, if there are as many.
#[tactic(auto, unfolding(scj_builtins::specs::Framework::parameter_list))]
fn parameter_at(parameters: Parameters, i: usize) -> Option<ParameterKind>
    ensures { result ≡ slice_get (parameter_list parameters) i }
{
    match parameters {
        Parameters::Empty => None,
        Parameters::One(first) => {
            if i == 0 {
                return Some(first);
            }
            None
        }
        Parameters::Two(first, second) => match i {
            0 => Some(first),
            1 => Some(second),
            _ => None,
        },
    }
}

/// What is declared of one of these parameters, if there are as many.
fn declared_at(parameters: Parameters, i: usize) -> Option<Declared>
    ensures { result ≡ option_map (λ kind. of_framework [] false false (parameter_written kind))
        (slice_get (parameter_list parameters) i) }
{
    match parameter_at(parameters, i) {
        Some(kind) => Some(unnamed(kind)),
        None => None,
    }
}

/// A parameter of a framework's method, if there are as many.
#[tactic(auto, using(crate::proofs::MethodLemmas::parameter_of_row, crate::proofs::MethodLemmas::parameter_of_none))]
pub fn parameter_of(number: MethodId, i: usize) -> Option<Declared>
    ensures { result ≡ slice_get (unwrap_or (framework_numbered number) no_method).parameters i }
{
    match &framework_row(number) {
        Some(row) => declared_at(row.parameters, i),
        None => None,
    }
}

/// The method of a name that a framework class declares itself.
#[tactic(auto, using(crate::proofs::MethodLemmas::named_row))]
pub fn framework_method(class: ClassId, name: &Name) -> Option<MethodId>
    ensures { option_map (λ number. unwrap_or (framework_numbered number) no_method) result ≡ framework_method_on class
        name.now }
{
    method_named(class, name.bytes())
}
