//! The types of expressions, and what an access or a call is asked of.

ghost use Rattle.std.specs.Prelude.{◌≡◌};
ghost use Rattle.scj_rules.specs.Types.{are_same, is_reference, is_array, element_type, array_of, unary_type, class_of_receiver, names_class, is_value, is_no_reference, is_array_value, is_length};
ghost use Rattle.scj_rules.specs.Bindings.{class_of_type};

use scj_base::vocabulary::NOT;
use scj_base::{ClassId, Name};
use scj_rules::{Receiver, Ty};

/// Whether two types are the same.
#[tactic(auto, unfolding(scj_rules::specs::Types::are_same))]
pub fn are_same(a: &Ty, b: &Ty) -> bool
    ensures { result ≡ are_same a.now b.now }
{
    match a {
        Ty::Int => matches!(b, Ty::Int),
        Ty::Bool => matches!(b, Ty::Bool),
        Ty::Void => matches!(b, Ty::Void),
        Ty::NullTy => matches!(b, Ty::NullTy),
        Ty::Label => matches!(b, Ty::Label),
        Ty::IntArray => matches!(b, Ty::IntArray),
        Ty::BoolArray => matches!(b, Ty::BoolArray),
        Ty::Class(class) => matches!(b, Ty::Class(other) if *class == *other),
        Ty::ClassArray(class) => matches!(b, Ty::ClassArray(other) if *class == *other),
    }
}

/// Whether the type is a class, an interface, an array or that of `null` (JLS 4.1).
#[tactic(auto, unfolding(scj_rules::specs::Types::is_reference))]
pub fn is_reference(t: &Ty) -> bool
    ensures { result ≡ is_reference t.now }
{
    !matches!(t, Ty::Int | Ty::Bool | Ty::Void | Ty::Label)
}

/// Whether the type is an array.
#[tactic(auto, unfolding(scj_rules::specs::Types::is_array))]
pub fn is_array(t: &Ty) -> bool
    ensures { result ≡ is_array t.now }
{
    matches!(t, Ty::IntArray | Ty::BoolArray | Ty::ClassArray(_))
}

/// The type of an array's elements (JLS 10.1).
#[tactic(auto, unfolding(scj_rules::specs::Types::element_type))]
pub fn element_type(t: &Ty) -> Option<Ty>
    ensures { result ≡ element_type t.now }
{
    match t {
        Ty::IntArray => Some(Ty::Int),
        Ty::BoolArray => Some(Ty::Bool),
        Ty::ClassArray(class) => Some(Ty::Class(*class)),
        _ => None,
    }
}

/// The type of an array of this type.
#[tactic(auto, unfolding(scj_rules::specs::Types::array_of))]
pub fn array_of(t: &Ty) -> Option<Ty>
    ensures { result ≡ array_of t.now }
{
    match t {
        Ty::Int => Some(Ty::IntArray),
        Ty::Bool => Some(Ty::BoolArray),
        Ty::Class(class) => Some(Ty::ClassArray(*class)),
        _ => None,
    }
}

/// The type of a unary operator's value, if the operand's type fits (JLS 15.15).
#[tactic(auto, unfolding(scj_rules::specs::Types::unary_type, scj_rules::specs::Types::are_same))]
pub fn unary_type(operator: u8, t: &Ty) -> Option<Ty>
    ensures { result ≡ unary_type operator t.now }
{
    match t {
        Ty::Bool if operator == NOT => Some(Ty::Bool),
        Ty::Int if operator != NOT => Some(Ty::Int),
        _ => None,
    }
}

/// The class of a class type.
#[tactic(auto, unfolding(scj_rules::specs::Bindings::class_of_type))]
pub fn class_of_type(t: &Ty) -> Option<ClassId>
    ensures { result ≡ class_of_type t.now }
{
    match t {
        Ty::Class(class) => Some(*class),
        _ => None,
    }
}

/// The class whose members a receiver has.
#[tactic(auto, unfolding(scj_rules::specs::Types::class_of_receiver))]
pub fn class_of_receiver(receiver: &Receiver) -> Option<ClassId>
    ensures { result ≡ class_of_receiver receiver.now }
{
    match receiver {
        Receiver::Class(class) | Receiver::Own(class) | Receiver::Value(Ty::Class(class)) => Some(
            *class,
        ),
        Receiver::Value(_) => None,
    }
}

/// Whether a class is named before the dot.
#[tactic(auto, unfolding(scj_rules::specs::Types::names_class))]
pub fn names_class(receiver: &Receiver) -> bool
    ensures { result ≡ names_class receiver.now }
{
    matches!(receiver, Receiver::Class(_))
}

/// Whether a value stands before the dot.
#[tactic(auto, unfolding(scj_rules::specs::Types::is_value))]
pub fn is_value(receiver: &Receiver) -> bool
    ensures { result ≡ is_value receiver.now }
{
    matches!(receiver, Receiver::Value(_))
}

/// Whether a value stands before the dot that is no reference.
#[tactic(auto, unfolding(scj_rules::specs::Types::type_of_receiver))]
pub fn is_no_reference(receiver: &Receiver) -> bool
    ensures { result ≡ is_no_reference receiver.now }
{
    matches!(receiver, Receiver::Value(t) if !is_reference(t))
}

/// Whether an array stands before the dot.
#[tactic(auto, unfolding(scj_rules::specs::Types::type_of_receiver))]
pub fn is_array_value(receiver: &Receiver) -> bool
    ensures { result ≡ is_array_value receiver.now }
{
    matches!(receiver, Receiver::Value(t) if is_array(t))
}

/// Whether the name is `length`.
pub fn is_length(name: &Name) -> bool
    ensures { result ≡ is_length name.now }
{
    name.bytes() == b"length".as_slice()
}
