//! What breaks the rules on types at operators, names and accesses, and the types that these have where nothing does.

ghost use Rattle.std.specs.Prelude.{◌≡◌, ◌++◌, IfOk, OnOk, Some, option_and_then, slice_get};
ghost use Rattle.scj_base.specs.declared.findings.Rule.TheVariants.{T3};
ghost use Rattle.scj_tree.specs.declared.nodes.Node.TheVariants.{SimpleName as a_name, FieldAccess as an_access};
ghost use Rattle.scj_rules.specs.Words.{broken};
ghost use Rattle.scj_rules.specs.Types.{binary_type, element_type, meaning, unary_type};
ghost use Rattle.scj_rules.specs.TypeRules.{misfits_operands, misfits_operand, misfits_index, t1, t3, t4, t13, type_of, type_of_meaning};
ghost use Rattle.program_facts.specs.Meanings.{IsMeaningAt, AreMeanings};
ghost use Rattle.program_facts.specs.Reported.{declared, types};

use crate::rows::keep;
use program_facts::meanings::{denotes_no_declaration, is_instance_field};
use program_facts::{At, NodeMeaning};
use scj_base::{Found, Memory, Name, NodeId, Position, Rule};
use scj_rules::{Ty, report_if};
use type_rules::expressions::{lacks_field, lacks_object_of_field, misfits_index};
use type_rules::members::{field_in, field_row};
use type_rules::names::{binary_type, meaning, receiver};
use type_rules::results::{access_type, type_of_meaning};
use type_words::{element_type, is_no_reference, unary_type};

/// Notes a binary operator whose operands don't fit, and tells the type of its value.
pub fn judge_binary(
    found: &mut Vec<Found>,
    at: &At<'_>,
    position: Position,
    operator: u8,
    left: NodeId,
    right: NodeId,
) -> Result<Option<Ty>, Memory>
    ensures type_of { IfOk result (λ t. t ≡ option_and_then (λ a. option_and_then
        (binary_type (declared at.now).classes operator a) (types at.now right)) (types at.now left)) }
    ensures found { OnOk result (found.new.items ≡ found.old.items
        ++ broken (misfits_operands (declared at.now) (types at.now) operator left right) T3 position) }
{
    let (Some(a), Some(b)) = (at.type_of(left), at.type_of(right)) else {
        return Ok(None);
    };
    let t = binary_type(at.facts, operator, &a, &b);
    report_if(found, t.is_none(), Rule::T3, position)?;
    Ok(t)
}

/// Notes a unary operator whose operand doesn't fit, and tells the type of its value.
pub fn judge_unary(
    found: &mut Vec<Found>,
    at: &At<'_>,
    position: Position,
    operator: u8,
    operand: NodeId,
) -> Result<Option<Ty>, Memory>
    ensures type_of { IfOk result (λ t. t ≡ option_and_then (unary_type operator) (types at.now operand)) }
    ensures found { OnOk result (found.new.items ≡ found.old.items
        ++ broken (misfits_operand (types at.now) operator operand) T3 position) }
{
    let Some(a) = at.type_of(operand) else {
        return Ok(None);
    };
    let t = unary_type(operator, &a);
    report_if(found, t.is_none(), Rule::T3, position)?;
    Ok(t)
}

/// Notes an element of what is no array, or at what is no number, and tells its type.
pub fn judge_element(
    found: &mut Vec<Found>,
    at: &At<'_>,
    position: Position,
    array: NodeId,
    index: NodeId,
) -> Result<Option<Ty>, Memory>
    ensures type_of { IfOk result (λ t. t ≡ option_and_then
        (λ a. option_and_then (λ i. element_type a) (types at.now index)) (types at.now array)) }
    ensures found { OnOk result (found.new.items ≡ found.old.items
        ++ broken (misfits_index (types at.now) array index) T3 position) }
{
    let (Some(a), Some(_i)) = (at.type_of(array), at.type_of(index)) else {
        return Ok(None);
    };
    report_if(found, misfits_index(at, array, index), Rule::T3, position)?;
    Ok(element_type(&a))
}

/// Notes a simple name that stands for nothing, or for a field of no object, and tells its type. What it stands for is
/// kept.
#[tactic(auto, using(crate::proofs::RowLemmas::one_reported, crate::proofs::RowLemmas::name_reported), unfolding(program_facts::specs::Meanings::simply_named, scj_rules::specs::TypeRules::t1, scj_rules::specs::TypeRules::t13))]
pub fn judge_name(
    found: &mut Vec<Found>,
    at: &At<'_>,
    rows: &mut Vec<NodeMeaning>,
    position: Position,
    name: &Name,
) -> Result<Option<Ty>, Memory>
    requires there { slice_get at.now.facts.now.nodes at.now.id ≡ Some (a_name position name.now) }
    requires rows { AreMeanings at.now.facts.now rows.old.items }
    ensures type_of { IfOk result (λ t. t ≡ type_of_meaning (declared at.now)
        (meaning (declared at.now) at.now.id name.now)) }
    ensures found { let node = a_name position name.now in OnOk result (found.new.items ≡ found.old.items
        ++ (t1 (declared at.now) (types at.now) at.now.id node ++ t13 (declared at.now) (types at.now) at.now.id node)) }
    ensures rows { OnOk result (AreMeanings at.now.facts.now rows.new.items) }
{
    let meaning = meaning(at.facts, at.id, name);
    keep(rows, at.id, NodeMeaning::Name(meaning));
    report_if(found, denotes_no_declaration(&meaning), Rule::T1, position)?;
    let is_apart = is_instance_field(at.facts.program(), &meaning) && !at.facts.has_object(at.id);
    report_if(found, is_apart, Rule::T13, position)?;
    Ok(type_of_meaning(at.facts, &meaning))
}

/// Notes an access to what is no reference, to a field that isn't there or to one of no object, and tells its type and
/// its row.
#[tactic(auto, unfolding(scj_rules::specs::TypeRules::t3, scj_rules::specs::TypeRules::t4, scj_rules::specs::TypeRules::t13, scj_rules::specs::TypeRules::type_of, program_facts::specs::Meanings::IsMeaningAt, program_facts::specs::Meanings::member_named))]
pub fn judge_access(
    found: &mut Vec<Found>,
    at: &At<'_>,
    position: Position,
    name: &Name,
    object: NodeId,
) -> Result<(Option<Ty>, NodeMeaning), Memory>
    requires { slice_get at.now.facts.now.nodes at.now.id ≡ Some (an_access position name.now object) }
    ensures type_of { IfOk result (λ r. r.0 ≡ type_of (declared at.now) (types at.now) at.now.id
        (an_access position name.now object)) }
    ensures found { let node = an_access position name.now object in OnOk result (found.new.items ≡ found.old.items
        ++ (t3 (declared at.now) (types at.now) at.now.id node ++ (t4 (declared at.now) (types at.now) at.now.id node
        ++ t13 (declared at.now) (types at.now) at.now.id node))) }
    ensures row { IfOk result (λ r. IsMeaningAt at.now.facts.now at.now.id r.1) }
{
    let Some(r) = receiver(at, object) else {
        return Ok((None, NodeMeaning::Nothing));
    };
    let row = field_row(at, &r, name);
    let field = field_in(&row);
    report_if(found, is_no_reference(&r), Rule::T3, position)?;
    let lacks = lacks_field(at.facts, &r, name, &field);
    report_if(found, lacks, Rule::T4, position)?;
    let is_apart = lacks_object_of_field(at, &r, &field);
    report_if(found, is_apart, Rule::T13, position)?;
    Ok((access_type(at.facts, &r, name, &field), row))
}
