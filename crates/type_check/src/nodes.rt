//! What breaks the rules on types at a node, and the type that the node has where nothing does.

ghost use Rattle.std.specs.Prelude.{◌≡◌, ◌++◌, Some, true, IfOk, OnOk, is_some, slice_get};
ghost use Rattle.scj_rules.specs.TypeRules.{type_breaks, type_of};
ghost use Rattle.type_check.specs.Kinds.{is_declaration, is_seldom};
ghost use Rattle.type_words.specs.Returns.{all_returns};
ghost use Rattle.program_facts.specs.Meanings.{member_named, IsMeaningAt, AreMeanings};
ghost use Rattle.program_facts.specs.Reported.{declared, types};

use crate::expressions::{judge_access, judge_binary, judge_element, judge_name, judge_unary};
use crate::rows::keep;
use crate::values::{class_named, type_of_new, type_of_new_array};
use program_facts::{At, NodeMeaning};
use scj_base::{Found, Memory, Rule};
use scj_rules::{Ty, report_if};
use scj_tree::Node;
use type_rules::calls::{
    is_misplaced_form, judge_call, lacks_form, makes_no_object, misfits_class, misfits_new,
};
use type_rules::expressions::{has_form_elements, misfits_cast, misfits_length};
use type_rules::statements::{
    ends_without_return, lacks_value, misfits_assignment, misfits_initial_value, misfits_long,
    misfits_result, misfits_super_call, note_condition,
};

/// Notes what breaks the rules on types at a node, and tells the type of its kind, which it has where nothing does.
#[tactic(auto, unfolding(program_facts::specs::Meanings::member_named, crate::specs::Kinds::is_declaration, crate::specs::Kinds::is_seldom, scj_rules::specs::TypeRules::type_of, scj_rules::specs::TypeRules::type_breaks, scj_rules::specs::TypeRules::t1, scj_rules::specs::TypeRules::t2, scj_rules::specs::TypeRules::t3, scj_rules::specs::TypeRules::t4, scj_rules::specs::TypeRules::t5, scj_rules::specs::TypeRules::t6, scj_rules::specs::TypeRules::t7, scj_rules::specs::TypeRules::t8, scj_rules::specs::TypeRules::t9, scj_rules::specs::TypeRules::t10, scj_rules::specs::TypeRules::t11, scj_rules::specs::TypeRules::t12, scj_rules::specs::TypeRules::t13, scj_rules::specs::TypeRules::t14))]
pub fn judge(
    found: &mut Vec<Found>,
    at: &At<'_>,
    returns: &[bool],
    rows: &mut Vec<NodeMeaning>,
    node: &Node,
) -> Result<Option<Ty>, Memory>
    requires returns { returns.now ≡ all_returns at.now.facts.now.nodes }
    requires there { slice_get at.now.facts.now.nodes at.now.id ≡ Some node.now }
    requires rows { AreMeanings at.now.facts.now rows.old.items }
    ensures type_of { IfOk result (λ t. t ≡ type_of (declared at.now) (types at.now) at.now.id node.now) }
    ensures found { OnOk result (found.new.items ≡ found.old.items
        ++ type_breaks (declared at.now) (types at.now) at.now.id node.now) }
    ensures rows { OnOk result (AreMeanings at.now.facts.now rows.new.items) }
{
    match node {
        Node::Parameter { position, name, .. } | Node::Local { position, name, .. } => {
            let is_twice = at.facts.variable_named(at.id, name.get()).is_some();
            report_if(found, is_twice, Rule::T2, *position)?;
            Ok(None)
        }
        Node::Class { .. }
        | Node::Field { .. }
        | Node::Method { .. }
        | Node::LocalWithValue { .. }
        | Node::SuperCall { .. } => judge_declaration(found, at, returns, node),
        Node::Assign {
            position,
            target,
            value,
        } => {
            let misfits = misfits_assignment(at, *target, *value);
            report_if(found, misfits, Rule::T7, *position)?;
            Ok(None)
        }
        Node::If { condition, .. } | Node::While { condition, .. } | Node::For { condition, .. } =>
            {
                note_condition(found, at, *condition)?;
                Ok(None)
            }
        Node::Return { position, value } => match value {
            Some(value) => {
                report_if(found, misfits_result(at, *value), Rule::T9, *position)?;
                Ok(None)
            }
            None => {
                report_if(found, lacks_value(at), Rule::T9, *position)?;
                Ok(None)
            }
        },
        Node::Binary {
            position,
            operator,
            left,
            right,
        } => judge_binary(found, at, *position, *operator, *left, *right),
        Node::Unary {
            position,
            operator,
            operand,
        } => judge_unary(found, at, *position, *operator, *operand),
        Node::SimpleName { position, name } => judge_name(found, at, rows, *position, name.get()),
        Node::FieldAccess { .. } | Node::Call { .. } => judge_member(found, at, rows, node),
        Node::Element {
            position,
            array,
            index,
        } => judge_element(found, at, *position, *array, *index),
        Node::Cast { .. }
        | Node::Parenthesized { .. }
        | Node::New { .. }
        | Node::NewArray { .. }
        | Node::This { .. } => judge_seldom(found, at, node),
        Node::Number { .. } => Ok(Some(Ty::Int)),
        Node::True { .. } | Node::False { .. } => Ok(Some(Ty::Bool)),
        Node::Null { .. } => Ok(Some(Ty::NullTy)),
        Node::Text { .. } => Ok(Some(Ty::Label)),
        Node::Flags { .. }
        | Node::DefineScope { .. }
        | Node::ScopeName { .. }
        | Node::Supers { .. }
        | Node::SuperType { .. }
        | Node::TypeArgument { .. }
        | Node::IntType { .. }
        | Node::BooleanType { .. }
        | Node::ClassType { .. }
        | Node::VoidType { .. }
        | Node::LongType { .. }
        | Node::Constructor { .. }
        | Node::Parameters { .. }
        | Node::Block { .. }
        | Node::Empty { .. }
        | Node::ExpressionStatement { .. } => Ok(None),
    }
}

/// The same of what declares, which may break two rules. The room that the places take is cleared for it alone.
#[tactic(auto, unfolding(crate::specs::Kinds::is_declaration, scj_rules::specs::TypeRules::type_of, scj_rules::specs::TypeRules::type_breaks, scj_rules::specs::TypeRules::t1, scj_rules::specs::TypeRules::t2, scj_rules::specs::TypeRules::t3, scj_rules::specs::TypeRules::t4, scj_rules::specs::TypeRules::t5, scj_rules::specs::TypeRules::t6, scj_rules::specs::TypeRules::t7, scj_rules::specs::TypeRules::t8, scj_rules::specs::TypeRules::t9, scj_rules::specs::TypeRules::t10, scj_rules::specs::TypeRules::t11, scj_rules::specs::TypeRules::t12, scj_rules::specs::TypeRules::t13, scj_rules::specs::TypeRules::t14))]
fn judge_declaration(
    found: &mut Vec<Found>,
    at: &At<'_>,
    returns: &[bool],
    node: &Node,
) -> Result<Option<Ty>, Memory>
    requires returns { returns.now ≡ all_returns at.now.facts.now.nodes }
    requires declaration { is_declaration node.now ≡ true }
    ensures type_of { IfOk result (λ t. t ≡ type_of (declared at.now) (types at.now) at.now.id node.now) }
    ensures found { OnOk result (found.new.items ≡ found.old.items
        ++ type_breaks (declared at.now) (types at.now) at.now.id node.now) }
{
    match node {
        Node::Class { position, name, .. } => {
            let Some(class) = at.facts.class_of(name.get()) else {
                return Ok(None);
            };
            report_if(found, misfits_class(at.facts, class), Rule::T6, *position)?;
            report_if(found, lacks_form(at.facts, class), Rule::T14, *position)?;
            Ok(None)
        }
        Node::Field {
            declared_type,
            equals,
            value,
            ..
        } => {
            let (Some(equals), Some(value)) = (equals, value) else {
                return Ok(None);
            };
            let misfits = misfits_initial_value(at, *declared_type, *value);
            report_if(found, misfits, Rule::T7, *equals)?;
            Ok(None)
        }
        Node::Method {
            position,
            name,
            result_type,
            body,
            ..
        } => {
            if let Some(body) = body {
                let ends = ends_without_return(at.facts, returns, *result_type, *body);
                report_if(found, ends, Rule::T10, *position)?;
            }
            let misfits = misfits_long(at.facts, at.id, name.get(), *result_type, body);
            report_if(found, misfits, Rule::T14, *position)?;
            Ok(None)
        }
        Node::LocalWithValue {
            position,
            name_position,
            name,
            declared_type,
            value,
            ..
        } => {
            let is_twice = at.facts.variable_named(at.id, name.get()).is_some();
            report_if(found, is_twice, Rule::T2, *name_position)?;
            let misfits = misfits_initial_value(at, *declared_type, *value);
            report_if(found, misfits, Rule::T7, *position)?;
            Ok(None)
        }
        Node::SuperCall {
            position,
            arguments,
        } => {
            let misfits = misfits_super_call(at, arguments.items());
            report_if(found, misfits, Rule::T6, *position)?;
            Ok(None)
        }
        _ => Ok(None),
    }
}

/// The same of expressions that are seldom written. The room that their parts take is cleared for them alone.
#[tactic(auto, unfolding(crate::specs::Kinds::is_seldom, scj_rules::specs::TypeRules::type_of, scj_rules::specs::TypeRules::type_breaks, scj_rules::specs::TypeRules::t1, scj_rules::specs::TypeRules::t2, scj_rules::specs::TypeRules::t3, scj_rules::specs::TypeRules::t4, scj_rules::specs::TypeRules::t5, scj_rules::specs::TypeRules::t6, scj_rules::specs::TypeRules::t7, scj_rules::specs::TypeRules::t8, scj_rules::specs::TypeRules::t9, scj_rules::specs::TypeRules::t10, scj_rules::specs::TypeRules::t11, scj_rules::specs::TypeRules::t12, scj_rules::specs::TypeRules::t13, scj_rules::specs::TypeRules::t14))]
fn judge_seldom(found: &mut Vec<Found>, at: &At<'_>, node: &Node) -> Result<Option<Ty>, Memory>
    requires { is_seldom node.now ≡ true }
    ensures type_of { IfOk result (λ t. t ≡ type_of (declared at.now) (types at.now) at.now.id node.now) }
    ensures found { OnOk result (found.new.items ≡ found.old.items
        ++ type_breaks (declared at.now) (types at.now) at.now.id node.now) }
{
    match node {
        Node::Parenthesized { inner, .. } => Ok(at.type_of(*inner)),
        Node::Cast {
            position,
            name,
            operand,
            ..
        } => {
            if at.type_of(*operand).is_none() {
                return Ok(None);
            }
            let misfits = misfits_cast(at, name.get(), *operand);
            report_if(found, misfits, Rule::T12, *position)?;
            Ok(class_named(at.facts, name.get()))
        }
        Node::New {
            position,
            name,
            arguments,
            ..
        } => {
            let misfits = misfits_new(at, name.get(), arguments.items());
            report_if(found, misfits, Rule::T6, *position)?;
            let has_none = makes_no_object(at, name.get(), arguments.items());
            report_if(found, has_none, Rule::T11, *position)?;
            report_if(
                found,
                is_misplaced_form(at, name.get()),
                Rule::T14,
                *position,
            )?;
            Ok(type_of_new(at, name.get(), arguments.items()))
        }
        Node::NewArray {
            position,
            element,
            length,
        } => {
            report_if(found, misfits_length(at, *length), Rule::T3, *position)?;
            let has_forms = has_form_elements(at.facts, *element);
            report_if(found, has_forms, Rule::T14, *position)?;
            Ok(type_of_new_array(at, *element, *length))
        }
        Node::This { position } => {
            report_if(found, !at.facts.has_object(at.id), Rule::T13, *position)?;
            let class = at.facts.context(at.id).class;
            Ok(class.map(|class| Ty::Class(class)))
        }
        _ => Ok(None),
    }
}

/// The same of an access or a call, by the rows of the nodes before it, with its own row.
#[tactic(auto, unfolding(program_facts::specs::Meanings::member_named, program_facts::specs::Meanings::IsMeaningAt, scj_rules::specs::TypeRules::type_of, scj_rules::specs::TypeRules::type_breaks, scj_rules::specs::TypeRules::t1, scj_rules::specs::TypeRules::t2, scj_rules::specs::TypeRules::t3, scj_rules::specs::TypeRules::t4, scj_rules::specs::TypeRules::t5, scj_rules::specs::TypeRules::t6, scj_rules::specs::TypeRules::t7, scj_rules::specs::TypeRules::t8, scj_rules::specs::TypeRules::t9, scj_rules::specs::TypeRules::t10, scj_rules::specs::TypeRules::t11, scj_rules::specs::TypeRules::t12, scj_rules::specs::TypeRules::t13, scj_rules::specs::TypeRules::t14))]
fn judge_there(
    found: &mut Vec<Found>,
    at: &At<'_>,
    rows: &[NodeMeaning],
    node: &Node,
) -> Result<(Option<Ty>, NodeMeaning), Memory>
    requires there { slice_get at.now.facts.now.nodes at.now.id ≡ Some node.now }
    requires rows { AreMeanings at.now.facts.now rows.now }
    requires member { is_some (member_named node.now) ≡ true }
    ensures type_of { IfOk result (λ r. r.0 ≡ type_of (declared at.now) (types at.now) at.now.id node.now) }
    ensures found { OnOk result (found.new.items ≡ found.old.items
        ++ type_breaks (declared at.now) (types at.now) at.now.id node.now) }
    ensures row { IfOk result (λ r. IsMeaningAt at.now.facts.now at.now.id r.1) }
{
    let facts = at.facts.again().with_meanings(rows);
    let at = At {
        facts: &facts,
        types: at.types,
        scopes: at.scopes,
        id: at.id,
    };
    match node {
        Node::FieldAccess {
            position,
            name,
            object,
        } => judge_access(found, &at, *position, name.get(), *object),
        Node::Call {
            position,
            name,
            object,
            arguments,
        } => judge_call(found, &at, *position, name.get(), object, arguments.items()),
        _ => Ok((None, NodeMeaning::Nothing)),
    }
}

/// The same, which keeps the row.
#[tactic(auto, using(crate::proofs::RowLemmas::one_reported))]
fn judge_member(
    found: &mut Vec<Found>,
    at: &At<'_>,
    rows: &mut Vec<NodeMeaning>,
    node: &Node,
) -> Result<Option<Ty>, Memory>
    requires there { slice_get at.now.facts.now.nodes at.now.id ≡ Some node.now }
    requires rows { AreMeanings at.now.facts.now rows.old.items }
    requires member { is_some (member_named node.now) ≡ true }
    ensures type_of { IfOk result (λ t. t ≡ type_of (declared at.now) (types at.now) at.now.id node.now) }
    ensures found { OnOk result (found.new.items ≡ found.old.items
        ++ type_breaks (declared at.now) (types at.now) at.now.id node.now) }
    ensures rows { OnOk result (AreMeanings at.now.facts.now rows.new.items) }
{
    let (t, row) = judge_there(found, at, rows, node)?;
    keep(rows, at.id, row);
    Ok(t)
}
