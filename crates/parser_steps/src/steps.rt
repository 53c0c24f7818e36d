//! A step of the parser by its mode.

ghost use Rattle.std.specs.Prelude.{◌≡◌};
ghost use Rattle.parser_machine.specs.Machine.{step_mode};
ghost use Rattle.parser_nodes.specs.Reported.{gives, seen};

use declaration_steps::annotations::{
    at_step, plain_assigned_step, plain_dot_step, plain_end_step, plain_first_step,
    plain_name_step, plain_next_step, plain_open_step, plain_path_step,
};
use declaration_steps::files::{
    classes_step, file_start_step, import_dot_step, import_end_step, import_name_step,
    import_star_step, import_start_step, imports_step, package_end_step, package_name_step,
};
use declaration_steps::heads::{
    class_name_step, class_named_step, super_argument_end_step, super_argument_name_step,
    super_ended, super_name_step, super_named_step,
};
use declaration_steps::members::{
    literal_end_step, literal_minus_step, literal_step, member_named_step, method_named_step,
    result_step,
};
use declaration_steps::scope_values::{
    define_assign_step, define_name_step, define_open_step, define_other_assign_step,
    define_other_step, value_dot_step, value_end_step, value_open_step, value_scope_step,
    value_start_step,
};
use expression_steps::arguments::{
    argument_first_step, argument_start, new_element_step, new_name_step, new_step, text_step,
};
use expression_steps::closing::assigned;
use expression_steps::operands::{
    closed_name_step, dot_name_step, dot_step, minus_step, name_step, opened_name_step,
    opened_step, operand_start, post_step,
};
use parser_machine::{Entry, Mode};
use parser_nodes::growing_nodes::Nodes;
use parser_nodes::stacks::Stack;
use parser_nodes::views::View;
use scj_base::Memory;
use statement_steps::blocks::{
    first_start, for_open_step, if_open_step, local_named_step, name_bracket_step, name_first_step,
    return_step, statement_start, statements_step, target_start, while_open_step,
};
use statement_steps::endings::{members_step, statement_ended};
use statement_steps::parameters::{
    constructor_start_step, parameter_end_step, parameters_end_step, parameters_first_step,
    super_end_step, super_open_step,
};
use type_steps::declarations::flags_step;
use type_steps::types::{
    type_argument_end_step, type_argument_name_step, type_bracket_step, type_end_step,
    type_name_step, typed,
};

/// Takes one lexeme; none where it may not stand here.
#[tactic(auto, unfolding(parser_machine::specs::Machine::step_mode))]
pub fn step_mode(
    nodes: &mut Nodes,
    stack: &mut Stack,
    view: &View,
    mode: &Mode,
) -> Result<Option<Mode>, Memory>
    ensures step { let awaited = step_mode mode.now nodes.old.all stack.old (seen view.now) in
        gives result nodes.new.all stack.new awaited ≡ awaited }
    ensures kept { nodes.new.kept ≡ nodes.old.kept }
{
    match mode {
        Mode::FileStart => file_start_step(nodes, stack, view),
        Mode::PackageName => package_name_step(nodes, stack, view),
        Mode::PackageEnd => package_end_step(nodes, stack, view),
        Mode::InImports => imports_step(nodes, stack, view),
        Mode::ImportStart => import_start_step(nodes, stack, view),
        Mode::ImportName => import_name_step(nodes, stack, view),
        Mode::ImportDot => import_dot_step(nodes, stack, view),
        Mode::ImportEnd => import_end_step(nodes, stack, view),
        Mode::ImportStar => import_star_step(nodes, stack, view),
        Mode::InClasses => classes_step(nodes, stack, view),
        Mode::Finished => Ok(None),
        Mode::FlagsRead { is_local, flags } => flags_step(nodes, stack, view, *is_local, *flags),
        Mode::At { position } => at_step(nodes, stack, view, *position),
        Mode::PlainOpen => plain_open_step(nodes, stack, view),
        Mode::PlainFirst => plain_first_step(nodes, stack, view),
        Mode::PlainNext => plain_next_step(nodes, stack, view),
        Mode::PlainName => plain_name_step(nodes, stack, view),
        Mode::PlainAssigned => plain_assigned_step(nodes, stack, view),
        Mode::PlainPath => plain_path_step(nodes, stack, view),
        Mode::PlainDot => plain_dot_step(nodes, stack, view),
        Mode::PlainEnd => plain_end_step(nodes, stack, view),
        Mode::ValueOpen => value_open_step(nodes, stack, view),
        Mode::ValueStart => value_start_step(nodes, stack, view),
        Mode::ValueScope { position } => value_scope_step(nodes, stack, view, *position),
        Mode::ValueDot { position } => value_dot_step(nodes, stack, view, *position),
        Mode::ValueRead { id } => value_end_step(nodes, stack, view, *id),
        Mode::DefineOpen { position } => define_open_step(nodes, stack, view, *position),
        Mode::DefineName { position } => define_name_step(nodes, stack, view, *position),
        Mode::DefineAssign {
            position,
            parent_first,
        } => define_assign_step(nodes, stack, view, *position, *parent_first),
        Mode::DefineOther {
            position,
            parent_first,
            first,
        } => define_other_step(nodes, stack, view, *position, *parent_first, *first),
        Mode::DefineOtherAssign {
            position,
            parent_first,
            first,
        } => define_other_assign_step(nodes, stack, view, *position, *parent_first, *first),
        Mode::ClassName { flags } => class_name_step(nodes, stack, view, *flags),
        Mode::ClassNamed => class_named_step(nodes, stack, view),
        Mode::SuperName => super_name_step(nodes, stack, view),
        Mode::SuperNamed { position, name } => super_named_step(
            nodes, stack, view, *position, name,
        ),
        Mode::SuperArgumentName { position, name } => super_argument_name_step(
            nodes, stack, view, *position, name,
        ),
        Mode::SuperArgumentEnd {
            position,
            name,
            argument,
        } => super_argument_end_step(nodes, stack, view, *position, name, *argument),
        Mode::SuperDone { id } => super_ended(nodes, stack, view, *id),
        Mode::InMembers => members_step(nodes, stack, view),
        Mode::TypeName { position, name } => type_name_step(nodes, stack, view, *position, name),
        Mode::TypeArgumentName { position, name } => type_argument_name_step(
            nodes, stack, view, *position, name,
        ),
        Mode::TypeArgumentEnd {
            position,
            name,
            argument,
        } => type_argument_end_step(nodes, stack, view, *position, name, *argument),
        Mode::TypeEnd { position, element } => type_end_step(
            nodes, stack, view, *position, element,
        ),
        Mode::TypeBracket { position, element } => type_bracket_step(
            nodes, stack, view, *position, element,
        ),
        Mode::TypeDone { id } => typed(nodes, stack, view, *id),
        Mode::MemberNamed {
            flags,
            declared_type,
            position,
            name,
        } => member_named_step(nodes, stack, view, *flags, *declared_type, *position, name),
        Mode::ResultDone { flags, result_type } => result_step(
            nodes,
            stack,
            view,
            *flags,
            *result_type,
        ),
        Mode::MethodNamed {
            flags,
            result_type,
            position,
            name,
        } => method_named_step(nodes, stack, view, *flags, *result_type, *position, name),
        Mode::LiteralStart => literal_step(nodes, stack, view),
        Mode::LiteralMinus { position } => literal_minus_step(nodes, stack, view, *position),
        Mode::LiteralDone { id } => literal_end_step(nodes, stack, view, *id),
        Mode::ParametersFirst { position } => parameters_first_step(nodes, stack, view, *position),
        Mode::ParameterDone { id } => parameter_end_step(nodes, stack, view, *id),
        Mode::ParametersDone { parameters } => parameters_end_step(nodes, stack, view, *parameters),
        Mode::ConstructorStart { position } => constructor_start_step(
            nodes, stack, view, *position,
        ),
        Mode::SuperOpen {
            block_position,
            position,
        } => super_open_step(nodes, stack, view, *block_position, *position),
        Mode::SuperEnd { block_position } => super_end_step(nodes, stack, view, *block_position),
        Mode::InStatements => statements_step(nodes, stack, view),
        Mode::StatementStart => statement_start(nodes, stack, view),
        Mode::StatementEnd { id } => statement_ended(nodes, stack, view, *id),
        Mode::IfOpen { position } => if_open_step(nodes, stack, view, *position),
        Mode::WhileOpen { position } => while_open_step(nodes, stack, view, *position),
        Mode::ForOpen { position } => for_open_step(nodes, stack, view, *position),
        Mode::ForFirst => first_start(nodes, stack, view),
        Mode::ForStepStart => target_start(nodes, stack, view),
        Mode::ReturnStart { position } => return_step(nodes, stack, view, *position),
        Mode::NameFirst { position, name } => name_first_step(nodes, stack, view, *position, name),
        Mode::NameBracket {
            position,
            name,
            bracket,
        } => name_bracket_step(nodes, stack, view, *position, name, *bracket),
        Mode::LocalNamed {
            flags,
            declared_type,
            position,
            name,
        } => local_named_step(nodes, stack, view, *flags, *declared_type, *position, name),
        Mode::Assigned { id } => assigned(nodes, stack, view, *id),
        Mode::Operand => operand_start(nodes, stack, view),
        Mode::NameRead { position, name } => name_step(nodes, stack, view, *position, name),
        Mode::Opened { position } => opened_step(nodes, stack, view, *position),
        Mode::OpenedName {
            position,
            name_position,
            name,
        } => opened_name_step(nodes, stack, view, *position, *name_position, name),
        Mode::ClosedName {
            position,
            name_position,
            name,
        } => closed_name_step(nodes, stack, view, *position, *name_position, name),
        Mode::Minus { position } => minus_step(nodes, stack, view, *position),
        Mode::NewStart { position } => new_step(nodes, stack, view, *position),
        Mode::NewName {
            position,
            name_position,
            name,
        } => new_name_step(nodes, stack, view, *position, *name_position, name),
        Mode::NewElement { position, element } => new_element_step(
            nodes, stack, view, *position, *element,
        ),
        Mode::PostDone { kind, position, id } => post_step(
            nodes, stack, view, *kind, *position, *id,
        ),
        Mode::Dot { object } => dot_step(nodes, stack, view, *object),
        Mode::DotName {
            object,
            position,
            name,
        } => dot_name_step(nodes, stack, view, *object, *position, name),
        Mode::ArgumentFirst => argument_first_step(nodes, stack, view),
        Mode::ArgumentNext => argument_start(nodes, stack, view),
        Mode::TextRead { id } => text_step(nodes, stack, view, *id),
    }
}
