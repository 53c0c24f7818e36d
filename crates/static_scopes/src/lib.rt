//! Static scopes: where the objects lie that classes, methods, variables and fields speak of.
#![tactic(auto)]

mod methods;
mod scoped;
mod scopes;
mod things;

pub use methods::{has_other_runs_in, has_unknown_runs_in, is_plain, method_at};
pub use scoped::{
    current_at, field_scope, parameter_scope, result_scope, runs_in, runs_of, scope_in,
    scoped_variable_at, this_at, variable_scope, variables_of,
};
pub use scopes::{are_same_scope, beside, fits, scope_or, substitute, this_in};
pub use things::{
    contradicts, declaration_scope, is_unknown_scope, misfits, scoped_field, scoped_in_member,
};
