//! The rules of the checker, as definitions over the tree of a program.
#![tactic(auto)]

pub mod bindings;
pub mod checked;
pub mod contexts;
pub mod framework_classes;
pub mod report_laws;
pub mod reports;
pub mod scopes;
pub mod typing;
pub mod views;

pub use bindings::Bindings;
pub use checked::Checked;
pub use contexts::Context;
pub use framework_classes::{has_form, is_user_class};
pub use reports::{put_in_order, report_if};
pub use scopes::{ClassScope, Definition, Resolution, ScopedDeclaration, Written};
pub use typing::{Binding, FoundField, Guard, Meaning, Receiver, Scope, Subject, Target, Ty};
pub use views::{Body, Declared, Modifiers, SlotKind, WrittenType};
