//! Places, rules, statuses, names and tokens, and the faults and values of a run: the words that every other crate
//! speaks.
#![tactic(auto)]

pub mod errors;
pub mod faults;
pub mod file_names;
pub mod findings;
pub mod ids;
pub mod lexemes;
pub mod numbers;
pub mod positions;
pub mod shared_names;
pub mod statuses;
pub mod values;
pub mod vocabulary;
pub mod words;

pub use errors::{Failed, Memory};
pub use faults::RunFault;
pub use file_names::Files;
pub use findings::{Found, Rule};
pub use ids::{AreaId, ClassId, FieldId, MethodId, Ref, ScopeId};
pub use lexemes::{Token, TokenKind, Tokens};
pub use numbers::NodeId;
pub use positions::Position;
pub use shared_names::{NameTable, SharedName};
pub use statuses::Status;
pub use values::Value;
pub use words::Name;
