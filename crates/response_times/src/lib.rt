//! Response times of handlers: from a file of what is declared of them, a bound for each one's response, and claimed
//! bounds checked; and in each run of an accepted program that stays within what is declared, releases end in time.
#![tactic(auto)]

pub mod answers;
pub mod bounds;
pub mod declared_texts;
pub mod files;
pub mod handlers;
pub mod laws;
pub mod lines;

pub use answers::DeclaredError;
pub use bounds::{check_response, respond};
pub use declared_texts::read_declared;
pub use files::{Claims, DeclaredFile, DeclaredRows};
pub use lines::response_text;
pub use response_bounds::{Declared, Response};
