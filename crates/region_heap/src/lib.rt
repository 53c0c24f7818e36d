//! The memory of a run in one row of words that is taken once. A contract sees all areas and all objects of the run,
//! so that a place among them is a name. The words keep the objects of open areas alone: an area is a range of them,
//! which is emptied and used again when the area closes.
#![tactic(auto)]

pub mod changes;
mod compactions;
mod counts;
mod finds;
pub mod heaps;
pub mod history;
mod indices;
pub mod makers;
pub mod numbers;
pub mod objects;
pub mod open_areas;
mod reads;
pub mod rows;
mod sets;
pub mod spaces;
pub mod words;
mod writes;

pub use heaps::RegionHeap;
pub use numbers::HiddenFieldsError;
pub use objects::Object;
pub use open_areas::Area;
pub use spaces::{MemoryFull, StoreFull};
pub use words::WideNumberError;
