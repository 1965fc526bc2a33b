//! Boards that own their memory: one finds its areas by fences, one through a page table.
#![tactic(auto)]

mod fenced;
mod laid;
mod layout;
mod paged;
mod stretches;

pub use fenced::{Fence, Fenced, Fences};
pub use laid::Laid;
pub use layout::Layout;
pub use paged::{PageTable, Paged, Pages};
