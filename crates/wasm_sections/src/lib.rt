//! Sections of core modules.
#![tactic(auto)]

mod contents;
mod kept;
mod section;
mod sections;
mod writer;

pub use contents::{CustomName, Framed, Globals, Items, Start};
pub use kept::Kept;
pub use section::{Holding, Section, SectionId, rank_of, section_id_of};
pub use sections::{HEADER, Progress, is_in_order, read_sections};
pub use writer::{
    ExportSection, FunctionSection, GlobalSection, ImportSection, MemorySection, SectionItem,
    SectionWriter, StartSection, TableSection, TypeSection, put_section,
};
