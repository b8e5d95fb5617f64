//! Views of an ELF executable for 32-bit big-endian PowerPC, which borrow the bytes of the file and copy none of them.
#![tactic(auto)]

mod bytes;
mod file_header;
mod loaded_segments;
mod program_header;
mod section_header;
mod segment;
mod symbol;
mod symbol_table;
mod view;

pub use image_model::error::ElfError;
pub use image_model::symbol::SymbolFields;
pub use loaded_segments::{LoadedSegments, NumberedSegment};
pub use segment::SegView;
pub use symbol::SymView;
pub use view::ElfView;
