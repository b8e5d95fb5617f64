//! Why files are not judged.

use asm_syntax::name::Name;
use dump_reader::DumpError;
use image_model::error::ElfError;
use layout_file::error::LayoutError;
use link_model::link_error::LinkError;

/// The first thing that is refused: a file that is not of its grammar, or units that do not link. Units are numbered from 0.
#[derive(Debug, Drop)]
pub enum Refusal {
    Layout(LayoutError),
    Image(ElfError),
    Unit(u32, DumpError),
    /// Of the replies to a run.
    Replies(DumpError),
    /// With the number and the name of the unit at fault.
    Link(u32, Name, LinkError),
    /// No global function has this name, which the layout gives for the entry.
    Entry(Name),
}
