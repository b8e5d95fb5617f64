//! Reading of layouts.

ghost use Rattle.std.specs.Prelude.{◌≡◌, Some, IfOk, IsTrue};
ghost use Rattle.std.specs.List.{list_all};
ghost use Rattle.serde_json.specs.View.{view};
ghost use Rattle.asm_syntax.specs.Names.{is_name_byte};
ghost use Rattle.json_tree.specs.Reading.{word_of};
ghost use Rattle.layout_model.specs.Facts.{AreParts, IsLayout};
ghost use Rattle.layout_file.specs.LayoutTree.{label, kinds, area, layout};
ghost use Rattle.layout_file.specs.LayoutFile.{At, placed, apart, layout_file};
ghost use Rattle.layout_file.specs.Errors.{Answers, told};
ghost use Rattle.layout_file.specs.Causes.{is_layout_cause};

use crate::area::KeptArea;
use crate::error::LayoutError;
use crate::layout::{Layout, Parts};
use crate::meeting::are_apart;
use crate::span::{Stack, Stop};
use json_tree::address::Address;
use json_tree::array::list_field;
use json_tree::fault::{Cause, Fault, ReadError};
use json_tree::profile::{NoTree, header, tree_of};
use json_tree::text::text;
use json_tree::tree::{Reads, Tree, field, field_by, object};
use layout_model::kind::AreaKind;
use limits::{MOST_AREAS, MOST_FOREIGN_RANGES};
use serde_json::Value;
use std::alloc::Global;
use std::marker::Model;

/// What an area is called, which is tested and forgotten.
#[derive(Drop)]
struct Label {}

impl Model for Label {
    ghost Value = { Unit {0} };

    ghost view = { λ _. tt };
}

#[tactic(auto, unfolding(crate::specs::LayoutTree::label))]
impl Tree for Label {
    ghost reads = { label };

    fn read(alloc: Global, tree: &Value) -> Result<Label, ReadError> {
        let bytes = text(alloc, tree)?.as_bytes();
        if 1 <= bytes.len() && bytes.len() <= 63 && all_visible(bytes) {
            Ok(Label {})
        } else {
            Err(ReadError::here(alloc, Cause::OutOfRange))
        }
    }
}

fn all_visible(bytes: &[u8]) -> bool
    ensures { result ≡ list_all is_name_byte bytes.now }
{
    bytes.iter().all(|byte| 0x21 <= *byte && *byte <= 0x7e)
}

/// The words of areas.
struct Kinds;

#[tactic(auto, unfolding(json_tree::specs::Reading::word_of))]
impl Reads<AreaKind> for Kinds {
    ghost reads = { word_of kinds };

    fn read(alloc: Global, tree: &Value) -> Result<AreaKind, ReadError> {
        match text(alloc, tree)? {
            "code" => Ok(AreaKind::Code),
            "const" => Ok(AreaKind::Fixed),
            "data" => Ok(AreaKind::Writable),
            "sda13" => Ok(AreaKind::Sda13),
            "sda2" => Ok(AreaKind::Sda2),
            "sda0" => Ok(AreaKind::Sda0),
            _ => Err(ReadError::here(alloc, Cause::UnknownWord)),
        }
    }
}

#[tactic(auto, unfolding(crate::specs::LayoutTree::area))]
impl Tree for KeptArea {
    ghost reads = { area };

    fn read(alloc: Global, tree: &Value) -> Result<KeptArea, ReadError> {
        object(alloc, tree)?;
        let _label: Label = field(alloc, tree, "name")?;
        let span = field(alloc, tree, "range")?;
        let kind = field_by::<Kinds, AreaKind>(alloc, tree, "kind")?;
        Ok(KeptArea { span, kind })
    }
}

#[tactic(auto, unfolding(crate::specs::LayoutTree::layout))]
impl Tree for Parts {
    ghost reads = { layout };

    fn read(alloc: Global, tree: &Value) -> Result<Parts, ReadError> {
        header(alloc, tree, "layout", 1)?;
        let entry = field(alloc, tree, "entry")?;
        let stop: Stop = field(alloc, tree, "stop")?;
        let stack: Stack = field(alloc, tree, "stack")?;
        let r13: Address = field(alloc, tree, "r13")?;
        let r2: Address = field(alloc, tree, "r2")?;
        let areas = list_field(alloc, tree, "areas", MOST_AREAS)?;
        let foreign = list_field(alloc, tree, "foreign", MOST_FOREIGN_RANGES)?;
        let pins = field(alloc, tree, "pins")?;
        Ok(Parts {
            entry,
            stop: stop.address,
            stack,
            r13: r13.value(),
            r2: r2.value(),
            areas,
            foreign,
            pins,
        })
    }
}

fn error_of(fault: Fault) -> LayoutError
    requires { IsTrue (is_layout_cause fault.cause) }
    ensures { told result ≡ Some (At fault) }
{
    let path = fault.path.into_path();
    match fault.cause {
        Cause::Missing => LayoutError::Missing(path),
        Cause::WrongKind => LayoutError::WrongKind(path),
        Cause::OutOfRange => LayoutError::OutOfRange(path),
        Cause::UnknownWord => LayoutError::UnknownWord(path),
        Cause::Version => LayoutError::Version(path),
        Cause::RangeOrder => LayoutError::RangeOrder(path),
        Cause::Unaligned => LayoutError::Unaligned(path),
        Cause::Limit(limit) => LayoutError::Limit(path, limit),
        Cause::Shape(_) | Cause::Refused => unreachable!(),
    }
}

#[tactic(auto, using(crate::proofs::Causes::layout_causes))]
fn parts_of(alloc: Global, tree: &Value) -> Result<Parts, LayoutError>
    ensures answers { Answers result (placed (layout (view tree.now))) }
    ensures parts { IfOk result AreParts }
{
    match Tree::read(alloc, tree) {
        Ok(parts) => Ok(parts),
        Err(ReadError::Memory) => Err(LayoutError::Memory),
        Err(ReadError::Fault(fault)) => Err(error_of(fault)),
    }
}

/// The layout of parts whose ranges do not meet.
fn layout_of(alloc: Global, parts: Parts) -> Result<Layout, LayoutError>
    requires { AreParts parts }
    ensures answers { Answers result (apart parts) }
    ensures layout { IfOk result IsLayout }
{
    let Ok(ranges) = parts.ranges(alloc) else {
        return Err(LayoutError::Memory);
    };
    are_apart(&ranges)?;
    Ok(Layout::of_parts(parts))
}

/// The layout that the bytes of a file are.
#[tactic(auto, unfolding(crate::specs::LayoutFile::layout_file))]
pub fn read_layout(alloc: Global, text: &[u8]) -> Result<Layout, LayoutError>
    ensures answers { Answers result (layout_file text.now) }
    ensures layout { IfOk result IsLayout }
{
    let tree = match tree_of(alloc, text) {
        Ok(tree) => tree,
        Err(NoTree::NotJson) => return Err(LayoutError::NotJson),
        Err(NoTree::Memory) => return Err(LayoutError::Memory),
    };
    layout_of(alloc, parts_of(alloc, &tree)?)
}
