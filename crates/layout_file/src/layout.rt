//! Layouts and what they answer.

ghost use Rattle.std.specs.Prelude.{◌≡◌, ◌+◌, ◌<◌, ◌≤◌, ◌^◌, ◌++◌, Some, IfSome, IfOk, OnOk, length, map, option_map, position};
ghost use Rattle.std.specs.List.{slice_get};
ghost use Rattle.word_ops.specs.Ranges.{holds};
ghost use Rattle.word_ops.specs.Seen.{extent_of};
ghost use Rattle.layout_model.specs.Layouts.{area_holds, area_range, area_of, is_foreign, pin_of, ranges, stop_range};
ghost use Rattle.layout_model.specs.Facts.{AreParts, IsLayout, IsRange};
ghost use Rattle.layout_file.specs.Seen.{area_seen};

use crate::area::{Area, KeptArea};
use crate::pins::Pins;
use crate::span::{Span, Stack};
use asm_syntax::listed::Listed;
use asm_syntax::name::Name;
use std::alloc::{AllocError, Global};
use std::marker::Model;
use word_ops::range::Range;

/// What the members of a layout are, before its ranges are compared.
#[derive(Debug, Drop)]
pub struct Parts {
    pub entry: Name,
    pub stop: u32,
    pub stack: Stack,
    pub r13: u32,
    pub r2: u32,
    pub areas: Listed<KeptArea>,
    pub foreign: Listed<Span>,
    pub pins: Pins,
}

impl Model for Parts {
    ghost use Rattle.layout_model.specs.Layouts as layouts;

    ghost Value = { layouts.Layout };

    ghost view = { λ parts. record {
      entry = parts.entry;
      stop = parts.stop;
      stack = parts.stack;
      r13 = parts.r13;
      r2 = parts.r2;
      areas = parts.areas;
      foreign = parts.foreign;
      pins = parts.pins;
    } };
}

/// What a program's address space has.
#[derive(Debug, Drop)]
pub struct Layout {
    parts: Parts,
}

impl Model for Layout {
    ghost use Rattle.layout_model.specs.Layouts as layouts;
    ghost use Rattle.layout_model.specs.Facts.{IsLayout};

    ghost Value = { layouts.Layout };

    ghost view = { λ layout. layout.parts };

    ghost invariant = { λ layout. IsLayout layout.parts };
}

fn place_of(areas: &[KeptArea], a: u32) -> Option<usize>
    ensures place { result ≡ position (area_holds a) areas.now }
    ensures bound { IfSome result (λ i. i < length areas.now) }
{
    areas.iter().position(|area| area.span.holds(a))
}

impl Layout {
    /// The layout of parts that are one.
    pub(crate) fn of_parts(parts: Parts) -> Layout
        requires { IsLayout parts }
        ensures { result ≡ parts }
    {
        Layout { parts }
    }

    /// The name of the function at which the program is entered.
    pub fn entry(&self) -> &Name
        ensures { result.now ≡ self.now.entry }
    {
        &self.parts.entry
    }

    /// The address to which the program returns when it has ended.
    pub fn stop(&self) -> u32
        ensures { result ≡ self.now.stop }
    {
        self.parts.stop
    }

    /// The range of the stack. The call also tells what is true of each layout.
    pub fn stack(&self) -> Range
        ensures value { extent_of result ≡ self.now.stack }
        ensures layout { IsLayout self.now }
    {
        self.parts.stack.span.range()
    }

    /// The base of the small data area.
    pub fn r13(&self) -> u32
        ensures { result ≡ self.now.r13 }
    {
        self.parts.r13
    }

    /// The base of the small constant data area.
    pub fn r2(&self) -> u32
        ensures { result ≡ self.now.r2 }
    {
        self.parts.r2
    }

    /// How many areas there are.
    pub fn areas(&self) -> u32
        ensures { result ≡ length self.now.areas }
    {
        self.parts.areas.items().len() as u32
    }

    pub fn area(&self, i: u32) -> Area
        requires { i < length self.now.areas }
        ensures value { slice_get self.now.areas i ≡ Some (area_seen result) }
        ensures range { IsRange (extent_of result.range) }
    {
        self.parts.areas.items()[i as usize].area()
    }

    /// How many foreign ranges there are.
    pub fn foreign(&self) -> u32
        ensures { result ≡ length self.now.foreign }
    {
        self.parts.foreign.items().len() as u32
    }

    pub fn foreign_range(&self, i: u32) -> Range
        requires { i < length self.now.foreign }
        ensures value { slice_get self.now.foreign i ≡ Some (extent_of result) }
        ensures range { IsRange (extent_of result) }
    {
        self.parts.foreign.items()[i as usize].range()
    }

    /// The number of the area that holds an address.
    pub fn area_of(&self, a: u32) -> Option<u32>
        ensures { result ≡ area_of self.now a }
    {
        match place_of(self.parts.areas.items(), a) {
            Some(place) => Some(place as u32),
            None => None,
        }
    }

    pub fn is_foreign(&self, a: u32) -> bool
        ensures { result ≡ is_foreign self.now a }
    {
        self.parts.foreign.items().iter().any(|span| span.holds(a))
    }

    /// The address that a name is pinned to: the unit's own name, or a global one.
    pub fn pin(&self, unit: Option<&Name>, name: &Name) -> Option<u32>
        ensures { result ≡ pin_of self.now (option_map (λ u. u.now) unit.entry) name.now }
    {
        match unit {
            Some(unit) => self.parts.pins.address(Some(unit.text()), name.text()),
            None => self.parts.pins.address(None, name.text()),
        }
    }
}

impl Parts {
    /// The ranges in the order of their numbers: the stack, the areas, the foreign ranges, the stop point.
    pub fn ranges(&self, alloc: Global) -> Result<Vec<Range>, AllocError>
        requires { AreParts self.now }
        ensures all { IfOk result (λ list. map extent_of list.items ≡ ranges self.now) }
        ensures few { IfOk result (λ list. length list.items ≤ 2 ^ 32) }
    {
        let mut ranges = Vec::new(alloc);
        ranges.push(self.stack.span.range())?;
        push_areas(&mut ranges, self.areas.items())?;
        push_spans(&mut ranges, self.foreign.items())?;
        ranges.push(stop_range(self.stop))?;
        Ok(ranges)
    }
}

fn stop_range(stop: u32) -> Range
    requires { stop + 4 ≤ 2 ^ 32 }
    ensures { extent_of result ≡ stop_range stop }
{
    let lo = u64::from(stop);
    Range { lo, hi: lo + 4 }
}

fn push_areas(ranges: &mut Vec<Range>, areas: &[KeptArea]) -> Result<(), AllocError>
    ensures { OnOk result (map extent_of ranges.new.items
        ≡ map extent_of ranges.old.items ++ map area_range areas.now) }
{
    for area in areas {
        ranges.push(area.span.range())?;
    }
    Ok(())
}

fn push_spans(ranges: &mut Vec<Range>, spans: &[Span]) -> Result<(), AllocError>
    ensures { OnOk result (map extent_of ranges.new.items ≡ map extent_of ranges.old.items ++ spans.now) }
{
    for span in spans {
        ranges.push(span.range())?;
    }
    Ok(())
}
