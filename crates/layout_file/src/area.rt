//! Areas.

use crate::span::Span;
use layout_model::kind::AreaKind;
use std::marker::Model;
use word_ops::range::Range;

#[derive(Clone, Copy, Debug, PartialEq, Eq, Drop)]
pub struct Area {
    pub range: Range,
    pub kind: AreaKind,
}

/// An area as a layout keeps it.
#[derive(Debug, Drop)]
pub struct KeptArea {
    pub span: Span,
    pub kind: AreaKind,
}

impl Model for KeptArea {
    ghost use Rattle.layout_model.specs.Layouts as layouts;

    ghost Value = { layouts.Area };

    ghost view = { λ area. record { range = area.span; kind = area.kind } };
}

impl KeptArea {
    ghost use Rattle.std.specs.Prelude.{◌≡◌};
    ghost use Rattle.layout_file.specs.Seen.{area_seen};
    ghost use Rattle.layout_model.specs.Facts.{IsAreaRange};

    pub fn area(&self) -> Area
        ensures value { area_seen result ≡ self.now }
        ensures range { IsAreaRange self.now }
    {
        Area {
            range: self.span.range(),
            kind: self.kind,
        }
    }
}
