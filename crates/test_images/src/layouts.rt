//! Layouts as lines of text.

use std::alloc::{AllocError, Global};

/// What lines say of a layout. Each of the first three has the items of one array of its file, the others are digits.
#[derive(Drop)]
pub struct LayoutLines {
    areas: String,
    foreign: String,
    pins: String,
    stack: String,
    r13: String,
    r2: String,
}

/// Adds an item behind a comma, where it is not the first.
pub fn add_item(items: &mut String, item: &str) -> Result<(), AllocError> {
    if !items.is_empty() {
        items.push_str(",")?;
    }
    items.push_str(item)
}

/// `LO HI`, as the two ends of a range.
fn range_of(alloc: Global, line: &str) -> Option<String> {
    let (lo, hi) = line.split_once(' ')?;
    format!(in alloc; r#"["0x{lo}","0x{hi}"]"#).ok()
}

impl LayoutLines {
    pub fn new(alloc: Global) -> Result<LayoutLines, AllocError> {
        Ok(LayoutLines {
            areas: String::new(alloc),
            foreign: String::new(alloc),
            pins: String::new(alloc),
            stack: String::from_str(alloc, r#"["0x20000000","0x20010000"]"#)?,
            r13: String::from_str(alloc, "10038000")?,
            r2: String::from_str(alloc, "10048000")?,
        })
    }

    pub fn has_areas(&self) -> bool {
        !self.areas.is_empty()
    }

    pub fn has_foreign(&self) -> bool {
        !self.foreign.is_empty()
    }

    /// `KIND LO HI`. Its name is its kind.
    fn add_area(&mut self, alloc: Global, line: &str) -> Option<()> {
        let (kind, range) = line.split_once(' ')?;
        let range = range_of(alloc, range)?;
        let item = format!(in alloc;
            r#"{{"name":"{kind}","range":{range},"kind":"{kind}"}}"#
        ).ok()?;
        add_item(&mut self.areas, &item).ok()
    }

    fn add_foreign(&mut self, alloc: Global, line: &str) -> Option<()> {
        let item = range_of(alloc, line)?;
        add_item(&mut self.foreign, &item).ok()
    }

    /// `UNIT NAME ADDRESS`, with `-` for no unit.
    fn add_pin(&mut self, alloc: Global, line: &str) -> Option<()> {
        let (unit, rest) = line.split_once(' ')?;
        let (name, address) = rest.split_once(' ')?;
        let unit = match unit {
            "-" => String::from_str(alloc, "null").ok()?,
            _ => format!(in alloc; "\"{unit}\"").ok()?,
        };
        let item = format!(in alloc;
            r#"{{"unit":{unit},"name":"{name}","address":"0x{address}"}}"#
        ).ok()?;
        add_item(&mut self.pins, &item).ok()
    }

    fn set_stack(&mut self, alloc: Global, line: &str) -> Option<()> {
        self.stack = range_of(alloc, line)?;
        Some(())
    }

    /// `R13 R2`.
    fn set_bases(&mut self, alloc: Global, line: &str) -> Option<()> {
        let (r13, r2) = line.split_once(' ')?;
        self.r13 = String::from_str(alloc, r13).ok()?;
        self.r2 = String::from_str(alloc, r2).ok()?;
        Some(())
    }

    /// A line, after its first word; None for another word or form, and for want of memory.
    pub fn add(&mut self, alloc: Global, word: &str, line: &str) -> Option<()> {
        match word {
            "area" => self.add_area(alloc, line),
            "foreign" => self.add_foreign(alloc, line),
            "pin" => self.add_pin(alloc, line),
            "stack" => self.set_stack(alloc, line),
            "bases" => self.set_bases(alloc, line),
            _ => None,
        }
    }

    /// The layout's text. The entry is `main`, the stop point 0x10000000.
    pub fn text(&self, alloc: Global) -> Result<String, AllocError> {
        format!(in alloc;
            r#"{{"valex":"layout","version":1,"entry":"main","stop":"0x10000000","stack":{},"r13":"0x{}","r2":"0x{}","areas":[{}],"foreign":[{}],"pins":[{}]}}"#,
            self.stack, self.r13, self.r2, self.areas, self.foreign, self.pins
        )
    }
}

/// The text of the layout of lines, or of empty ones. Numbers are hexadecimal; with no line for them the stack is 20000000 to 20010000,
/// r13 10038000 and r2 10048000.
/// ```text
/// stack 20000000 20000010
/// bases 10038000 10048000
/// area code 10010000 10011000
/// foreign 10020000 10020100
/// pin a.c h 10018000
/// ```
/// None for a line of another form, and for want of memory.
pub fn layout_of(alloc: Global, text: &str) -> Option<String> {
    let mut lines = LayoutLines::new(alloc).ok()?;
    for line in text.split('\n') {
        if !line.is_empty() {
            let (word, rest) = line.split_once(' ')?;
            lines.add(alloc, word, rest)?;
        }
    }
    lines.text(alloc).ok()
}
