//! The texts of a layout and of units, and the bytes of an image, from lines of text.

use std::alloc::{AllocError, Global};
use test_images::layouts::{LayoutLines, add_item};
use test_images::lines::image_of;

/// The items of the arrays of a unit.
#[derive(Drop)]
struct UnitLines {
    name: String,
    functions: String,
    variables: String,
    externals: String,
}

/// What lines say.
#[derive(Drop)]
pub struct ProgramLines {
    layout: LayoutLines,
    units: Vec<UnitLines>,
    /// Its lines.
    image: String,
    pub title: String,
}

/// The areas of a layout that names none.
static USUAL_AREAS: [&str; 3] = [
    "code 10010000 10011000",
    "const 10018000 10019000",
    "data 10020000 10021000",
];

/// Instructions, as `MNEMONIC OPERANDS` with `;` between them, as the items of an array.
fn code_items(alloc: Global, text: &str) -> Result<String, AllocError> {
    let mut items = String::new(alloc);
    for instruction in text.split(';') {
        let item = match instruction.trim().split_once(' ') {
            Some((mnemonic, operands)) => format!(in alloc; "[\"{mnemonic}\",{operands}]")?,
            None => format!(in alloc; "[\"{}\"]", instruction.trim())?,
        };
        add_item(&mut items, &item)?;
    }
    Ok(items)
}

impl UnitLines {
    fn new(alloc: Global, name: &str) -> Result<UnitLines, AllocError> {
        Ok(UnitLines {
            name: String::from_str(alloc, name)?,
            functions: String::new(alloc),
            variables: String::new(alloc),
            externals: String::new(alloc),
        })
    }

    /// `NAME CODE`.
    fn add_function(&mut self, alloc: Global, is_static: bool, line: &str) -> Option<()> {
        let (name, code) = line.split_once(' ')?;
        let code = code_items(alloc, code).ok()?;
        let item = format!(in alloc;
            r#"{{"name":"{name}","static":{is_static},"code":[{code}]}}"#
        ).ok()?;
        add_item(&mut self.functions, &item).ok()
    }

    /// `NAME STATIC WRITABLE ALIGN`, and then the items of its data.
    fn add_variable(&mut self, alloc: Global, line: &str) -> Option<()> {
        let mut words = line.split_whitespace();
        let name = words.next()?;
        let is_static = words.next()?;
        let writable = words.next()?;
        let align = words.next()?;
        let init = words.next().unwrap_or("");
        let item = format!(in alloc;
            r#"{{"name":"{name}","static":{is_static},"writable":{writable},"align":{align},"init":[{init}]}}"#
        ).ok()?;
        add_item(&mut self.variables, &item).ok()
    }

    /// `NAME SIGNATURE`.
    fn add_external(&mut self, alloc: Global, line: &str) -> Option<()> {
        let (name, sig) = line.split_once(' ')?;
        let item = format!(in alloc; r#"{{"name":"{name}","sig":{sig}}}"#).ok()?;
        add_item(&mut self.externals, &item).ok()
    }

    fn text(&self, alloc: Global) -> Result<String, AllocError> {
        format!(in alloc;
            r#"{{"valex":"unit","version":1,"unit":"{}","functions":[{}],"variables":[{}],"externals":[{}]}}"#,
            self.name, self.functions, self.variables, self.externals
        )
    }
}

impl ProgramLines {
    fn new(alloc: Global) -> Result<ProgramLines, AllocError> {
        Ok(ProgramLines {
            layout: LayoutLines::new(alloc)?,
            units: Vec::new(alloc),
            image: String::new(alloc),
            title: String::new(alloc),
        })
    }

    fn add_image_line(&mut self, word: &str, line: &str) -> Option<()> {
        self.image.push_str(word).ok()?;
        self.image.push_str(" ").ok()?;
        self.image.push_str(line).ok()?;
        self.image.push_str("\n").ok()
    }

    /// A line, after its first word.
    fn add(&mut self, alloc: Global, word: &str, line: &str) -> Option<()> {
        match word {
            "row" => self.title.push_str(line).ok(),
            "area" | "foreign" | "pin" | "bases" => self.layout.add(alloc, word, line),
            "unit" => self.units.push(UnitLines::new(alloc, line).ok()?).ok(),
            "function" => self.units.last_mut()?.add_function(alloc, false, line),
            "local" => self.units.last_mut()?.add_function(alloc, true, line),
            "variable" => self.units.last_mut()?.add_variable(alloc, line),
            "external" => self.units.last_mut()?.add_external(alloc, line),
            _ => self.add_image_line(word, line),
        }
    }

    /// Where no area is named, adds the usual ones, and a foreign range where none is named either.
    fn add_usual(&mut self, alloc: Global) -> Option<()> {
        if self.layout.has_areas() {
            return Some(());
        }
        if !self.layout.has_foreign() {
            self.layout.add(alloc, "foreign", "10030000 10030100")?;
        }
        for area in &USUAL_AREAS {
            self.layout.add(alloc, "area", *area)?;
        }
        Some(())
    }

    /// What lines say; None for lines of another form and for want of memory.
    pub fn read(alloc: Global, lines: &[String]) -> Option<ProgramLines> {
        let mut program = ProgramLines::new(alloc).ok()?;
        for line in lines {
            if let Some((word, rest)) = line.split_once(' ') {
                program.add(alloc, word, rest)?;
            }
        }
        program.add_usual(alloc)?;
        Some(program)
    }

    /// The text of the layout, whose entry is `main`.
    pub fn layout(&self, alloc: Global) -> Result<String, AllocError> {
        self.layout.text(alloc)
    }

    /// The texts of the units.
    pub fn units(&self, alloc: Global) -> Result<Vec<String>, AllocError> {
        let mut texts = Vec::new(alloc);
        for unit in &self.units {
            texts.push(unit.text(alloc)?)?;
        }
        Ok(texts)
    }

    /// The bytes of the image.
    pub fn image(&self, alloc: Global) -> Option<Vec<u8>> {
        image_of(alloc, &self.image)
    }
}
