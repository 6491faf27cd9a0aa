// Files of rows: sections, and rows of named fields. `lib.rt` says how they are written.
use crate::escapes::push_meant;
use std::alloc::{AllocError, AllocFailed, Global};
use std::str;
use wv_base::OutOfMemory;

/// Why a row isn't tried: memory, or what it lacks.
#[derive(Clone, Copy)]
pub enum NotTried {
    OutOfMemory,
    Lacks(&'static str),
}

impl From<OutOfMemory> for NotTried {
    fn from(_: OutOfMemory) -> Self {
        NotTried::OutOfMemory
    }
}

impl From<AllocError> for NotTried {
    fn from(_: AllocError) -> Self {
        NotTried::OutOfMemory
    }
}

impl<T: Drop> From<AllocFailed<T>> for NotTried {
    fn from(_: AllocFailed<T>) -> Self {
        NotTried::OutOfMemory
    }
}

/// A named part of a row, in the bytes that are meant.
#[derive(Drop)]
struct Field {
    name: String,
    bytes: Vec<u8>,
}

/// What is tried, and what is wanted.
#[derive(Drop)]
pub struct Row {
    pub kind: String,
    pub name: String,
    /// Counted from 1.
    pub line: usize,
    fields: Vec<Field>,
}

impl Row {
    /// A field's bytes. Of several fields of a name the last counts, so that a row's own come before its section's.
    pub fn bytes(&self, name: &str) -> Option<&[u8]> {
        let mut found = None;
        for field in self.fields.as_slice() {
            if field.name.as_str() == name {
                found = Some(field.bytes.as_slice());
            }
        }
        found
    }

    /// A field's text, where it is given.
    pub fn text(&self, name: &str) -> Result<Option<&str>, NotTried> {
        let Some(bytes) = self.bytes(name) else {
            return Ok(None);
        };
        match str::from_utf8(bytes) {
            Ok(text) => Ok(Some(text)),
            Err(_) => Err(NotTried::Lacks("text in UTF-8")),
        }
    }

    /// The text of a field that has to be given.
    pub fn wanted_text(&self, name: &'static str) -> Result<&str, NotTried> {
        match self.text(name)? {
            Some(text) => Ok(text),
            None => Err(NotTried::Lacks(name)),
        }
    }
}

fn is_field(name: &str) -> bool {
    match name {
        "answer" | "certificate" | "edits" | "fails" | "formula" | "hash" => true,
        "lines" | "model" => true,
        "program" | "property" | "segments" | "source" | "text" => true,
        "witness" | "words" | "yaml" => true,
        _ => false,
    }
}

fn copied(alloc: Global, fields: &Vec<Field>) -> Result<Vec<Field>, OutOfMemory> {
    let mut copies = Vec::new(alloc);
    for field in fields.as_slice() {
        copies.push(Field {
            name: field.name.clone()?,
            bytes: field.bytes.clone()?,
        })?;
    }
    Ok(copies)
}

/// The rows up to a line of a file.
#[derive(Drop)]
struct Reader {
    alloc: Global,
    /// What the rows of this section are, and the field that stands before their arrows.
    kind: String,
    given: String,
    /// The edits of the rows before, where a section's rows are edits one upon another.
    upon: Option<Vec<u8>>,
    /// The fields that all rows from here on have.
    shared: Vec<Field>,
    rows: Vec<Row>,
    /// Whether fields belong to the last row.
    in_row: bool,
}

impl Reader {
    fn begin_section(&mut self, head: &str) -> Result<(), OutOfMemory> {
        let (kind, rest) = head.split_once(' ').unwrap_or((head, ""));
        let (given, last) = rest.split_once(' ').unwrap_or((rest, ""));
        self.kind = String::from_str(self.alloc, kind)?;
        self.given = String::from_str(self.alloc, given)?;
        self.upon = if last == "upon another" {
            Some(Vec::new(self.alloc))
        } else {
            None
        };
        self.shared = Vec::new(self.alloc);
        self.in_row = false;
        Ok(())
    }

    fn begin_row(&mut self, line: usize, kind: String, name: &str) -> Result<(), OutOfMemory> {
        self.rows.push(Row {
            kind,
            name: String::from_str(self.alloc, name)?,
            line,
            fields: copied(self.alloc, &self.shared)?,
        })?;
        Ok(())
    }

    /// A line that fits no form is a row of no kind.
    fn begin_odd_row(&mut self, line: usize, text: &str) -> Result<(), OutOfMemory> {
        self.in_row = false;
        self.begin_row(line, String::new(self.alloc), text)
    }

    fn fields(&mut self) -> &mut Vec<Field> {
        match self.rows.last_mut() {
            Some(row) if self.in_row => &mut row.fields,
            _ => &mut self.shared,
        }
    }

    fn push_field(&mut self, name: &str, bytes: Vec<u8>) -> Result<(), OutOfMemory> {
        let name = String::from_str(self.alloc, name)?;
        self.fields().push(Field { name, bytes })?;
        Ok(())
    }

    fn add_field(&mut self, line: usize, text: &str) -> Result<(), OutOfMemory> {
        let (name, value) = text.split_once(' ').unwrap_or((text, ""));
        if !is_field(name) {
            return self.begin_odd_row(line, text);
        }
        let mut bytes = Vec::new(self.alloc);
        push_meant(self.alloc, &mut bytes, value)?;
        self.push_field(name, bytes)
    }

    /// A line of the field that was begun last.
    fn add_line(&mut self, line: usize, text: &str) -> Result<(), OutOfMemory> {
        let alloc = self.alloc;
        match self.fields().last_mut() {
            Some(field) => {
                push_meant(alloc, &mut field.bytes, text)?;
                field.bytes.push(b'\n')?;
                Ok(())
            }
            None => self.begin_odd_row(line, text),
        }
    }

    /// The edits of a row and of the rows before it.
    fn edits_so_far(&mut self, bytes: Vec<u8>) -> Result<Vec<u8>, OutOfMemory> {
        let Some(before) = &mut self.upon else {
            return Ok(bytes);
        };
        if before.len() > 0 {
            before.extend_from_slice(b" | ")?;
        }
        before.extend_from_slice(bytes.as_slice())?;
        Ok(before.clone()?)
    }

    fn add_short_row(&mut self, line: usize, text: &str, answer: &str) -> Result<(), OutOfMemory> {
        let mut given = Vec::new(self.alloc);
        push_meant(self.alloc, &mut given, text)?;
        let given = self.edits_so_far(given)?;
        let mut wanted = Vec::new(self.alloc);
        push_meant(self.alloc, &mut wanted, answer)?;
        let kind = self.kind.clone()?;
        self.begin_row(line, kind, text)?;
        self.in_row = true;
        let name = self.given.clone()?;
        self.push_field(name.as_str(), given)?;
        self.push_field("answer", wanted)?;
        self.in_row = false;
        Ok(())
    }

    fn add(&mut self, line: usize, text: &str) -> Result<(), OutOfMemory> {
        if text.is_empty() || text == "#" || text.starts_with("# ") {
            return Ok(());
        }
        if let Some(head) = text.strip_prefix("rows ") {
            return self.begin_section(head);
        }
        if let Some(name) = text.strip_prefix("== ") {
            let kind = self.kind.clone()?;
            self.in_row = true;
            return self.begin_row(line, kind, name);
        }
        if text == "|" {
            return self.add_line(line, "");
        }
        if let Some(rest) = text.strip_prefix("| ") {
            return self.add_line(line, rest);
        }
        match text.split_once(" => ") {
            Some((given, answer)) => self.add_short_row(line, given, answer),
            None => self.add_field(line, text),
        }
    }
}

/// The rows of a file's text.
pub fn rows_of(alloc: Global, text: &str) -> Result<Vec<Row>, OutOfMemory> {
    let mut reader = Reader {
        alloc,
        kind: String::new(alloc),
        given: String::new(alloc),
        upon: None,
        shared: Vec::new(alloc),
        rows: Vec::new(alloc),
        in_row: false,
    };
    for (index, line) in text.lines().enumerate() {
        reader.add(index.saturating_add(1), line)?;
    }
    Ok(reader.rows)
}
