//! Texts in sections, in the form `txtar`: a comment, and then each section behind a line `-- NAME --`.

use bstr::ByteSlice;
use std::alloc::{AllocError, Global};
use std::str;

/// A section: its name, and all lines behind the line that names it.
#[derive(Drop)]
pub struct Section {
    name: String,
    lines: Vec<u8>,
}

impl Section {
    /// The name.
    pub fn name(&self) -> &str {
        self.name.as_str()
    }

    /// The lines as one text. It ends with a line feed, but where its last line ends with `\`: there neither the `\` nor
    /// the line feed belongs to it.
    pub fn text(&self) -> &[u8] {
        let lines = self.lines.as_slice();
        lines.strip_suffix(b"\\\n").unwrap_or(lines)
    }
}

/// The sections of a text, in order.
pub struct Archive {
    sections: Vec<Section>,
}

// Written out, so that what holds one needn't look into it to let go of it.
impl Drop for Archive {
    fn drop(self) {
        let Archive { sections: _ } = self;
    }
}

impl Archive {
    /// No sections.
    pub fn empty(alloc: Global) -> Archive {
        Archive {
            sections: Vec::new(alloc),
        }
    }

    /// The sections of the text, each of whose lines ends with a line feed. What stands before the first is a comment.
    ///
    /// # Errors
    /// Want of memory.
    pub fn parse(alloc: Global, text: &[u8]) -> Result<Archive, AllocError> {
        let mut archive = Archive::empty(alloc);
        for line in text.lines_with_terminator() {
            archive.take(alloc, line)?;
        }
        Ok(archive)
    }

    // Takes the line: it starts a section, or stands behind the lines of the last one.
    fn take(&mut self, alloc: Global, line: &[u8]) -> Result<(), AllocError> {
        match section_name(line) {
            Some(name) => self.start(alloc, name),
            None => self.push_line(line),
        }
    }

    // Starts a section of that name.
    fn start(&mut self, alloc: Global, name: &str) -> Result<(), AllocError> {
        let name = String::from_str(alloc, name)?;
        let lines = Vec::new(alloc);
        self.sections.push(Section { name, lines })?;
        Ok(())
    }

    // Puts the line behind those of the last section, if there is one.
    fn push_line(&mut self, line: &[u8]) -> Result<(), AllocError> {
        match self.sections.last_mut() {
            Some(section) => section.lines.extend_from_slice(line),
            None => Ok(()),
        }
    }

    /// The sections.
    pub fn sections(&self) -> &[Section] {
        self.sections.as_slice()
    }

    /// The text of the first section of that name, if there is one.
    pub fn text_of(&self, name: &str) -> Option<&[u8]> {
        match first_named(self.sections.as_slice(), name) {
            Some(section) => Some(section.text()),
            None => None,
        }
    }

    /// The same, as characters; none where it is not UTF-8.
    pub fn str_of(&self, name: &str) -> Option<&str> {
        str::from_utf8(self.text_of(name)?).ok()
    }

    /// The line that this text is, if it is one.
    pub fn line_of(&self, name: &str) -> Option<&str> {
        let (line, rest) = self.str_of(name)?.split_once('\n')?;
        if rest.is_empty() { Some(line) } else { None }
    }

    /// The name of the first section whose name an earlier one has, if there is one.
    pub fn doubled_name(&self) -> Option<&str> {
        let sections = self.sections.as_slice();
        for place in 0..sections.len() {
            let name = sections[place].name();
            if first_named(&sections[..place], name).is_some() {
                return Some(name);
            }
        }
        None
    }
}

// The first of the sections that has that name.
fn first_named<'a>(sections: &'a [Section], name: &str) -> Option<&'a Section> {
    for section in sections {
        if section.name() == name {
            return Some(section);
        }
    }
    None
}

// The name that the line gives to the section behind it, if it starts one.
fn section_name(line: &[u8]) -> Option<&str> {
    let name = line.strip_prefix(b"-- ")?.strip_suffix(b" --\n")?;
    str::from_utf8(name).ok()
}
