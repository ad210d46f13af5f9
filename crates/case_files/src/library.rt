//! The folder of the cases and the feeds that they start from.

use crate::archive::Archive;
use crate::case::Case;
use anyhow::{Context, Result, bail};
use std::alloc::{AllocError, Global};
use std::fs::ReadDir;
use std::{fs, io};

/// A folder with the folders `cases` and `feeds`, whose files are `NAME.txtar`.
#[derive(Drop)]
pub struct Library {
    folder: String,
}

impl Library {
    pub fn new(folder: String) -> Library {
        Library { folder }
    }

    /// The names of all cases, in order.
    ///
    /// # Errors
    /// Want of memory, or a folder that can't be read.
    pub fn case_names(&self, rt: &HostRuntime) -> Result<Vec<String>> {
        let mut names = Vec::new(rt.alloc());
        self.add_case_names(rt, &mut names)
            .context("reading the folder of the cases")?;
        names.sort()?;
        Ok(names)
    }

    // Appends the names of all cases.
    fn add_case_names(&self, rt: &HostRuntime, names: &mut Vec<String>) -> io::Result<()> {
        let folder = self.folder.as_str();
        let folder = format!(in rt.alloc(); "{folder}/cases")?;
        match fs::read_dir(rt, folder.as_str()) {
            Ok(mut entries) => add_names(rt.alloc(), names, &mut entries),
            Err(error) => Err(error),
        }
    }

    /// The case of that name.
    ///
    /// # Errors
    /// Want of memory, or a file that can't be read or is no case.
    pub fn case(&self, rt: &HostRuntime, name: &str) -> Result<Case> {
        let sections = self.archive(rt, "cases", name)?;
        let feed = self.feed_of(rt, &sections)?;
        Case::new(rt.alloc(), sections, feed)
    }

    // The sections of the feed that the case of these sections starts from; none where it names none.
    fn feed_of(&self, rt: &HostRuntime, sections: &Archive) -> Result<Archive> {
        if sections.text_of("feed").is_none() {
            return Ok(Archive::empty(rt.alloc()));
        }
        match sections.line_of("feed") {
            Some(name) => self.archive(rt, "feeds", name),
            None => bail!("the name of the feed is not one line"),
        }
    }

    // The sections of the file of that name in that folder.
    fn archive(&self, rt: &HostRuntime, folder: &str, name: &str) -> Result<Archive> {
        let library = self.folder.as_str();
        let path = format!(in rt.alloc(); "{library}/{folder}/{name}.txtar")?;
        archive_at(rt, path.as_str()).context(path)
    }
}

// The sections of the file at that path.
fn archive_at(rt: &HostRuntime, path: &str) -> Result<Archive> {
    let text = fs::read(rt, path)?;
    if !text.ends_with(b"\n") {
        bail!("it does not end with a line feed");
    }
    Ok(Archive::parse(rt.alloc(), text.as_slice())?)
}

// Appends the names of the cases that the entries of a folder are.
fn add_names(
    alloc: Global,
    names: &mut Vec<String>,
    entries: &mut ReadDir<HostRuntime>,
) -> io::Result<()> {
    for entry in entries {
        add_name(alloc, names, entry?.file_name())?;
    }
    Ok(())
}

// Appends the name of the case that the file is. One that is none has its whole name, and a case of that name is missing.
fn add_name(alloc: Global, names: &mut Vec<String>, file: &str) -> Result<(), AllocError> {
    let name = file.strip_suffix(".txtar").unwrap_or(file);
    names.push(String::from_str(alloc, name)?)?;
    Ok(())
}
