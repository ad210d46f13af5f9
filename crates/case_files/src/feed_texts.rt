//! The files of a feed, from sections.
ghost use Rattle.std.specs.Prelude.{◌≡◌, true, IfOk, IsTrue, OnOk};
ghost use Rattle.folder_io.specs.KeptFiles.{are_whole};

use crate::archive::Archive;
use feed_files::FileName;
use folder_io::{ByteText, FileBytes, Files};
use std::alloc::{AllocError, Global};

// Files that a feed may have and that are never opened.
const UNOPENED: [&str; 13] = [
    "agency.txt",
    "attributions.txt",
    "booking_rules.txt",
    "fare_attributes.txt",
    "fare_rules.txt",
    "feed_info.txt",
    "levels.txt",
    "location_group_stops.txt",
    "location_groups.txt",
    "locations.geojson",
    "pathways.txt",
    "shapes.txt",
    "translations.txt",
];

/// The name of the first section that is neither a file nor one of these, if there is one.
pub fn unknown_name<'a>(archive: &'a Archive, others: &[&str]) -> Option<&'a str> {
    for section in archive.sections() {
        let name = section.name();
        if file_named(name).is_none() && !is_among(&UNOPENED, name) && !is_among(others, name) {
            return Some(name);
        }
    }
    None
}

/// The files of a feed, where those of its own sections count in place of those that it starts from.
///
/// # Errors
/// Want of memory.
pub fn files_of(alloc: Global, start: &Archive, own: &Archive) -> Result<Files, AllocError>
    ensures { IfOk result (λ files. IsTrue (are_whole files)) }
{
    let mut files = Files::empty();
    put_files(&mut files, alloc, start)?;
    put_files(&mut files, alloc, own)?;
    Ok(files)
}

// Puts the files that the sections hold. Of two of one name the later one counts.
fn put_files(files: &mut Files, alloc: Global, archive: &Archive) -> Result<(), AllocError>
    ensures { are_whole files.old ≡ true → OnOk result (are_whole files.new ≡ true) }
{
    for section in archive.sections() {
        if let Some(name) = file_named(section.name()) {
            let bytes = ByteText::copy_of(alloc, section.text())?;
            files.put(name, FileBytes::Bytes(bytes));
        }
    }
    Ok(())
}

// Whether the name is one of these.
fn is_among(names: &[&str], name: &str) -> bool {
    for other in names {
        if *other == name {
            return true;
        }
    }
    false
}

// The file of that name, if it is one of a feed.
fn file_named(name: &str) -> Option<FileName> {
    for file in FileName::all() {
        if file.text() == name {
            return Some(*file);
        }
    }
    None
}
