//! Names of stops, and names and colours of lines, as a feed's files give them.
ghost use Rattle.std.specs.Prelude.{◌≡◌, ◌∷◌, [], OnOk, IfOk, IfErr, Some, List, ℕ, true, get_or};
ghost use Rattle.std.specs.Char.{is_ascii_hexdigit};
ghost use Rattle.std.specs.List.{list_all};
ghost use Rattle.feed_files.specs.FaultCounts.{Stayed};
ghost use Rattle.feed_files.specs.HeldFiles.{held};
ghost use Rattle.feed_faults.specs.Records.{FileTable};
ghost use Rattle.feed_text.specs.Reader.{StandsBehind, GoesOn, is_going, last_record};
ghost use Rattle.folder_io.specs.FileReading.{GivesUp};
ghost use Rattle.folder_io.specs.FolderCalls.{WhereTold};
ghost use Rattle.folder_io.specs.KeptFiles.{held_of};
ghost use Rattle.answer_page.specs.Names.{no_names, names_in, name_in, with_pair, NamesRows, filled_or, is_colour, palette_place, column_place, cell};
ghost use Rattle.answer_page.specs.LineNames.{nothing_named, stop_name, line_name, line_colour, palette, held_names, held_lines, names_of_files};

use feed_files::FileName;
use feed_text::{Records, is_text};
use folder_io::{FileBytes, Folder, MOST_BYTES, ReadError, read_file};
use item_groups::Groups;
use std::alloc::{AllocError, Global};
use std::marker::Model;

/// What a column of a file names by the ids of another, row by row. Contracts see it as the two columns.
#[derive(Drop)]
pub struct NameList {
    ids: Groups<u8>,
    names: Groups<u8>,
}

impl Model for NameList {
    ghost use Rattle.answer_page.specs.Names.{NamePairs};

    ghost Value = { NamePairs };

    ghost view = { λ list. record { ids = list.ids; names = list.names } };
}

// Reads the next record of bytes in memory that are text, which fails for want of memory alone.
fn next_of(records: &mut Records<&[u8]>) -> Result<bool, AllocError>
    requires { is_going records.old ≡ true }
    ensures going { IfOk result (λ found. is_going records.new ≡ found) }
    ensures goes_on { IfOk result (λ found. (text : List ℕ) (table : FileTable) → StandsBehind (λ s. Some s.now) (Some text) table records.old → GoesOn (λ s. Some s.now) (Some text) table found records.new) }
{
    match records.next() {
        Ok(found) => Ok(found),
        Err(_) => Err(AllocError),
    }
}

// The place of a column in the last record, which is the header.
fn place_of(records: &Records<&[u8]>, name: &str) -> Option<usize>
    ensures { result ≡ column_place (last_record records.now) name.now }
{
    for place in 0..records.len() {
        if records.field(place) == name.as_bytes() {
            return Some(place);
        }
    }
    None
}

// The field of the last record in a column; empty where there is none.
fn cell<'r>(records: &'r Records<&[u8]>, place: Option<usize>) -> &'r [u8]
    ensures { result.now ≡ cell place (last_record records.now) }
{
    match place {
        Some(place) => records.field(place),
        None => &[],
    }
}

impl NameList {
    /// Nothing is named.
    pub fn none(alloc: Global) -> NameList
        ensures { result ≡ no_names }
    {
        NameList {
            ids: Groups::empty(alloc),
            names: Groups::empty(alloc),
        }
    }

    // Adds a row.
    fn push(&mut self, id: &[u8], name: &[u8]) -> Result<(), AllocError>
        ensures { OnOk result (self.new ≡ with_pair self.old id.now name.now) }
    {
        self.ids.push(id)?;
        self.names.push(name)
    }

    // Adds what columns name in the rows that are left, where the header was the last record.
    fn push_rows(
        &mut self,
        records: &mut Records<&[u8]>,
        id: Option<usize>,
        name: Option<usize>,
    ) -> Result<(), AllocError>
        requires going { is_going records.old ≡ true }
        requires empty { self.old ≡ no_names }
        ensures { OnOk result ((text : List ℕ) (header : List (List ℕ)) → StandsBehind (λ s. Some s.now) (Some text) (header ∷ []) records.old → NamesRows text header id name self.new) }
    {
        for _ in 0..u64::MAX {
            if !next_of(records)? {
                return Ok(());
            }
            self.push(cell(records, id), cell(records, name))?;
        }
        Err(AllocError)
    }

    /// What a file's bytes name: nothing, where they are no text.
    ///
    /// # Errors
    /// Want of memory.
    #[tactic(auto, unfolding(crate::specs::Names::names_in))]
    pub fn read(alloc: Global, bytes: &[u8], id: &str, name: &str) -> Result<NameList, AllocError>
        ensures { IfOk result (λ list. list ≡ names_in bytes.now id.now name.now) }
    {
        let mut list = NameList::none(alloc);
        if !is_text(bytes) {
            return Ok(list);
        }
        let mut records = Records::of(alloc, bytes);
        if !next_of(&mut records)? {
            return Ok(list);
        }
        let id = place_of(&records, id);
        let name = place_of(&records, name);
        list.push_rows(&mut records, id, name)?;
        Ok(list)
    }

    /// The name of the first row with this id; empty where there is none.
    #[tactic(auto, unfolding(crate::specs::Names::name_in))]
    pub fn get(&self, id: &[u8]) -> &[u8]
        ensures { result.now ≡ name_in self.now id.now }
    {
        for place in 0..self.ids.count() {
            if self.ids.get(place) == id {
                return self.names.get(place);
            }
        }
        &[]
    }
}

/// What the routes of a feed are called, and their colours, by route.
#[derive(Drop)]
pub struct LineNames {
    pub short: NameList,
    pub long: NameList,
    pub colours: NameList,
}

/// The names of stops, and of lines with their colours.
#[derive(Drop)]
pub struct Names {
    /// By stop.
    pub stops: NameList,
    /// The routes, by trip.
    pub routes: NameList,
    pub lines: LineNames,
}

impl Names {
    /// Nothing is named.
    pub fn none(alloc: Global) -> Names
        ensures { result ≡ nothing_named }
    {
        Names {
            stops: NameList::none(alloc),
            routes: NameList::none(alloc),
            lines: LineNames {
                short: NameList::none(alloc),
                long: NameList::none(alloc),
                colours: NameList::none(alloc),
            },
        }
    }

    /// The name of a stop, and its id where it has none.
    pub fn stop<'n>(&'n self, id: &'n [u8]) -> &'n [u8]
        ensures { result.now ≡ stop_name self.now id.now }
    {
        filled_or(self.stops.get(id), id)
    }

    /// The name of a trip's line: the short one of its route, or the long one, or the route's id, or that of the trip.
    pub fn line<'n>(&'n self, trip: &'n [u8]) -> &'n [u8]
        ensures { result.now ≡ line_name self.now trip.now }
    {
        let route = self.routes.get(trip);
        filled_or(
            self.lines.short.get(route),
            filled_or(self.lines.long.get(route), filled_or(route, trip)),
        )
    }

    /// The colour of a trip's line, as six hexadecimal digits: that of its route, or one of the palette.
    #[tactic(auto, unfolding(crate::specs::LineNames::line_colour))]
    pub fn colour<'n>(&'n self, trip: &'n [u8]) -> &'n [u8]
        ensures { result.now ≡ line_colour self.now trip.now }
    {
        let colour = self.lines.colours.get(self.routes.get(trip));
        if is_colour(colour) {
            colour
        } else {
            palette_colour(self.line(trip))
        }
    }
}

// The text, or another where it is empty.
fn filled_or<'n>(text: &'n [u8], other: &'n [u8]) -> &'n [u8]
    ensures { result.now ≡ filled_or text.now other.now }
{
    if text.is_empty() { other } else { text }
}

// Whether all bytes are hexadecimal digits.
fn are_digits(text: &[u8]) -> bool
    ensures { result ≡ list_all is_ascii_hexdigit text.now }
{
    text.iter().all(|byte| byte.is_ascii_hexdigit())
}

// Whether a text is six hexadecimal digits.
fn is_colour(text: &[u8]) -> bool
    ensures { result ≡ is_colour text.now }
{
    text.len() == 6 && are_digits(text)
}

// A colour of the palette, by the first and the last byte of a line's name, so that most lines of a journey differ.
fn palette_colour(line: &[u8]) -> &'static [u8]
    ensures { result.now ≡ get_or palette (palette_place line.now) [] }
{
    let first = line.first().copied().unwrap_or(0);
    let last = line.last().copied().unwrap_or(0);
    match (u32::from(first) + 3 * u32::from(last)) % 8 {
        0 => b"2f6fb7",
        1 => b"c2572b",
        2 => b"3b8a4e",
        3 => b"8a4fa3",
        4 => b"b8860b",
        5 => b"007f86",
        6 => b"b23a62",
        _ => b"5c6470",
    }
}

// What a file names, where the folder holds it.
fn names_of(alloc: Global, file: &FileBytes, id: &str, name: &str) -> Result<NameList, AllocError>
    ensures { IfOk result (λ list. list ≡ held_names (held_of file.now) id.now name.now) }
{
    match file {
        FileBytes::Bytes(text) => NameList::read(alloc, text.bytes(), id, name),
        FileBytes::Absent | FileBytes::TooLarge => Ok(NameList::none(alloc)),
    }
}

// What a file of the folder names.
fn read_list<F: Folder>(
    alloc: Global,
    folder: &mut F,
    file: FileName,
    id: &str,
    name: &str,
) -> Result<NameList, ReadError>
    ensures names { IfOk result (λ list. WhereTold (F.state folder.old) (λ contents. list ≡ held_names (held contents file) id.now name.now)) }
    ensures ok { OnOk result (Stayed (F.state folder.old).faults (F.state folder.new).faults) }
    ensures err { IfErr result (λ error. GivesUp error (F.state folder.old) (F.state folder.new)) }
    ensures source { (F.state folder.new).source ≡ (F.state folder.old).source }
{
    let bytes = read_file(alloc, folder, file, MOST_BYTES)?;
    Ok(names_of(alloc, &bytes, id, name)?)
}

// What the file of routes names.
fn read_lines<F: Folder>(alloc: Global, folder: &mut F) -> Result<LineNames, ReadError>
    ensures names { IfOk result (λ lines. WhereTold (F.state folder.old) (λ contents. lines ≡ held_lines (held contents FileName.Routes))) }
    ensures ok { OnOk result (Stayed (F.state folder.old).faults (F.state folder.new).faults) }
    ensures err { IfErr result (λ error. GivesUp error (F.state folder.old) (F.state folder.new)) }
    ensures source { (F.state folder.new).source ≡ (F.state folder.old).source }
{
    let bytes = read_file(alloc, folder, FileName::Routes, MOST_BYTES)?;
    Ok(LineNames {
        short: names_of(alloc, &bytes, "route_id", "route_short_name")?,
        long: names_of(alloc, &bytes, "route_id", "route_long_name")?,
        colours: names_of(alloc, &bytes, "route_id", "route_color")?,
    })
}

/// The names that a folder's files give.
///
/// # Errors
/// A call of the folder failed, after which no further one was made; want of memory.
pub fn read_names<F: Folder>(alloc: Global, folder: &mut F) -> Result<Names, ReadError>
    ensures names { IfOk result (λ names. WhereTold (F.state folder.old) (λ contents. names ≡ names_of_files (held contents))) }
    ensures ok { OnOk result (Stayed (F.state folder.old).faults (F.state folder.new).faults) }
    ensures err { IfErr result (λ error. GivesUp error (F.state folder.old) (F.state folder.new)) }
    ensures source { (F.state folder.new).source ≡ (F.state folder.old).source }
{
    Ok(Names {
        stops: read_list(alloc, folder, FileName::Stops, "stop_id", "stop_name")?,
        routes: read_list(alloc, folder, FileName::Trips, "trip_id", "route_id")?,
        lines: read_lines(alloc, folder)?,
    })
}
