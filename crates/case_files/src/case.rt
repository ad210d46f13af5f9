//! A case: words, a feed, and what must come.
ghost use Rattle.std.specs.Prelude.{IfOk, IsTrue};
ghost use Rattle.folder_io.specs.KeptFiles.{are_whole};

use crate::archive::Archive;
use crate::failing_call::FailingCall;
use crate::feed_texts::{files_of, unknown_name};
use crate::texts::{are_triples, has_lines};
use anyhow::{Result, bail};
use folder_io::Files;
use plan_arguments::WordList;
use std::alloc::{AllocError, Global};

// The sections of a case that are no files.
const SECTIONS: [&str; 8] = [
    "words",
    "stdin",
    "status",
    "stdout",
    "journey lines",
    "lines among them",
    "feed",
    "failing calls",
];

/// A case: its sections, those of the feed that it starts from, and what they say.
pub struct Case {
    sections: Archive,
    feed: Archive,
    words: WordList,
    /// The calls that fail in turn, each in a run of its own.
    failing_calls: Vec<FailingCall>,
    status: u8,
}

// Written out, so that what holds one needn't look into it to let go of it.
impl Drop for Case {
    fn drop(self) {
        let Case {
            sections: _,
            feed: _,
            words: _,
            failing_calls: _,
            status: _,
        } = self;
    }
}

impl Case {
    /// The case of these sections. The files are those of the feed that it starts from, and its own in their place.
    ///
    /// # Errors
    /// Want of memory, or sections that are no case.
    pub fn new(alloc: Global, sections: Archive, feed: Archive) -> Result<Case> {
        let mut case = Case {
            sections,
            feed,
            words: WordList::empty(alloc),
            failing_calls: Vec::new(alloc),
            status: 0,
        };
        case.read(alloc)?;
        Ok(case)
    }

    // Reads what the sections say.
    fn read(&mut self, alloc: Global) -> Result<()> {
        check_names(&self.sections, &self.feed)?;
        let Some(status) = status_of(&self.sections) else {
            bail!("the status is no line with a number up to 255");
        };
        self.status = status;
        let Some(words) = self.sections.str_of("words") else {
            bail!("there is no section of words in UTF-8");
        };
        add_words(&mut self.words, words)?;
        if !add_calls(&mut self.failing_calls, &self.sections)? {
            bail!("the calls that fail are not named one a line");
        }
        Ok(())
    }

    /// The words.
    pub fn words(&self) -> &WordList {
        &self.words
    }

    /// The text that is given; empty where there is none.
    pub fn input(&self) -> &[u8] {
        self.sections.text_of("stdin").unwrap_or(&[])
    }

    /// The calls that fail in turn, each in a run of its own.
    pub fn failing_calls(&self) -> &[FailingCall] {
        self.failing_calls.as_slice()
    }

    /// The files of the feed.
    ///
    /// # Errors
    /// Want of memory.
    pub fn files(&self, alloc: Global) -> Result<Files, AllocError>
        ensures { IfOk result (λ files. IsTrue (are_whole files)) }
    {
        files_of(alloc, &self.feed, &self.sections)
    }

    /// Whether a run with this status and this text came to what the case says: to its very text, or to one with journeys
    /// of its arrivals, rides and prices, a line for each and in order, and with its lines.
    pub fn is_met(&self, status: u8, text: &[u8]) -> bool {
        if status != self.status {
            return false;
        }
        match self.sections.text_of("stdout") {
            Some(wanted) => text == wanted,
            None => {
                are_triples(text, self.sections.text_of("journey lines").unwrap_or(&[]))
                    && has_lines(
                        text,
                        self.sections.text_of("lines among them").unwrap_or(&[]),
                    )
            }
        }
    }
}

// Refuses names of sections that are no case.
fn check_names(sections: &Archive, feed: &Archive) -> Result<()> {
    if let Some(name) = sections.doubled_name() {
        bail!("there are two sections {name:?}");
    }
    if let Some(name) = unknown_name(sections, &SECTIONS).or(unknown_name(feed, &[])) {
        bail!("the section {name:?} is neither known nor a file");
    }
    if !says_what_must_come(sections) {
        bail!("what must come is neither a text nor journey lines");
    }
    Ok(())
}

// Whether what must come is a text, or journey lines with or without lines among them.
fn says_what_must_come(sections: &Archive) -> bool {
    match sections.text_of("stdout") {
        Some(_) => {
            sections.text_of("journey lines").is_none()
                && sections.text_of("lines among them").is_none()
        }
        None => sections.text_of("journey lines").is_some(),
    }
}

// The status, if there is one.
fn status_of(sections: &Archive) -> Option<u8> {
    sections.line_of("status")?.parse::<u8>().ok()
}

// Adds the words, one a line.
fn add_words(words: &mut WordList, lines: &str) -> Result<(), AllocError> {
    for word in lines.split_terminator('\n') {
        words.push(word)?;
    }
    Ok(())
}

// Adds the calls that fail, one a line; without a section of them all go well, in one run. Answers whether each line names
// one, and there is one.
fn add_calls(calls: &mut Vec<FailingCall>, sections: &Archive) -> Result<bool, AllocError> {
    if sections.text_of("failing calls").is_none() {
        calls.push(FailingCall::NONE)?;
        return Ok(true);
    }
    let lines = sections.str_of("failing calls").unwrap_or("");
    for line in lines.split_terminator('\n') {
        let Some(call) = FailingCall::parse(line) else {
            return Ok(false);
        };
        calls.push(call)?;
    }
    Ok(!calls.is_empty())
}
