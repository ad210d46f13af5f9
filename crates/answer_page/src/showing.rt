//! A text of the program shown as a page.
ghost use Rattle.std.specs.Prelude.{◌≡◌, ◌++◌, IfOk, OnOk};
ghost use Rattle.std.specs.List.{flat_map};
ghost use Rattle.answer_page.specs.Pages.{word_html, question_html, date_of, page_date, times, journeys_html, labels_html, page_html};
ghost use Rattle.answer_page.specs.Journeys.{journey_html};
ghost use Rattle.answer_page.specs.Threads.{numbered};
ghost use Rattle.answer_page.specs.Explained.{Explains};

use crate::answer::{Answer, Entry, Step};
use crate::chart::write_chart;
use crate::journeys::write_journey;
use crate::markup::{DAY, LABELS, NO_JOURNEY, PAGE_END, PAGE_START, QUESTION_END, WORD};
use crate::names::Names;
use crate::page::{Page, Value, text};
use crate::reading::{ReadingError, read_answer};
use crate::scale::Scale;
use crate::ways::leave_at;
use folder_io::{Sink, Wrote};
use plan_arguments::WordList;
use std::alloc::{AllocError, Global};

/// What came of showing a text.
#[derive(Clone, Copy, PartialEq, Eq)]
pub enum Shown {
    /// The whole page was written.
    Whole,
    /// The text is no answer, as its line of this number shows; nothing was written.
    Refused(u64),
    /// The write failed; a first part of the page may be written.
    WriteFault,
    /// Want of memory; nothing was written.
    NoMemory,
}

// From the first leave to the last arrival.
fn times(entries: &[Entry<'_>]) -> Scale
    ensures { result ≡ times entries.now }
{
    let mut scale = Scale::none();
    for entry in entries {
        scale = scale.with(leave_at(entry), entry.head.arrival.at);
    }
    scale
}

// The date of a journey: that of its first ride, where it begins with one, and else of its arrival.
fn date_of<'t>(entry: &Entry<'t>) -> &'t [u8]
    ensures { result.now ≡ date_of entry.now }
{
    match entry.steps.items().get(0) {
        Some(Step::Ride(ride)) => ride.departure.date.bytes(),
        _ => entry.head.arrival.date.bytes(),
    }
}

// The date of the page: that of its first journey.
fn page_date<'t>(entries: &[Entry<'t>]) -> &'t [u8]
    ensures { result.now ≡ page_date entries.now }
{
    match entries {
        [entry, ..] => date_of(entry),
        [] => &[],
    }
}

// Adds a word of the question.
fn write_word(page: &mut Page, word: &str) -> Result<(), AllocError>
    ensures { OnOk result (page.new ≡ page.old ++ word_html word.now) }
{
    page.fill(WORD, &[text(word.as_bytes())])
}

// Adds the words of the question.
fn write_words(page: &mut Page, words: &WordList) -> Result<(), AllocError>
    ensures { OnOk result (page.new ≡ page.old ++ flat_map word_html words.now) }
{
    for place in 0..words.len() {
        write_word(page, words.word(place))?;
    }
    Ok(())
}

// Adds the question.
#[tactic(auto, unfolding(crate::specs::Pages::question_html))]
fn write_question(page: &mut Page, words: &WordList) -> Result<(), AllocError>
    ensures { OnOk result (page.new ≡ page.old ++ question_html words.now) }
{
    write_words(page, words)?;
    page.fill(QUESTION_END, &[])
}

// Adds the journeys one by one.
fn write_entries(page: &mut Page, names: &Names, entries: &[Entry<'_>]) -> Result<(), AllocError>
    ensures { OnOk result (page.new ≡ page.old ++ numbered (journey_html names.now (page_date entries.now) (times entries.now)) 1 entries.now) }
{
    let date = page_date(entries);
    let times = times(entries);
    for place in 0..entries.len() {
        write_journey(page, names, date, times, entries, place)?;
    }
    Ok(())
}

// Adds the journeys, behind their picture.
#[tactic(auto, unfolding(crate::specs::Pages::journeys_html))]
fn write_journeys(page: &mut Page, names: &Names, entries: &[Entry<'_>]) -> Result<(), AllocError>
    ensures { OnOk result (page.new ≡ page.old ++ journeys_html names.now entries.now) }
{
    if entries.is_empty() {
        return page.fill(NO_JOURNEY, &[]);
    }
    let date = page_date(entries);
    page.fill(DAY, &[text(date), text(date)])?;
    write_chart(page, entries)?;
    write_entries(page, names, entries)
}

// Adds how many partial journeys the search kept, where that is told.
fn write_labels(page: &mut Page, labels: Option<u64>) -> Result<(), AllocError>
    ensures { OnOk result (page.new ≡ page.old ++ labels_html labels) }
{
    match labels {
        Some(labels) => page.fill(LABELS, &[Value::Number(labels)]),
        None => Ok(()),
    }
}

// The page of an answer to a question, with these names.
#[tactic(auto, unfolding(crate::specs::Pages::page_html))]
fn page_of(
    alloc: Global,
    words: &WordList,
    names: &Names,
    answer: &Answer<'_>,
) -> Result<Page, AllocError>
    ensures { IfOk result (λ page. page ≡ page_html words.now names.now answer.now) }
{
    let mut page = Page::empty(alloc);
    page.fill(PAGE_START, &[])?;
    write_question(&mut page, words)?;
    write_journeys(&mut page, names, answer.entries.items())?;
    write_labels(&mut page, answer.labels)?;
    page.fill(PAGE_END, &[])?;
    Ok(page)
}

/// Shows a text of the program as a page, with these names, above it the words of the question: reads it, and writes the page by
/// one write. Where it is no answer, or memory is wanting, nothing is written, and the sink isn't touched.
pub fn show<S: Sink>(
    alloc: Global,
    text: &[u8],
    words: &WordList,
    names: &Names,
    sink: &mut S,
) -> Shown
    ensures { Explains text.now words.now names.now (S.state sink.old) (S.state sink.new) result }
{
    let answer = match read_answer(alloc, text) {
        Ok(answer) => answer,
        Err(ReadingError::Line(line)) => return Shown::Refused(line),
        Err(ReadingError::NoMemory) => return Shown::NoMemory,
    };
    let Ok(page) = page_of(alloc, words, names, &answer) else {
        return Shown::NoMemory;
    };
    match sink.write(page.bytes()) {
        Wrote::All => Shown::Whole,
        Wrote::Failed => Shown::WriteFault,
    }
}
