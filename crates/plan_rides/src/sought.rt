//! For which queries rides are sought, and where these may board.
ghost use Rattle.std.specs.Prelude.{◌≡◌, length, IfOk};
ghost use Rattle.feed_rows.specs.JourneyStands.{first_stand};
ghost use Rattle.feed_rows.specs.declared.journeys.Query.{Query};
ghost use Rattle.plan_rides.specs.Boarding.{AddsMarks, AreFirstMarks, AreMarks, MarksFirsts, MarksFrom, is_marked, seeking};

use crate::scope::Scope;
use feed_timetable::Timetable;
use plan_patterns::Span;
use std::alloc::{AllocError, Global};
use std::marker::Model;
use transit_base::StopId;

/// A scope, with marks of the stops at which rides of its queries may board, so that no departures are listed from others.
/// Contracts see it as these two.
pub struct Sought {
    scope: Scope,
    /// By stop. A stop past their end counts as marked.
    marks: Vec<bool>,
}

// Written out, so that what holds one needn't look into it to let go of it.
impl Drop for Sought {
    fn drop(self) {
        let Sought { scope: _, marks: _ } = self;
    }
}

impl Model for Sought {
    ghost use Rattle.plan_rides.specs.Boarding.{Seeking, seeking};

    ghost Value = { Seeking };

    ghost view = { λ s. seeking s.scope s.marks.items };
}

impl Sought {
    /// The scope over the timetable. Where it is of one ride alone, the stops are marked at which that may board.
    ///
    /// # Errors
    /// Want of memory.
    pub fn new(alloc: Global, timetable: &Timetable, scope: &Scope) -> Result<Sought, AllocError>
        ensures scope { IfOk result (λ sought. sought.scope ≡ scope.now) }
        ensures marks { IfOk result (λ sought. AreMarks timetable.now sought) }
    {
        let marks = marks_of(alloc, timetable, scope)?;
        Ok(Sought {
            scope: *scope,
            marks,
        })
    }

    /// The span.
    pub fn span(&self) -> &Span
        ensures { result.now ≡ self.now.scope.span }
    {
        &self.scope.span
    }

    /// The greatest number of rides.
    pub fn rides(&self) -> u8
        ensures { result ≡ self.now.scope.rides }
    {
        self.scope.rides
    }

    /// Whether the stop is marked.
    pub fn boards_at(&self, stop: StopId) -> bool
        ensures { result ≡ is_marked self.now.marks stop.0 }
    {
        let stop = stop.0 as usize;
        stop >= self.marks.len() || self.marks[stop]
    }
}

// The marks of the stops at which rides of the scope's queries may board.
fn marks_of(alloc: Global, timetable: &Timetable, scope: &Scope) -> Result<Vec<bool>, AllocError>
    ensures { IfOk result (λ marks. AreMarks timetable.now (seeking scope.now marks.items)) }
{
    if scope.rides > 1 {
        return Ok(Vec::new(alloc));
    }
    first_marks(alloc, timetable, scope.from)
}

// The marks of the stops at which a first ride from the stop may board.
fn first_marks(alloc: Global, timetable: &Timetable, from: StopId) -> Result<Vec<bool>, AllocError>
    ensures { IfOk result (λ marks. AreFirstMarks timetable.now from marks.items) }
{
    let stops = timetable.feed().stops.items().len();
    let mut marks = vec![in alloc; false; stops]?;
    mark_all(timetable, timetable.members(from), &mut marks);
    Ok(marks)
}

// Marks the stops at which a first ride may board from these first stops.
fn mark_all(timetable: &Timetable, firsts: &[StopId], marks: &mut [bool])
    requires { length marks.old ≡ length timetable.now.stops }
    ensures many { length marks.new ≡ length marks.old }
    ensures all { (query : Query) → MarksFirsts timetable.now query firsts.now (length firsts.now) marks.new }
{
    for k in 0..firsts.len() {
        mark_from(timetable, firsts[k], marks);
    }
}

// Marks the stops at which a first ride may board from a first stop.
fn mark_from(timetable: &Timetable, first: StopId, marks: &mut [bool])
    requires { length marks.old ≡ length timetable.now.stops }
    ensures adds { AddsMarks (λ stop. stop ≡ first.0) marks.old marks.new }
    ensures all { (query : Query) → MarksFrom timetable.now query marks.new (first_stand query first) }
{
    mark(marks, first);
    let walks = timetable.walks_from(first);
    for k in 0..walks.len() {
        mark(marks, walks[k].to);
    }
}

// Marks the stop.
fn mark(marks: &mut [bool], stop: StopId)
    ensures { AddsMarks (λ other. other ≡ stop.0) marks.old marks.new }
{
    let stop = stop.0 as usize;
    if stop < marks.len() {
        marks[stop] = true;
    }
}
