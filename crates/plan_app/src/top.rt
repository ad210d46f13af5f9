//! The top call.
ghost use Rattle.std.specs.Prelude.{◌≡◌, true, false};
ghost use Rattle.commands.specs.Commands.{read_command};
ghost use Rattle.plan_app.specs.Run.{AnswersAll, Explains, asks_folder, writes_nothing};

use crate::made::made;
use command_answers::{Failure, Status, write_text};
use folder_io::{Folder, Sink, Wrote};
use plan_words::WordList;
use std::alloc::Global;

/// Runs the command that the words name, over a folder, and writes its text to a sink.
///
/// The words are judged first, then the files are read, each once and in order, then they are judged, and then comes what is
/// asked for. Each line is one write; where a file can't be read, or memory is wanting, none is written and the sink isn't
/// touched. After a failed call of the folder or the sink none further is made. A feed that is made by rule takes nothing of
/// the folder.
///
/// An answered plan lists in order exactly the minimal triples of arrival, rides and price among all fare-covered
/// journeys of the query, one entry for each, with such a journey and with tickets of exactly that price; without an
/// entry there is no such journey. With `--stats` a last line tells how many labels the table has from whose finals the
/// entries come, which is sound and closed. A price is the least of all choices of rules and products that pay the
/// rides.
pub fn run<F: Folder, S: Sink>(
    alloc: Global,
    words: &WordList,
    folder: &mut F,
    sink: &mut S,
) -> Status
    ensures causes { Explains words.now (F.state folder.old) (F.state folder.new) (S.state sink.old) (S.state sink.new) result }
    ensures unwritten { writes_nothing result ≡ true → sink.new ≡ sink.old }
    ensures untouched { asks_folder (read_command words.now) ≡ false → folder.new ≡ folder.old }
    ensures answers_all { AnswersAll words.now (F.state folder.old) (F.state folder.new) (S.state sink.old) (S.state sink.new) result }
    ensures source { (F.state folder.new).source ≡ (F.state folder.old).source }
{
    let outcome = match made(alloc, words, folder) {
        Ok(outcome) => outcome,
        Err(Failure::ReadFault) => return Status::ReadFault,
        Err(Failure::NoMemory) => return Status::NoMemory,
    };
    match write_text(sink, &outcome.text) {
        Wrote::All => outcome.told,
        Wrote::Failed => Status::WriteFault,
    }
}
