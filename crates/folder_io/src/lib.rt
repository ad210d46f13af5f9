//! What the program reads files from and writes its text to: a folder and a sink, as traits with a written meaning and a
//! count of faults, the objects in memory and of the system that meet them, and the reading of a feed's files.
#![tactic(auto)]

mod count_sink;
mod fault_count;
mod files;
mod folder;
mod memory_folder;
mod memory_sink;
mod pieces;
mod pieces_since;
mod reading;
mod room;
mod sink;
mod sure_folder;
mod sure_sink;
mod system_folder;
mod system_sink;
mod utf8;

pub use count_sink::CountSink;
pub use files::{ByteText, FILE_COUNT, FileBytes, Files, PLACE_BEHIND, STOP_TIMES_PLACE};
pub use folder::{Folder, Opened, Piece};
pub use memory_folder::MemFolder;
pub use memory_sink::{Cut, MemSink};
pub use pieces::{Pieces, PiecesEnd};
pub use pieces_since::{Beginning, PiecesSince};
pub use reading::{MOST_BYTES, ReadError, read_file, read_files};
pub use sink::{Sink, Wrote};
pub use sure_folder::SureFolder;
pub use sure_sink::SureSink;
pub use system_folder::DirFolder;
pub use system_sink::StdSink;
