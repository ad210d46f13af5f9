//! A call of the folder or of the sink that fails.

use folder_io::Cut;

/// The call that fails in a run, by its number among its like, counted from 1; none where all go well.
#[derive(Clone, Copy)]
pub struct FailingCall {
    pub open: Option<u32>,
    pub read: Option<u32>,
    /// A write, of whose piece so many bytes are kept.
    pub write: Option<Cut>,
}

impl FailingCall {
    /// All go well.
    pub const NONE: FailingCall = FailingCall {
        open: None,
        read: None,
        write: None,
    };

    /// The call that the line names: `open CALL`, `read CALL` or `write CALL KEPT`; none where it is another line.
    pub fn parse(line: &str) -> Option<FailingCall> {
        let open = number_after("open ", line);
        let read = number_after("read ", line);
        let write = cut_in(line);
        if open.is_none() && read.is_none() && write.is_none() {
            return None;
        }
        Some(FailingCall { open, read, write })
    }
}

// The number behind the word, where the line is that.
fn number_after(word: &str, line: &str) -> Option<u32> {
    line.strip_prefix(word)?.parse::<u32>().ok()
}

// The write that the line names, where it names one.
fn cut_in(line: &str) -> Option<Cut> {
    let (write, kept) = line.rsplit_once(' ')?;
    let call = number_after("write ", write)?;
    let kept = kept.parse::<u32>().ok()?;
    Some(Cut { call, kept })
}
