//! Bytes that are judged piece by piece, whether they are UTF-8.
ghost use Rattle.std.specs.Prelude.{◌≡◌, ◌≤◌, ◌<◌, ◌^◌};
ghost use Rattle.std.specs.Str.{continuation_len};
ghost use Rattle.std.specs.Str.Lossy.{second_byte_min, second_byte_max};
ghost use Rattle.folder_io.specs.Utf8Text.{after_first, utf8_step, utf8_after, is_between};
ghost use Rattle.folder_io.specs.declared.utf8.Utf8State.TheVariants.{Whole};

use std::str;

// Where the bytes so far leave off.
#[derive(Clone, Copy)]
pub(crate) enum Utf8State {
    // Between two characters.
    Whole,
    // Inside a character, of which so many bytes are due. The next one lies between these two.
    Due(u8, u8, u8),
    // Behind bytes that no text begins with.
    Wrong,
}

// How many bytes follow the first byte of a character.
fn count_due(first: u8) -> u8
    ensures { result ≡ continuation_len first }
{
    if first < 0x80 {
        0
    } else if first < 0xe0 {
        1
    } else if first < 0xf0 {
        2
    } else {
        3
    }
}

// The least second byte of a character with that first byte.
fn least_second(first: u8) -> u8
    ensures { result ≡ second_byte_min first }
{
    if first == 0xe0 {
        0xa0
    } else if first == 0xf0 {
        0x90
    } else {
        0x80
    }
}

// The greatest second byte of a character with that first byte.
fn greatest_second(first: u8) -> u8
    ensures { result ≡ second_byte_max first }
{
    if first == 0xed {
        0x9f
    } else if first == 0xf4 {
        0x8f
    } else {
        0xbf
    }
}

// The state behind the first byte of a character, or behind a byte that begins none.
fn after_first(first: u8) -> Utf8State
    ensures { result ≡ after_first first }
{
    if first < 0x80 {
        return Utf8State::Whole;
    }
    if first < 0xc2 || 0xf4 < first {
        return Utf8State::Wrong;
    }
    Utf8State::Due(
        count_due(first),
        least_second(first),
        greatest_second(first),
    )
}

impl Utf8State {
    // The state behind one byte more.
    fn step(self, byte: u8) -> Utf8State
        ensures { result ≡ utf8_step self byte }
    {
        match self {
            Utf8State::Whole => after_first(byte),
            Utf8State::Due(count, low, high) => {
                if byte < low || high < byte {
                    return Utf8State::Wrong;
                }
                if count < 2 {
                    return Utf8State::Whole;
                }
                Utf8State::Due(count - 1, 0x80, 0xbf)
            }
            Utf8State::Wrong => Utf8State::Wrong,
        }
    }

    // The state behind these bytes, which are taken one by one up to the end of a character.
    pub(crate) fn after(self, piece: &[u8]) -> Utf8State
        ensures { result ≡ utf8_after self piece.now }
    {
        let mut state = self;
        for (i, byte) in piece.iter().enumerate() {
            match state {
                Utf8State::Whole => return after_whole(&piece[i..]),
                Utf8State::Wrong => return Utf8State::Wrong,
                Utf8State::Due(..) => state = state.step(*byte),
            }
        }
        state
    }

    // Whether a text may end here.
    pub(crate) fn is_between(self) -> bool
        ensures { result ≡ is_between self }
    {
        matches!(self, Utf8State::Whole)
    }
}

// The state behind these bytes, with which a character begins. Those up to the last whole character are looked at at once.
fn after_whole(piece: &[u8]) -> Utf8State
    ensures { result ≡ utf8_after Whole piece.now }
{
    match str::from_utf8(piece) {
        Ok(_) => Utf8State::Whole,
        Err(error) => after_each(&piece[error.valid_up_to()..]),
    }
}

// The same, one byte after another.
fn after_each(piece: &[u8]) -> Utf8State
    ensures { result ≡ utf8_after Whole piece.now }
{
    let mut state = Utf8State::Whole;
    for byte in piece {
        state = state.step(*byte);
    }
    state
}
