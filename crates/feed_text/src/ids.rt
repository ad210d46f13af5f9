//! Ids and codes of currencies, as fields write them.
ghost use Rattle.std.specs.Prelude.{◌≡◌, ◌≤◌, IfSome};
ghost use Rattle.std.specs.List.{list_all};
ghost use Rattle.feed_faults.specs.FieldGrammars.{is_id, is_among, whole_currencies, three_decimal_currencies, unit_codes, is_capital, currency_decimals};

/// Whether the text is an id: 1 to 255 bytes without tab, line feed and carriage return.
#[tactic(auto, unfolding(feed_faults::specs::FieldGrammars::is_id))]
pub fn id_ok(text: &[u8]) -> bool
    ensures { result ≡ is_id text.now }
{
    if text.is_empty() || text.len() > 255 {
        return false;
    }
    !text.iter().any(|b| matches!(b, b'\t' | b'\n' | b'\r'))
}

// Whether each byte is a letter A to Z.
fn are_capitals(text: &[u8]) -> bool
    ensures { result ≡ list_all is_capital text.now }
{
    text.iter().all(|b| *b >= b'A' && *b <= b'Z')
}

// The codes of currencies without decimals.
const WHOLE_CURRENCIES: [[u8; 3]; 16] = [
    *b"BIF", *b"CLP", *b"DJF", *b"GNF", *b"ISK", *b"JPY", *b"KMF", *b"KRW", *b"PYG", *b"RWF",
    *b"UGX", *b"VND", *b"VUV", *b"XAF", *b"XOF", *b"XPF",
];

// The codes of currencies of three decimals.
const THREE_DECIMAL_CURRENCIES: [[u8; 3]; 7] = [
    *b"BHD", *b"IQD", *b"JOD", *b"KWD", *b"LYD", *b"OMR", *b"TND",
];

// The codes of units that are no currencies here.
const UNIT_CODES: [[u8; 3]; 3] = [*b"CLF", *b"UYI", *b"UYW"];

// Whether the text is one of these codes.
fn is_among(codes: &[[u8; 3]], text: &[u8]) -> bool
    ensures { result ≡ is_among codes.now text.now }
{
    codes.iter().any(|code| text == code.as_slice())
}

/// The decimals of a currency, 0, 2 or 3, by its code: three letters A to Z. None exactly where the text is no code of a
/// currency.
#[tactic(auto, unfolding(feed_faults::specs::FieldGrammars::currency_decimals))]
pub fn currency_of(text: &[u8]) -> Option<u8>
    ensures value { result ≡ currency_decimals text.now }
    ensures bound { IfSome result (λ decimals. decimals ≤ 3) }
{
    if text.len() != 3 || !are_capitals(text) || is_among(&UNIT_CODES, text) {
        return None;
    }
    if is_among(&WHOLE_CURRENCIES, text) {
        return Some(0);
    }
    if is_among(&THREE_DECIMAL_CURRENCIES, text) {
        return Some(3);
    }
    Some(2)
}
