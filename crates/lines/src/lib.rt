// House lines: text to a batch's records, and entries and refusals back to text.
#![tactic(auto)]

ghost use Rattle.std.specs.Prelude.{◌≡◌, true, ◌≤◌, ◌%◌, ◌==◌, length, is_some, position};
ghost use Rattle.std.proofs.Math.Dec.{compare_is_eq};
ghost use Rattle.word.specs.Key.{cmp};
ghost use Rattle.word.specs.Part.{over};
ghost use Rattle.lines.specs.Digits.{digit_of, hex_key, is_padded, digit_byte, hex_of, decimal_of};
ghost use Rattle.lines.specs.Lines.{line_of, set_of};
ghost use Rattle.lines.specs.Parses.{parse_error_number, Parses};
ghost use Rattle.lines.specs.Mirror.{digit_at, amount_of, is_key, kind_byte, keyed, Put, Placed, encoded, put_at};
ghost use Rattle.lines.specs.Written.{entry_line, refused_line, Writes};

use refusal::Refusal;

// Why a text is refused, with 01's number.
#[derive(Clone, Copy, PartialEq, Eq)]
pub enum ParseError {
    BadText = 15,
}

impl Refusal for ParseError {
    ghost number_of = { parse_error_number };

    fn number(self) -> u32 {
        self as u32
    }
}

// Where the first b stands.
fn find(s: &[u8], b: u8) -> Option<usize>
    ensures { result ≡ position (λ x. x == b) s.now }
{
    s.iter().position(|x| *x == b)
}

fn is_word(field: &[u8], name: &[u8]) -> bool
    ensures { result ≡ compare_is_eq (cmp field.now name.now) }
{
    word::compare(field, name).is_eq()
}

// What a digit counts.
fn digit(b: u8) -> Option<u8>
    ensures { result ≡ digit_at b }
{
    match b {
        b'0'..=b'9' => Some(b - b'0'),
        b'a'..=b'f' => Some(b - b'a' + 10),
        _ => None,
    }
}

// Whether a 0 leads other digits.
fn is_padded(field: &[u8]) -> bool
    ensures { result ≡ is_padded field.now }
{
    2 <= field.len() && field[0] == b'0'
}

fn decimal(field: &[u8]) -> Option<u64>
    ensures { result ≡ amount_of field.now }
{
    if field.is_empty() || is_padded(field) {
        return None;
    }
    let mut value: u64 = 0;
    for b in field {
        let d = digit(*b)?;
        if 10 <= d {
            return None;
        }
        value = value.checked_mul(10)?.checked_add(d as u64)?;
    }
    Some(value)
}

// The bytes that hex stands for to dst at `at`, if it is hex and they fit.
fn unhex(field: &[u8], dst: &mut [u8], at: usize) -> Option<()>
    ensures { (is_some result ≡ is_key field.now (length dst.old) at) × (is_some result ≡ true → dst.new ≡ over dst.old at (hex_key field.now)) }
{
    let n = field.len() / 2;
    if field.len() % 2 != 0 {
        return None;
    }
    if !word::fits(dst.len(), at, n) {
        return None;
    }
    for i in 0..n {
        let high = digit(field[i * 2])?;
        let low = digit(field[i * 2 + 1])?;
        dst[at + i] = high * 16 + low;
    }
    Some(())
}

// "kind (1 set, 2 dereference)"
fn kind(value: Option<u64>) -> u8
    ensures { result ≡ kind_byte value }
{
    match value {
        Some(_) => 1,
        None => 2,
    }
}

// A record at `at`, with the key that hex stands for, to set a value or to dereference: its length; none where it isn't hex or
// the record doesn't fit.
fn put(records: &mut [u8], at: usize, value: Option<u64>, field: &[u8]) -> Option<usize>
    ensures { Put (keyed value field.now) records.old at result records.new }
{
    let n = field.len() / 2;
    if !word::fits(records.len(), at, 11 + n) {
        return None;
    }
    records[at] = kind(value);
    // cut to two bytes: a text that is short enough has no longer key
    word::write_u16(records, at + 1, (n % 65536) as u16);
    word::write_u64(records, at + 3, value.unwrap_or(0));
    unhex(field, records, at + 11)?;
    Some(11 + n)
}

// The record of a set, whose key and value stand in the text; none as above.
fn put_set(text: &[u8], records: &mut [u8], at: usize) -> Option<usize>
    ensures { Put (encoded (set_of text.now)) records.old at result records.new }
{
    let t = find(text, b'\t')?;
    let start = t + 1;
    let value = decimal(&text[start..])?;
    put(records, at, Some(value), &text[..t])
}

// The record of a line; none as above.
fn put_line(text: &[u8], records: &mut [u8], at: usize) -> Option<usize>
    ensures { Put (encoded (line_of text.now)) records.old at result records.new }
{
    let t = find(text, b'\t')?;
    let start = t + 1;
    if is_word(&text[..t], b"set") {
        return put_set(&text[start..], records, at);
    }
    if is_word(&text[..t], b"del") {
        return put(records, at, None, &text[start..]);
    }
    None
}

// The records of all lines at the front, whatever the length of the text.
fn put_lines(text: &[u8], records: &mut [u8]) -> Option<usize>
    ensures { Placed text.now records.old result records.new }
{
    let mut rest = text;
    let mut at = 0;
    while let Some(n) = find(rest, b'\n') {
        let start = n + 1;
        at += put_line(&rest[..n], records, at)?;
        rest = &rest[start..];
    }
    if rest.is_empty() { Some(at) } else { None }
}

// House lines to records at the front of the lent buffer, zeros behind them; all zeros where the text is refused.
pub fn parse(text: &[u8], records: &mut [u8]) -> Result<usize, ParseError>
    ensures { Parses text.now records.old result records.new }
{
    let room = records.len();
    if 16384 < text.len() {
        word::clear(records, 0, room);
        return Err(ParseError::BadText);
    }
    match put_lines(text, records) {
        Some(n) => {
            word::clear(records, n, room - n);
            Ok(n)
        }
        None => {
            word::clear(records, 0, room);
            Err(ParseError::BadText)
        }
    }
}

// How many digits a number has.
fn digits(value: u64) -> usize
    ensures { (result ≡ length (decimal_of value)) × (result ≤ 20) }
{
    match value.checked_ilog10() {
        Some(n) => n as usize + 1,
        None => 1,
    }
}

// A number's digits to dst at `at`, where they fit; from the last on.
fn put_decimal(dst: &mut [u8], at: usize, value: u64)
    ensures { dst.new ≡ put_at dst.old at (decimal_of value) }
{
    let n = digits(value);
    if !word::fits(dst.len(), at, n) {
        return;
    }
    let mut v = value;
    for i in (0..n).rev() {
        dst[at + i] = b'0' + (v % 10) as u8;
        v /= 10;
    }
}

// The byte of a digit, cut to 0 to 15.
fn digit_byte(d: u8) -> u8
    ensures { result ≡ digit_byte (d % 16) }
{
    let n = d % 16;
    if n < 10 {
        return b'0' + n;
    }
    b'a' - 10 + n
}

// A key in hex to the front of dst, where it fits.
fn put_hex(dst: &mut [u8], key: &[u8])
    ensures { dst.new ≡ put_at dst.old 0 (hex_of key.now) }
{
    if dst.len() / 2 < key.len() {
        return;
    }
    for (i, b) in key.iter().enumerate() {
        dst[i * 2] = digit_byte(*b / 16);
        dst[i * 2 + 1] = digit_byte(*b);
    }
}

// An entry's line, "key TAB value", to the front of dst, where it fits: its length.
pub fn write_entry(key: &[u8], value: u64, dst: &mut [u8]) -> Option<usize>
    ensures { Writes (entry_line key.now value) dst.old result dst.new }
{
    let n = digits(value);
    if dst.len() / 2 < key.len() {
        return None;
    }
    let hex = key.len() * 2;
    if !word::fits(dst.len(), hex, n + 2) {
        return None;
    }
    put_hex(dst, key);
    dst[hex] = b'\t';
    put_decimal(dst, hex + 1, value);
    dst[hex + 1 + n] = b'\n';
    Some(hex + 2 + n)
}

// A refusal's line, "`refused` TAB number TAB applied", to the front of dst, where it fits: its length.
pub fn write_refused(number: u32, applied: u64, dst: &mut [u8]) -> Option<usize>
    ensures { Writes (refused_line number applied) dst.old result dst.new }
{
    let n = digits(number as u64);
    let m = digits(applied);
    if dst.len() < 10 + n + m {
        return None;
    }
    word::copy(dst, 0, b"refused\t", 0, 8);
    put_decimal(dst, 8, number as u64);
    dst[8 + n] = b'\t';
    put_decimal(dst, 9 + n, applied);
    dst[9 + n + m] = b'\n';
    Some(10 + n + m)
}
