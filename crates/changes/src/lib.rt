// A batch's records: where each stands in the lent bytes, and the refusals of a batch that isn't one.
#![tactic(auto)]

ghost use Rattle.std.specs.Prelude.{◌≡◌};
ghost use Rattle.word.specs.Part.{part};
ghost use Rattle.changes.specs.Records.{record_error_number, check_of, change_at, stands_at};
ghost use Rattle.changes.specs.RunAt.{has_key, run_at};
ghost use Rattle.changes.specs.Mirror.{flaw_at};

use node::Value;
use refusal::Refusal;

// "At most 65,535."
pub const MOST_RECORDS: u32 = 65535;

// A record's kinds stay numbers: beyond this file a record is a value or none, which says the same.
const SET: u8 = 1;

const DEREFERENCE: u8 = 2;

// Why the records of a batch are refused, by 01's numbers.
#[derive(Clone, Copy, PartialEq, Eq)]
pub enum RecordError {
    Short = 3,
    LongKey = 4,
    BadValue = 5,
    Falls = 6,
    TooMany = 7,
}

impl Refusal for RecordError {
    ghost number_of = { record_error_number };

    fn number(self) -> u32 {
        self as u32
    }
}

// A record: the value that a set gives its key, none for a dereference; the number that stands in the value's place ("value u64 (0
// for kind 2)"), of any kind; where the key stands, and the place behind it.
// `next` is start + len: it stays, or each of four callers would add and prove the sum anew.
#[derive(Clone, Copy)]
pub struct Change {
    pub value: Option<Value>,
    pub number: u64,
    pub start: usize,
    pub len: usize,
    pub next: usize,
}

// A run of equal keys: where its last record stands, the place behind it, and how many records it has.
#[derive(Clone, Copy)]
pub struct Run {
    pub last: usize,
    pub next: usize,
    pub size: u32,
}

// Whether a whole record stands at `at`: its head and its key.
#[tactic(auto, unfolding(crate::specs::Records::stands_at, crate::specs::Records::len_at, word::specs::Pick::pick, word::specs::At::fits_in))]
fn stands(records: &[u8], at: usize) -> bool
    ensures { result ≡ stands_at records.now at }
{
    word::fits(records.len(), at, 11)
        && word::fits(
            records.len(),
            at + 11,
            word::read_u16(records, at + 1) as usize,
        )
}

// The record at `at`; none where no whole record stands.
#[tactic(auto, unfolding(crate::specs::Records::change_at, crate::specs::Records::stands_at, crate::specs::Records::len_at, crate::specs::Records::kind_at, crate::specs::Records::value_at, crate::specs::Records::next_at, word::specs::Pick::pick, word::specs::At::fits_in))]
pub fn change_at(records: &[u8], at: usize) -> Option<Change>
    ensures { result ≡ change_at records.now at }
{
    if !stands(records, at) {
        return None;
    }
    let kind = records[at];
    let len = word::read_u16(records, at + 1) as usize;
    let value = word::read_u64(records, at + 3);
    let start = at + 11;
    Some(Change {
        value: (kind == SET).then_some(Value(value)),
        number: value,
        start,
        len,
        next: start + len,
    })
}

// The first of 01's tests that the record at `at` fails by itself.
#[tactic(auto, unfolding(crate::specs::Mirror::flaw_at, crate::specs::Records::is_known, crate::specs::Records::is_bad_value, crate::specs::Records::len_at, crate::specs::Records::kind_at, crate::specs::Records::value_at, word::specs::Pick::pick, word::specs::At::fits_in))]
fn flaw(records: &[u8], at: usize) -> Result<(), RecordError>
    ensures { result ≡ flaw_at records.now at }
{
    if !word::fits(records.len(), at, 11) {
        return Err(RecordError::Short);
    }
    let kind = records[at];
    if kind != SET && kind != DEREFERENCE {
        return Err(RecordError::Short);
    }
    let len = word::read_u16(records, at + 1) as usize;
    if 288 < len {
        return Err(RecordError::LongKey);
    }
    // "set .. with value 0, kind 2 with another value"
    if (kind == SET) == (word::read_u64(records, at + 3) == 0) {
        return Err(RecordError::BadValue);
    }
    if !word::fits(records.len(), at + 11, len) {
        return Err(RecordError::Short);
    }
    Ok(())
}

// What the records are, by the first test that fails from the front. The key before stands at `before`; no key is below the
// empty one, with which it begins.
pub fn check(records: &[u8]) -> Result<(), RecordError>
    ensures { result ≡ check_of records.now }
{
    let mut at = 0;
    let mut before = 0;
    let mut len = 0;
    for _ in 0..MOST_RECORDS {
        if at == records.len() {
            return Ok(());
        }
        flaw(records, at)?;
        let change = change_at(records, at).unwrap();
        let start = change.start;
        let next = change.next;
        if word::compare_part(&records[start..next], records, before, len).is_lt() {
            return Err(RecordError::Falls);
        }
        before = start;
        len = change.len;
        at = next;
    }
    if at == records.len() {
        return Ok(());
    }
    Err(RecordError::TooMany)
}

// Whether a whole record stands at `at` whose key is the n bytes from `from` on.
fn has_key(records: &[u8], at: usize, from: usize, n: usize) -> bool
    ensures { result ≡ has_key records.now at (part records.now from n) }
{
    let Some(change) = change_at(records, at) else {
        return false;
    };
    let start = change.start;
    let next = change.next;
    word::compare_part(&records[start..next], records, from, n).is_eq()
}

// The run that begins with the record at `at`; of no record where no whole record stands.
pub fn run_end(records: &[u8], at: usize) -> Run
    ensures { result ≡ run_at records.now at }
{
    let Some(first) = change_at(records, at) else {
        return Run {
            last: at,
            next: at,
            size: 0,
        };
    };
    let from = first.start;
    let len = first.len;
    let mut last = at;
    let mut next = first.next;
    for size in 1..MOST_RECORDS {
        if !has_key(records, next, from, len) {
            return Run { last, next, size };
        }
        let change = change_at(records, next).unwrap();
        last = next;
        next = change.next;
    }
    Run {
        last,
        next,
        size: MOST_RECORDS,
    }
}
