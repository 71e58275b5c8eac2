// A batch of records with keys of one byte, made and run.
ghost use Rattle.std.specs.Prelude.{◌≤◌};

// 01's record: kind, key length u16, value u64, key.
const RECORD: usize = 12;

// No night has more records in a batch; ten take 120 bytes.
const MOST: usize = 10;

// "kind (1 set, 2 dereference)".
#[derive(Clone, Copy)]
enum Kind {
    Set = 1,
    Dereference = 2,
}

// 01's number, and how many records were applied.
#[derive(Clone, Copy)]
pub struct Answer {
    pub number: u32,
    pub applied: usize,
}

// "value u64 (0 for kind 2)"; a set key's value is the key's own number.
fn value(kind: Kind, key: u8) -> u8 {
    match kind {
        Kind::Set => key,
        Kind::Dereference => 0,
    }
}

// Records of one kind with these keys, behind the n that are there; answers how many there are then.
fn put(records: &mut [u8; 120], n: usize, kind: Kind, keys: &[u8]) -> usize
    requires { n ≤ 10 }
    ensures { result ≤ 10 }
{
    let room = &mut records[RECORD * n..];
    for (record, key) in room.chunks_exact_mut(RECORD).zip(keys) {
        record[0] = kind as u8;
        record[1] = 1;
        record[3] = value(kind, *key);
        record[11] = *key;
    }
    n + keys.len().min(MOST - n)
}

// The records' own refusals come first, then the empty root, then the runs.
fn run(store: &mut [u8], records: &[u8]) -> Answer {
    let checked = changes::check(records);
    if checked.is_err() {
        return Answer {
            number: refusal::number(checked),
            applied: 0,
        };
    }
    insertion::start(store);
    let ended = btree::records::run_all(store, records);
    Answer {
        number: refusal::number(ended.acted),
        applied: ended.applied,
    }
}

// The first n of the records.
fn run_first(store: &mut [u8], records: &[u8; 120], n: usize) -> Answer
    requires { n ≤ 10 }
{
    run(store, &records[..RECORD * n])
}

pub fn apply(store: &mut [u8], sets: &[u8], removals: &[u8]) -> Answer {
    let mut records = [0u8; 120];
    let n = put(&mut records, 0, Kind::Set, sets);
    let n = put(&mut records, n, Kind::Dereference, removals);
    run_first(store, &records, n)
}
