// One run of equal keys on the store, and all runs of a batch whose records were found fine.
ghost use Rattle.std.specs.Prelude.{◌≡◌, ◌≤◌, ◌<◌, length, Ok, IfSome};
ghost use Rattle.tree.specs.Batch.{runs_of};
ghost use Rattle.node.specs.Chain.{longest_key};
ghost use Rattle.slots.specs.Limits.{most_depth};
ghost use Rattle.slots.specs.Layout.{depth_of};
ghost use Rattle.changes.specs.Records.{check_of, records_of, key_at, op_of, op_at};
ghost use Rattle.changes.specs.Mirror.{flaw_at};
ghost use Rattle.changes.specs.RunAt.{run_at};
ghost use Rattle.outcome.specs.RunMirror.{act_m, run_all_m};
ghost use Rattle.btree.specs.RunCode.{run_error_number, of_bad_bytes, finished, room_in, set_key, remove_key, Acts, Ends};

use crate::change::change;
use changes::MOST_RECORDS;
use insertion::{grow, slots_needed};
use node::Value;
use outcome::{BadBytes, Came};
use refusal::Refusal;
use removal::shrink;

// Why a run is refused, by 01's numbers.
#[derive(Clone, Copy, PartialEq, Eq)]
pub enum RunError {
    BadBytes = 8,
    NoRoom = 9,
}

impl Refusal for RunError {
    ghost number_of = { run_error_number };

    fn number(self) -> u32 {
        self as u32
    }
}

impl From<BadBytes> for RunError {
    ghost from_gives = { λ e b. b ≡ of_bad_bytes e };

    fn from(_error: BadBytes) -> RunError {
        RunError::BadBytes
    }
}

// A run, with how many records it has and the place behind it: `run` promises these of a refused run too, so no Result of them.
#[derive(Clone, Copy)]
pub struct Ran {
    pub acted: Result<(), RunError>,
    pub size: u32,
    pub next: usize,
}

// All runs: how they ended, and how many records the finished ones have, at 9 too, so no Result of a count.
#[derive(Clone, Copy)]
pub struct Ended {
    pub acted: Result<(), RunError>,
    pub applied: usize,
}

// At the root nothing may be left to do.
fn finish(outcome: Result<Came, BadBytes>) -> Result<(), RunError>
    ensures { result ≡ finished outcome }
{
    match outcome {
        Ok(Came::Plain) => Ok(()),
        _ => Err(RunError::BadBytes),
    }
}

// "If fewer are free at that point, freed ones counted, the answer is 9."
fn check_room(store: &[u8], key: &[u8]) -> Result<(), RunError>
    ensures { depth_of store.now ≤ most_depth → result ≡ room_in store.now key.now }
{
    let needed = slots_needed(store, key)?;
    if slots::has_free(store, needed) {
        return Ok(());
    }
    Err(RunError::NoRoom)
}

fn set_key(store: &mut [u8], key: &[u8], value: Value) -> Result<(), RunError>
    ensures { 0 < value.0 → length key.now ≤ longest_key → Acts (set_key store.old key.now value.0) result store.new }
{
    let root = slots::root(store);
    let depth = slots::depth(store);
    let outcome = change(store, root, depth, key, Some(value));
    finish(grow(store, root, depth, outcome))
}

fn remove_key(store: &mut [u8], key: &[u8]) -> Result<(), RunError>
    ensures { Acts (remove_key store.old key.now) result store.new }
{
    let root = slots::root(store);
    let depth = slots::depth(store);
    let came = change(store, root, depth, key, None)?;
    match came {
        Came::Plain => Ok(()),
        // No dereference splits.
        Came::Split { .. } => Err(RunError::BadBytes),
        Came::Low => finish(shrink(store, root, depth)),
    }
}

// A set of a key to a value, or a dereference of it, which has none.
pub fn act(store: &mut [u8], key: &[u8], value: Option<Value>) -> Result<(), RunError>
    ensures { IfSome value (λ v. 0 < v.0) → length key.now ≤ longest_key → Acts (act_m store.old key.now (op_of value)) result store.new }
{
    let depth = slots::depth(store);
    if 7 < depth {
        return Err(RunError::BadBytes);
    }
    let Some(value) = value else {
        return remove_key(store, key);
    };
    // No set needs more than depth + 2 slots: where they are free, the walk that counts them is spared.
    if slots::has_free(store, depth + 2) {
        return set_key(store, key, value);
    }
    check_room(store, key)?;
    set_key(store, key, value)
}

// "a run of equal keys acts as its last record": the run at a place, and the place behind it.
pub fn run(store: &mut [u8], records: &[u8], at: usize) -> Ran
    ensures { (result.size ≡ (run_at records.now at).size) × (result.next ≡ (run_at records.now at).next) × (0 < (run_at records.now at).size → flaw_at records.now (run_at records.now at).last ≡ Ok tt → Acts (act_m store.old (key_at records.now (run_at records.now at).last) (op_at records.now (run_at records.now at).last)) result.acted store.new) }
{
    let found = changes::run_end(records, at);
    let size = found.size;
    let next = found.next;
    let Some(last) = changes::change_at(records, found.last) else {
        return Ran {
            acted: Err(RunError::BadBytes),
            size,
            next,
        };
    };
    let from = last.start;
    let to = last.next;
    let acted = act(store, &records[from..to], last.value);
    Ran { acted, size, next }
}

// All runs of records that were found fine. A batch has at most 65,535 records, and so as many runs.
pub fn run_all(store: &mut [u8], records: &[u8]) -> Ended
    ensures { check_of records.now ≡ Ok tt → Ends (run_all_m (runs_of (records_of records.now)) store.old) result store.new }
{
    let mut at: usize = 0;
    let mut applied: usize = 0;
    for _ in 0..MOST_RECORDS {
        if records.len() <= at {
            return Ended {
                acted: Ok(()),
                applied,
            };
        }
        let ran = run(store, records, at);
        if let Err(error) = ran.acted {
            return Ended {
                acted: Err(error),
                applied,
            };
        }
        applied += ran.size as usize;
        at = ran.next;
    }
    if records.len() <= at {
        return Ended {
            acted: Ok(()),
            applied,
        };
    }
    Ended {
        acted: Err(RunError::BadBytes),
        applied,
    }
}
