// A batch on a store: the refusals in 01's order, the audit, and then the runs.
#![tactic(auto)]

ghost use Rattle.std.specs.Prelude.{◌≡◌, Ok};
ghost use Rattle.tree.specs.Batch.{runs_of};
ghost use Rattle.changes.specs.Records.{check_of, records_of};
ghost use Rattle.outcome.specs.RunMirror.{start_m, run_all_m};
ghost use Rattle.batch.specs.Contract.{batch_error_number, Batches};
ghost use Rattle.batch.specs.Code.{refused_with, of_record_error, batched_of};

use btree::records::RunError;
use changes::RecordError;
use refusal::Refusal;

// Why a batch is refused, by 01's numbers.
#[derive(Clone, Copy, PartialEq, Eq)]
pub enum BatchError {
    NotStore = 1,
    FewMarks = 2,
    Short = 3,
    LongKey = 4,
    BadValue = 5,
    Falls = 6,
    TooMany = 7,
    Fails = 8,
    NoRoom = 9,
    // Given by who reads the records from lines.
    BadText = 15,
}

impl Refusal for BatchError {
    ghost number_of = { batch_error_number };

    fn number(self) -> u32 {
        self as u32
    }
}

impl From<RecordError> for BatchError {
    ghost from_gives = { λ e b. b ≡ of_record_error e };

    fn from(error: RecordError) -> BatchError {
        match error {
            RecordError::Short => BatchError::Short,
            RecordError::LongKey => BatchError::LongKey,
            RecordError::BadValue => BatchError::BadValue,
            RecordError::Falls => BatchError::Falls,
            RecordError::TooMany => BatchError::TooMany,
        }
    }
}

// "An answer has the number and records applied": at 9 both a refusal and a count, so no Result of a count.
#[derive(Clone, Copy)]
pub struct Batched {
    pub answer: Result<(), BatchError>,
    pub applied: usize,
}

fn refused(error: BatchError) -> Batched
    ensures { result ≡ refused_with error }
{
    Batched {
        answer: Err(error),
        applied: 0,
    }
}

// The runs, behind the empty root of a store that has none.
fn run_batch(store: &mut [u8], records: &[u8]) -> Batched
    ensures { check_of records.now ≡ Ok tt → (result ≡ batched_of (run_all_m (runs_of (records_of records.now)) (start_m store.old))) × (store.new ≡ (run_all_m (runs_of (records_of records.now)) (start_m store.old)).store) }
{
    insertion::start(store);
    let ended = btree::records::run_all(store, records);
    let applied = ended.applied;
    match ended.acted {
        Ok(()) => Batched {
            answer: Ok(()),
            applied,
        },
        Err(RunError::BadBytes) => refused(BatchError::Fails),
        Err(RunError::NoRoom) => Batched {
            answer: Err(BatchError::NoRoom),
            applied,
        },
    }
}

// "Batch order: 1, 2, then records from the front .., then 8, then the run." Compiled into its caller: an answer handed back in memory
// makes a refusal with 1 take a third more.
#[inline(always)]
pub fn batch(store: &mut [u8], marks: &mut [u64], records: &[u8]) -> Batched
    ensures { Batches store.old marks.old records.now result store.new marks.new }
{
    if !slots::is_store(store) {
        return refused(BatchError::NotStore);
    }
    if marks.len() < audit::words_for(slots::count(store)) {
        return refused(BatchError::FewMarks);
    }
    if let Err(error) = changes::check(records) {
        return refused(BatchError::from(error));
    }
    if audit::audit(store, marks).is_err() {
        return refused(BatchError::Fails);
    }
    audit::clear_marks(marks);
    run_batch(store, records)
}
