// The public face: what a user calls, and nothing else. No function asks anything of its caller; each says for all inputs what
// it answers and what every byte and word lent to it holds afterwards.
#![tactic(auto)]

ghost use Rattle.std.specs.Prelude.{◌≡◌};
ghost use Rattle.word.specs.Part.{part};
ghost use Rattle.codec.specs.Layout.{reading_of, key_place, written_of, left_by};
ghost use Rattle.codec.specs.Strict.{standard_of, strict_reading};
ghost use Rattle.slots.specs.Code.{Formats};
ghost use Rattle.audit.specs.Contract.{Audits};
ghost use Rattle.batch.specs.Contract.{Batches};
ghost use Rattle.iter.specs.Walk.{lookup_of};
ghost use Rattle.iter.specs.Cursor.{sought_of, forward_of, backward_of};
ghost use Rattle.lines.specs.Parses.{Parses};
ghost use Rattle.lines.specs.Written.{entry_line, refused_line, Writes};
ghost use Rattle.cikolaro.specs.Contract.{RunsLines};

use audit::AuditError;
use batch::{BatchError, Batched};
use codec::{Reading, StrictReading, WriteError};
use iter::{Cursor, Sought, Stepped, WalkError};
use lines::ParseError;
use node::{Index, Node, Value};
use slots::FormatError;

// ---- node bytes

// A node's bytes as a node, with how the reading ended: 0, 4, 11 to 14.
pub fn read(bytes: &[u8]) -> Reading
    ensures { result ≡ reading_of bytes.now }
{
    codec::read(bytes)
}

// "The reader can hand back the key of a named separator as a part of the node bytes it was given".
pub fn key(bytes: &[u8], index: Index) -> &[u8]
    ensures { result.now ≡ part bytes.now (key_place bytes.now index.0).start (key_place bytes.now index.0).len }
{
    codec::key(bytes, index)
}

// A node's bytes by the strict reading, which takes standard form alone: with how it ended, 0, 4, 11 to 14, 18 to 20, and where.
pub fn read_strict(bytes: &[u8]) -> StrictReading
    ensures { result ≡ strict_reading bytes.now }
{
    codec::read_strict(bytes)
}

// The key of a named separator by the strict reading: empty where it refuses.
pub fn key_strict(bytes: &[u8], index: Index) -> &[u8]
    ensures { result.now ≡ part bytes.now (key_place (standard_of bytes.now) index.0).start (key_place (standard_of bytes.now) index.0).len }
{
    codec::key_strict(bytes, index)
}

// A node in standard form to the front of the destination: 0 with its length, 16, 4, 5, 10.
pub fn write(node: Node, dst: &mut [u8]) -> Result<usize, WriteError>
    ensures { (result ≡ written_of node dst.old) × (dst.new ≡ left_by (written_of node dst.old) node dst.old) }
{
    codec::write(node, dst)
}

// ---- the store

// "Formatting takes a count, ignores the old bytes": 0, 1.
pub fn format(store: &mut [u8], count: u32) -> Result<(), FormatError>
    ensures { Formats store.old count result store.new }
{
    slots::format(store, count)
}

// "Audit: 1, 2, 8."
pub fn audit(store: &[u8], marks: &mut [u64]) -> Result<usize, AuditError>
    ensures { Audits store.now marks.old result marks.new }
{
    audit::audit(store, marks)
}

// 0 to 9, with the records applied.
pub fn batch(store: &mut [u8], marks: &mut [u64], records: &[u8]) -> Batched
    ensures { Batches store.old marks.old records.now result store.new marks.new }
{
    batch::batch(store, marks, records)
}

// ---- "Lookup and cursor: 1, 4, 8."

pub fn lookup(store: &[u8], key: &[u8]) -> Result<Option<Value>, WalkError>
    ensures { result ≡ lookup_of store.now key.now }
{
    iter::lookup(store, key)
}

pub fn seek(key: &[u8]) -> Sought
    ensures { result ≡ sought_of key.now }
{
    iter::seek(key)
}

pub fn forward(store: &[u8], cursor: Cursor) -> Stepped
    ensures { result ≡ forward_of store.now cursor }
{
    iter::forward(store, cursor)
}

pub fn backward(store: &[u8], cursor: Cursor) -> Stepped
    ensures { result ≡ backward_of store.now cursor }
{
    iter::backward(store, cursor)
}

// ---- house lines

// House lines to records: 0, 15.
pub fn parse(text: &[u8], records: &mut [u8]) -> Result<usize, ParseError>
    ensures { Parses text.now records.old result records.new }
{
    lines::parse(text, records)
}

// The lines as one batch: 15, and the batch's.
pub fn run_lines(store: &mut [u8], marks: &mut [u64], records: &mut [u8], text: &[u8]) -> Batched
    ensures { RunsLines store.old marks.old records.old text.now result store.new marks.new records.new }
{
    match lines::parse(text, records) {
        Ok(len) => batch::batch(store, marks, &records[0..len]),
        Err(_) => Batched {
            answer: Err(BatchError::BadText),
            applied: 0,
        },
    }
}

// "writes entries, key TAB value": the line to the front of dst, where it fits: its length.
pub fn write_entry(key: &[u8], value: u64, dst: &mut [u8]) -> Option<usize>
    ensures { Writes (entry_line key.now value) dst.old result dst.new }
{
    lines::write_entry(key, value, dst)
}

// "A refusal writes one line: `refused` TAB number TAB applied": as for an entry.
pub fn write_refused(number: u32, applied: u64, dst: &mut [u8]) -> Option<usize>
    ensures { Writes (refused_line number applied) dst.old result dst.new }
{
    lines::write_refused(number, applied, dst)
}
