// Lookup and cursor on the bytes of a store. Both go down from the root by one walk, `walk`, which reads a node's places
// where they stand and builds no node; what it takes in each node is told by a `Turn`, none where it reads no node, and an `Aim`.
#![tactic(auto)]

ghost use Rattle.std.specs.Prelude.{◌≡◌, suc, None};
ghost use Rattle.iter.specs.Answer.{walk_error_number};
ghost use Rattle.iter.specs.Walk.{lookup_of};
ghost use Rattle.iter.specs.Cursor.{sought_number, sought_of, forward_of, backward_of};
ghost use Rattle.iter.specs.Mirror.{length_of, turn_forward, turn_backward, stops_at, candidate_at, here_of, taken_of, walk_down, walk_of, check_of, spot_of, moves_it, step_by};

use node::{Child, Value};
use refusal::Refusal;
use search::{Sight, Turn};

// Why a lookup or a step is refused, by 01's numbers.
#[derive(Clone, Copy, PartialEq, Eq)]
pub enum WalkError {
    NotStore = 1,
    LongKey = 4,
    Bad = 8,
}

impl Refusal for WalkError {
    ghost number_of = { walk_error_number };

    fn number(self) -> u32 {
        self as u32
    }
}

// Where a cursor is; a length names the front of its key array.
#[derive(Clone, Copy, PartialEq, Eq)]
pub enum Place {
    Start,
    End,
    At(usize),
    Seeked(usize),
}

#[derive(Clone, Copy, PartialEq, Eq)]
pub struct Cursor {
    pub place: Place,
    pub key: [u8; 288],
}

// What a step answers: an entry's value, its key being the cursor's; none; or a refusal.
#[derive(Clone, Copy)]
pub struct Stepped {
    pub step: Result<Option<Value>, WalkError>,
    pub cursor: Cursor,
}

// A cursor sought: whether the key was accepted. No Result: a refused seek too gives a cursor, at Start, as `sought_of` says.
#[derive(Clone, Copy)]
pub struct Sought {
    pub accepted: bool,
    pub cursor: Cursor,
}

const MOST_DEPTH: u32 = 7;

const LONGEST_KEY: usize = 288;

// ---- the walk

// Which separator becomes the candidate: the one that has the walk's key, which ends the walk; the one where it turns; or
// the one just before.
#[derive(Clone, Copy)]
enum Aim {
    Same,
    There,
    Before,
}

// A separator in a node: its key stands in the bytes of the node that this child names.
#[derive(Clone, Copy)]
struct Spot {
    child: Child,
    start: usize,
    len: usize,
    value: Value,
}

// Whether the walk ends where the key was found.
fn stops(aim: Aim, at: bool) -> bool
    ensures { result ≡ stops_at aim at }
{
    matches!(aim, Aim::Same) && at
}

fn candidate_at(child: Child, spot: search::Spot) -> Spot
    ensures { result ≡ candidate_at child spot }
{
    Spot {
        child,
        start: spot.start,
        len: spot.len,
        value: spot.value,
    }
}

// The separator where the walk turns as the candidate, or the last one where there is none.
fn here(sight: Sight, child: Child, last: Option<Spot>) -> Option<Spot>
    ensures { result ≡ here_of sight child last }
{
    if !sight.turned {
        return last;
    }
    Some(candidate_at(child, sight.here))
}

// The candidate behind a node, by what the walk sees in it.
fn taken(aim: Aim, sight: Sight, child: Child, last: Option<Spot>) -> Option<Spot>
    ensures { result ≡ taken_of aim sight child last }
{
    match aim {
        Aim::Same => last,
        Aim::There => here(sight, child, last),
        Aim::Before => {
            if sight.found.index.0 < 1 {
                return last;
            }
            Some(candidate_at(child, sight.before))
        }
    }
}

// The walk down: from a child at a depth to depth 0. In each node the candidate is taken, and the walk goes on in the child
// where it turns. It answers the last candidate, or that a node is bad.
fn walk_down(
    store: &[u8],
    child: Child,
    depth: u32,
    key: &[u8],
    turn: Turn,
    aim: Aim,
) -> Result<Option<Spot>, WalkError>
    ensures { result ≡ walk_down turn aim key.now (suc depth) store.now child None }
{
    let mut last = None;
    let mut at = child;
    for level in (0..=depth).rev() {
        let sight = slots::search_at(store, at, level, key, turn);
        if !sight.good {
            return Err(WalkError::Bad);
        }
        if stops(aim, sight.found.at) {
            return Ok(here(sight, at, last));
        }
        last = taken(aim, sight, at, last);
        at = sight.child;
    }
    Ok(last)
}

// The walk from the root; with no root there is no candidate.
fn walk(store: &[u8], key: &[u8], turn: Option<Turn>, aim: Aim) -> Result<Option<Spot>, WalkError>
    ensures { result ≡ walk_of turn aim key.now store.now }
{
    let root = slots::root(store);
    if root.0 == 0 {
        return Ok(None);
    }
    match turn {
        None => Ok(None),
        Some(turn) => walk_down(store, root, slots::depth(store), key, turn, aim),
    }
}

// What a lookup and a step refuse before a walk, in this order; the key's length, or the cursor's.
fn check(store: &[u8], key_len: usize) -> Result<(), WalkError>
    ensures { result ≡ check_of store.now key_len }
{
    if !slots::is_store(store) {
        return Err(WalkError::NotStore);
    }
    if LONGEST_KEY < key_len {
        return Err(WalkError::LongKey);
    }
    if MOST_DEPTH < slots::depth(store) {
        return Err(WalkError::Bad);
    }
    Ok(())
}

// ---- lookup

// The value of the key, if the store has it: "1, 4, 8"; "A depth above 7 is 8, root or not; otherwise no root means absent".
pub fn lookup(store: &[u8], key: &[u8]) -> Result<Option<Value>, WalkError>
    ensures { result ≡ lookup_of store.now key.now }
{
    check(store, key.len())?;
    let found = walk(store, key, Some(Turn::NotBelow), Aim::Same)?;
    Ok(found.map(|spot| spot.value))
}

// ---- the cursor

impl Sought {
    // 01's number.
    pub fn number(self) -> u32
        ensures { result ≡ sought_number self }
    {
        if self.accepted { 0 } else { 4 }
    }
}

// A cursor that has the key, reading no store; one at Start where the key is too long.
pub fn seek(key: &[u8]) -> Sought
    ensures { result ≡ sought_of key.now }
{
    let mut bytes = [0u8; 288];
    let len = key.len();
    if LONGEST_KEY < len {
        return Sought {
            accepted: false,
            cursor: Cursor {
                place: Place::Start,
                key: bytes,
            },
        };
    }
    word::copy(&mut bytes, 0, key, 0, len);
    Sought {
        accepted: true,
        cursor: Cursor {
            place: Place::Seeked(len),
            key: bytes,
        },
    }
}

impl Place {
    // How long the key of a place is; Start and End have none.
    pub fn length(self) -> usize
        ensures { result ≡ length_of self }
    {
        match self {
            Place::Start | Place::End => 0,
            Place::At(len) | Place::Seeked(len) => len,
        }
    }
}

// "Forward: Start gives the smallest key, Seeked the first not below, At the first above, End none."
fn turn_forward(place: Place) -> Option<Turn>
    ensures { result ≡ turn_forward place }
{
    match place {
        Place::Start => Some(Turn::First),
        Place::End => None,
        Place::At(_) => Some(Turn::Above),
        Place::Seeked(_) => Some(Turn::NotBelow),
    }
}

// "Backward: End the largest, Seeked the last not above, At the last below, Start none."
fn turn_backward(place: Place) -> Option<Turn>
    ensures { result ≡ turn_backward place }
{
    match place {
        Place::Start => None,
        Place::End => Some(Turn::Last),
        Place::At(_) => Some(Turn::NotBelow),
        Place::Seeked(_) => Some(Turn::Above),
    }
}

// The last candidate of the walk from the root for a cursor's key, behind the refusals.
fn spot_for(
    store: &[u8],
    cursor: &Cursor,
    turn: Option<Turn>,
    aim: Aim,
) -> Result<Option<Spot>, WalkError>
    ensures { result ≡ spot_of store.now cursor.now turn aim }
{
    let len = cursor.place.length();
    check(store, len)?;
    walk(store, &cursor.key[..len], turn, aim)
}

fn moved(entry: Option<Value>, place: Place, key: [u8; 288]) -> Stepped
    ensures { result ≡ moves_it entry place key }
{
    Stepped {
        step: Ok(entry),
        cursor: Cursor { place, key },
    }
}

// A step: its candidate moves the cursor, with none it comes to `end`, and a refusal leaves the cursor as it was.
fn take_step(store: &[u8], cursor: Cursor, turn: Option<Turn>, aim: Aim, end: Place) -> Stepped
    ensures { result ≡ step_by store.now cursor turn aim end }
{
    match spot_for(store, &cursor, turn, aim) {
        Err(error) => Stepped {
            step: Err(error),
            cursor,
        },
        Ok(None) => moved(None, end, [0u8; 288]),
        Ok(Some(spot)) => {
            let mut entry = [0u8; 288];
            word::copy(
                &mut entry,
                0,
                slots::node_bytes(store, spot.child),
                spot.start,
                spot.len,
            );
            moved(Some(spot.value), Place::At(spot.len), entry)
        }
    }
}

// "An entry moves the cursor to At; none moves it to End".
pub fn forward(store: &[u8], cursor: Cursor) -> Stepped
    ensures { result ≡ forward_of store.now cursor }
{
    take_step(
        store,
        cursor,
        turn_forward(cursor.place),
        Aim::There,
        Place::End,
    )
}

// "none moves it to .. Start".
pub fn backward(store: &[u8], cursor: Cursor) -> Stepped
    ensures { result ≡ backward_of store.now cursor }
{
    take_step(
        store,
        cursor,
        turn_backward(cursor.place),
        Aim::Before,
        Place::Start,
    )
}
