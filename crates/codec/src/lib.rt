// Node bytes read and written.
#![tactic(auto)]

ghost use Rattle.std.specs.Prelude.{◌≡◌, ◌&&◌, [], ◌+◌, ◌≤◌, leb, length};
ghost use Rattle.word.specs.At.{copy_at};
ghost use Rattle.word.specs.Part.{part};
ghost use Rattle.codec.specs.Codec.{head_at, key_at, ending_number, is_accepted, is_no_byte_left, sep_length};
ghost use Rattle.codec.specs.Layout.{places_of, reading_of, key_place, any_of, is_long, is_none, written_of, left_by, write_error_number};
ghost use Rattle.codec.specs.Strict.{strict_number, is_low, ends_at, strict_from, strict_end, standard_of, strict_reading};
ghost use Rattle.codec.specs.Mirror.{empty_places, ended_with, measured, put_sep};
ghost use Rattle.codec.specs.Splice.{splice_in, new_length};

use node::{Child, Index, Node, Value};
use refusal::Refusal;

pub mod position;

// How a reading ended, with the strict reading's numbers; the lenient one accepts with no byte left, at a value 0 and with bytes
// ignored, and says 0 for each.
#[derive(Clone, Copy)]
pub enum Ending {
    NoByteLeft = 0,
    LongKey = 4,
    ShortChild = 11,
    ShortHead = 12,
    ShortSize = 13,
    ShortKey = 14,
    ZeroValue = 19,
    BytesIgnored = 20,
}

// A separator in node bytes: its value, where its key stands, and whether its size is written as standard form has it.
#[derive(Clone, Copy)]
pub struct Head {
    pub value: Value,
    pub start: usize,
    pub len: usize,
    pub plain: bool,
}

// Node bytes read without copying a key: the key of separator i stands in them from starts[i] on. Arrays side by side: the
// clauses of the exported `cikolaro_node_child` and `cikolaro_node_separator` name them.
#[derive(Clone, Copy)]
pub struct Places {
    pub ending: Ending,
    pub standard: bool,
    pub count: usize,
    pub children: [Child; 9],
    pub values: [Value; 8],
    pub starts: [usize; 8],
    pub lens: [usize; 8],
}

// How a strict reading ended: at a long size below 255, or as a lenient one, whose first ending alone is accepted.
#[derive(Clone, Copy)]
pub enum Strict {
    LowSize,
    EndsIn(Ending),
}

// How a strict reading ended, and where the child or the separator begins that it refuses, or the first byte too many; where it
// refuses nothing, the end of the bytes.
#[derive(Clone, Copy)]
pub struct Stopped {
    pub ending: Strict,
    pub at: usize,
}

// No Result, and none of `Reading`: "A refused reading gives the node with no separator and no child."
#[derive(Clone, Copy)]
pub struct StrictReading {
    pub ending: Strict,
    pub at: usize,
    pub node: Node,
}

#[derive(Clone, Copy)]
pub struct Reading {
    pub ending: Ending,
    pub node: Node,
}

// Why a node isn't written, with 01's numbers.
#[derive(Clone, Copy, PartialEq, Eq)]
pub enum WriteError {
    LongKey = 4,
    NoValue = 5,
    ShortDestination = 10,
    TooMany = 16,
}

impl Refusal for WriteError {
    ghost number_of = { write_error_number };

    fn number(self) -> u32 {
        self as u32
    }
}

impl Ending {
    // 01's number.
    pub fn number(self) -> u32
        ensures { result ≡ ending_number self }
    {
        if self.is_accepted() { 0 } else { self as u32 }
    }

    pub fn is_accepted(self) -> bool
        ensures { result ≡ is_accepted self }
    {
        matches!(
            self,
            Ending::NoByteLeft | Ending::BytesIgnored | Ending::ZeroValue
        )
    }

    pub fn is_no_byte_left(self) -> bool
        ensures { result ≡ is_no_byte_left self }
    {
        matches!(self, Ending::NoByteLeft)
    }
}

impl Reading {
    // The reading of no bytes, which is refused.
    pub fn none() -> Reading
        ensures { result ≡ reading_of [] }
    {
        Reading {
            ending: Ending::ShortChild,
            node: Node::empty(),
        }
    }
}

impl Strict {
    // 01's number, and 18 to 20.
    pub fn number(self) -> u32
        ensures { result ≡ strict_number self }
    {
        match self {
            Strict::LowSize => 18,
            Strict::EndsIn(ending) => ending as u32,
        }
    }
}

// The separator with this value whose key stands at start, or what ends the node there.
fn read_key(s: &[u8], value: u64, start: usize, len: usize, plain: bool) -> Result<Head, Ending>
    ensures { result ≡ key_at s.now value start len plain }
{
    if !word::fits(s.len(), start, len) {
        return Err(Ending::ShortKey);
    }
    if value == 0 {
        return Err(Ending::ZeroValue);
    }
    if 288 < len {
        return Err(Ending::LongKey);
    }
    Ok(Head {
        value: Value(value),
        start,
        len,
        plain,
    })
}

// What stands where a separator may: one, or what ends the node there.
pub fn read_separator(s: &[u8], at: usize) -> Result<Head, Ending>
    ensures { result ≡ head_at s.now at }
{
    if !word::fits(s.len(), at, 9) {
        return Err(Ending::ShortHead);
    }
    let value = word::read_u64(s, at);
    let size = s[at + 8];
    if size < 255 {
        return read_key(s, value, at + 9, size as usize, true);
    }
    if !word::fits(s.len(), at + 9, 4) {
        return Err(Ending::ShortSize);
    }
    let len = word::read_u32(s, at + 9);
    read_key(s, value, at + 13, len as usize, 255 <= len)
}

impl Places {
    fn empty(ending: Ending) -> Places
        ensures { result ≡ empty_places ending }
    {
        Places {
            ending,
            standard: true,
            count: 0,
            children: [Child(0); 9],
            values: [Value(0); 8],
            starts: [0; 8],
            lens: [0; 8],
        }
    }

    // It writes into the places that it is given: a struct that takes the rest of them is a copy more.
    fn ended(mut self, ending: Ending, count: usize) -> Places
        ensures { result ≡ ended_with self ending count }
    {
        if !ending.is_accepted() {
            self = Places::empty(ending);
            self.standard = false;
            return self;
        }
        let standard = self.standard && ending.is_no_byte_left();
        self.standard = standard;
        self.ending = ending;
        self.count = count;
        self
    }

    // The one loop that decodes node bytes.
    pub fn read(s: &[u8]) -> Places
        ensures { result ≡ places_of s.now }
    {
        let mut places = Places::empty(Ending::NoByteLeft);
        let mut at = 0;
        for i in 0..8 {
            if !word::fits(s.len(), at, 8) {
                return places.ended(Ending::ShortChild, i);
            }
            places.children[i] = Child(word::read_u64(s, at));
            at += 8;
            if at == s.len() {
                return places.ended(Ending::NoByteLeft, i);
            }
            match read_separator(s, at) {
                Err(ending) => return places.ended(ending, i),
                Ok(head) => {
                    places.values[i] = head.value;
                    places.starts[i] = head.start;
                    places.lens[i] = head.len;
                    places.standard &= head.plain;
                    at = head.start + head.len;
                }
            }
        }
        if !word::fits(s.len(), at, 8) {
            return places.ended(Ending::ShortChild, 8);
        }
        places.children[8] = Child(word::read_u64(s, at));
        if at + 8 == s.len() {
            return places.ended(Ending::NoByteLeft, 8);
        }
        places.ended(Ending::BytesIgnored, 8)
    }

    // The places of bytes in standard form; of others those of no bytes, which are refused.
    pub fn read_standard(s: &[u8]) -> Places
        ensures { result ≡ places_of (standard_of s.now) }
    {
        let places = Places::read(s);
        if !places.standard {
            return Places::read(&s[0..0]);
        }
        places
    }
}

// The reading of the bytes whose places these are: their keys are copied.
fn with_keys(s: &[u8], places: Places) -> Reading
    requires { places ≡ places_of s.now }
    ensures { result ≡ reading_of s.now }
{
    let mut reading = Reading {
        ending: places.ending,
        node: Node {
            count: places.count,
            children: places.children,
            values: places.values,
            lens: places.lens,
            keys: [0; 2304],
        },
    };
    for i in 0..places.count {
        word::copy(
            &mut reading.node.keys,
            288 * i,
            s,
            places.starts[i],
            places.lens[i],
        );
    }
    reading
}

pub fn read(s: &[u8]) -> Reading
    ensures { result ≡ reading_of s.now }
{
    let places = Places::read(s);
    with_keys(s, places)
}

// The key of a separator, as a part of the bytes whose places these are; empty where there is none.
fn key_in(s: &[u8], places: Places, index: Index) -> &[u8]
    requires { places ≡ places_of s.now }
    ensures { result.now ≡ part s.now (key_place s.now index.0).start (key_place s.now index.0).len }
{
    let i = index.0;
    if i < places.count {
        let start = places.starts[i];
        let end = start + places.lens[i];
        return &s[start..end];
    }
    &s[0..0]
}

// The key of a separator, as a part of the node bytes; empty where there is none.
pub fn key(s: &[u8], index: Index) -> &[u8]
    ensures { result.now ≡ part s.now (key_place s.now index.0).start (key_place s.now index.0).len }
{
    key_in(s, Places::read(s), index)
}

// ---- the strict reading

// Whether 0xFF and a length below 255 stand in the separator at a place.
fn is_low(s: &[u8], at: usize) -> bool
    ensures { result ≡ is_low s.now at }
{
    if !word::fits(s.len(), at, 13) {
        return false;
    }
    255 <= s[at + 8] && word::read_u32(s, at + 9) < 255
}

fn ends_at(s: &[u8], at: usize, ending: Ending) -> Strict
    ensures { result ≡ ends_at s.now at ending }
{
    match ending {
        Ending::ZeroValue => {
            if is_low(s, at) {
                Strict::LowSize
            } else {
                Strict::EndsIn(ending)
            }
        }
        _ => Strict::EndsIn(ending),
    }
}

// How a strict reading ends, and where; it builds no places.
pub fn strict_end(s: &[u8]) -> Stopped
    ensures { result ≡ strict_end s.now }
{
    let mut at = 0;
    for _ in 0..8usize {
        if !word::fits(s.len(), at, 8) {
            return Stopped {
                ending: Strict::EndsIn(Ending::ShortChild),
                at,
            };
        }
        at += 8;
        if at == s.len() {
            return Stopped {
                ending: Strict::EndsIn(Ending::NoByteLeft),
                at,
            };
        }
        match read_separator(s, at) {
            Err(ending) => {
                return Stopped {
                    ending: ends_at(s, at, ending),
                    at,
                };
            }
            Ok(head) => {
                if !head.plain {
                    return Stopped {
                        ending: Strict::LowSize,
                        at,
                    };
                }
                at = head.start + head.len;
            }
        }
    }
    last_child(s, at)
}

// The ninth child, behind which no byte may follow.
fn last_child(s: &[u8], at: usize) -> Stopped
    ensures { result ≡ strict_from s.now 0 at }
{
    if !word::fits(s.len(), at, 8) {
        return Stopped {
            ending: Strict::EndsIn(Ending::ShortChild),
            at,
        };
    }
    let end = at + 8;
    if end == s.len() {
        return Stopped {
            ending: Strict::EndsIn(Ending::NoByteLeft),
            at: end,
        };
    }
    Stopped {
        ending: Strict::EndsIn(Ending::BytesIgnored),
        at: end,
    }
}

// The reading of bytes in standard form; of others that of no bytes, which is refused. Not over Places::read_standard, whose places
// are then not those of s.
pub fn read_standard(s: &[u8]) -> Reading
    ensures { result ≡ reading_of (standard_of s.now) }
{
    let places = Places::read(s);
    if !places.standard {
        return Reading::none();
    }
    with_keys(s, places)
}

pub fn read_strict(s: &[u8]) -> StrictReading
    ensures { result ≡ strict_reading s.now }
{
    let stopped = strict_end(s);
    StrictReading {
        ending: stopped.ending,
        at: stopped.at,
        node: read_standard(s).node,
    }
}

// As `key`, and empty where the strict reading refuses.
pub fn key_strict(s: &[u8], index: Index) -> &[u8]
    ensures { result.now ≡ part s.now (key_place (standard_of s.now) index.0).start (key_place (standard_of s.now) index.0).len }
{
    let places = Places::read(s);
    if !places.standard {
        return &s[0..0];
    }
    key_in(s, places, index)
}

// How many bytes a separator with a key of len bytes takes.
fn sep_length(len: u16) -> usize
    ensures { result ≡ sep_length len }
{
    let len = len as usize;
    if len < 255 { 9 + len } else { 13 + len }
}

// `any` of two types: within `measure` the proof of neither chain closes.
fn any_long(lens: &[usize]) -> bool
    ensures { result ≡ any_of is_long lens.now }
{
    lens.iter().any(|len| 288 < *len)
}

fn any_zero(values: &[Value]) -> bool
    ensures { result ≡ any_of is_none values.now }
{
    values.iter().any(|value| value.0 == 0)
}

// The refusals that don't ask for the destination, or the length of standard form.
fn measure(node: &Node) -> Result<usize, WriteError>
    ensures { result ≡ measured node.now.count node.now.lens node.now.values }
{
    if 8 < node.count {
        return Err(WriteError::TooMany);
    }
    if any_long(&node.lens[..node.count]) {
        return Err(WriteError::LongKey);
    }
    if any_zero(&node.values[..node.count]) {
        return Err(WriteError::NoValue);
    }
    let mut len = 8;
    for i in 0..node.count {
        len += sep_length(node.lens[i] as u16) + 8;
    }
    Ok(len)
}

// A separator at a place, its key being a part of the keys, where it is not too long and the destination has the bytes; else nothing.
fn write_separator(dst: &mut [u8], at: usize, keys: &[u8], from: usize, len: usize, value: Value)
    requires { from + len ≤ length keys.now }
    ensures { dst.new ≡ put_sep dst.old at (record { key = part keys.now from len; val = value.0 }) }
{
    if 288 < len {
        return;
    }
    if !word::fits(dst.len(), at, sep_length(len as u16)) {
        return;
    }
    word::write_u64(dst, at, value.0);
    if len < 255 {
        dst[at + 8] = len as u8;
        word::copy(dst, at + 9, keys, from, len);
    } else {
        dst[at + 8] = 255;
        word::write_u32(dst, at + 9, len as u32);
        word::copy(dst, at + 13, keys, from, len);
    }
}

// A separator and the child right of it put in at a place among the len bytes in front of dst, those behind the place moved
// up: the new length. Nothing is done, and there is none, where the key is too long, dst too short or the place not among them.
pub fn splice(
    dst: &mut [u8],
    len: usize,
    at: usize,
    key: &[u8],
    value: Value,
    child: Child,
) -> Option<usize>
    ensures { (result ≡ new_length (splice_in dst.old len at (record { key = key.now; val = value.0 }) child.0)) × (dst.new ≡ (splice_in dst.old len at (record { key = key.now; val = value.0 }) child.0).bytes) }
{
    let size = key.len();
    if 288 < size {
        return None;
    }
    let width = sep_length(size as u16);
    let more = width + 8;
    if !word::fits(dst.len(), len, more) {
        return None;
    }
    if len < at {
        return None;
    }
    word::move_up(dst, at, len - at, more);
    write_separator(dst, at, key, 0, size, value);
    word::write_u64(dst, at + width, child.0);
    Some(len + more)
}

// A node in standard form to the front of the destination: its length.
pub fn write(node: Node, dst: &mut [u8]) -> Result<usize, WriteError>
    ensures { (result ≡ written_of node dst.old) × (dst.new ≡ left_by (written_of node dst.old) node dst.old) }
{
    let len = measure(&node)?;
    if dst.len() < len {
        return Err(WriteError::ShortDestination);
    }
    word::write_u64(dst, 0, node.children[0].0);
    let mut at = 8;
    for i in 0..node.count {
        write_separator(dst, at, &node.keys, 288 * i, node.lens[i], node.values[i]);
        at += sep_length(node.lens[i] as u16);
        word::write_u64(dst, at, node.children[i + 1].0);
        at += 8;
    }
    Ok(len)
}
