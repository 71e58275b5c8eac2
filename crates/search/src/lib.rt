// A walk along node bytes in one reading: the child where it turns down and the separators beside it. No places are built.
#![tactic(auto)]

ghost use Rattle.std.specs.Prelude.{◌≡◌, true, false, ◌<◌};
ghost use Rattle.search.specs.Search.{bar_of, rank_of, passes, meets, misfits, empty_sight, behind_spot, at_spot, Saw, SeesLast, GoesOn};

use codec::position::Found;
use codec::read_separator;
use node::{Child, Index, Value};
use std::cmp::Ordering;

// Where a walk along a node turns down: before the first separator, at the first whose key is not below the given one, at the
// first above it, or behind the last.
#[derive(Clone, Copy)]
pub enum Turn {
    First,
    NotBelow,
    Above,
    Last,
}

// A separator in node bytes: where its key stands, and its value. Not a codec::Head, whose flag holds of each that a walk keeps: a
// sight has two of them, and is copied.
#[derive(Clone, Copy)]
pub struct Spot {
    pub start: usize,
    pub len: usize,
    pub value: Value,
}

// What the walk sees. `found` is where it turns and whether the separator there has the key, `child` the child there; `here` is
// the separator there, if it `turned` at one, and `before` the one just before, if there is one. Not `good`: the
// strict reading refuses the bytes, or their children don't fit.
#[derive(Clone, Copy)]
pub struct Sight {
    pub good: bool,
    pub turned: bool,
    pub count: usize,
    pub found: Found,
    pub child: Child,
    pub here: Spot,
    pub before: Spot,
}

// How high the order of the given key to a separator's must be for the walk to go on behind it.
fn bar(turn: Turn) -> u8
    ensures { result ≡ bar_of turn }
{
    match turn {
        Turn::First => 3,
        Turn::NotBelow => 2,
        Turn::Above => 1,
        Turn::Last => 0,
    }
}

fn rank(order: Ordering) -> u8
    ensures { result ≡ rank_of order }
{
    match order {
        Ordering::Less => 0,
        Ordering::Equal => 1,
        Ordering::Greater => 2,
    }
}

// Whether the walk goes on behind a separator, to whose key the given one has this order. By numbers, since the compiler then
// looks at the turn once before a loop; a match on the turn was tried, and a search has 2.9% more instructions with it.
fn passes(turn: Turn, order: Ordering) -> bool
    ensures { result ≡ passes turn order }
{
    bar(turn) <= rank(order)
}

// Whether the separator where it turns has the key.
fn meets(turn: Turn, order: Ordering) -> bool
    ensures { result ≡ meets turn order }
{
    match turn {
        Turn::First => false,
        Turn::NotBelow => order.is_eq(),
        Turn::Above => order.is_eq(),
        Turn::Last => false,
    }
}

// Whether a child is there where none may be, in a leaf, or missing where one must be, above.
fn is_misfit(child: Child, leaf: bool) -> bool
    ensures { result ≡ misfits leaf child }
{
    leaf == (child.0 != 0)
}

impl Sight {
    // Before the first child; or, not good, what is seen of bytes that are refused.
    pub fn start(good: bool) -> Sight
        ensures { result ≡ empty_sight good }
    {
        Sight {
            good,
            turned: false,
            count: 0,
            found: Found {
                index: Index(0),
                at: false,
            },
            child: Child(0),
            here: Spot {
                start: 0,
                len: 0,
                value: Value(0),
            },
            before: Spot {
                start: 0,
                len: 0,
                value: Value(0),
            },
        }
    }

    // Of bytes that are refused. The rest stays as it is, for nobody reads it: a loop that returns this has nothing to make ready.
    fn spoilt(self) -> Sight
        ensures { result.good ≡ false }
    {
        Sight {
            good: false,
            ..self
        }
    }

    // A separator that the walk goes on behind.
    fn go_behind(self, spot: Spot) -> Sight
        requires { self.count < 8 }
        ensures { result ≡ behind_spot self spot }
    {
        let count = self.count + 1;
        Sight {
            count,
            found: Found {
                index: Index(count),
                at: false,
            },
            before: spot,
            ..self
        }
    }

    // The separator where it turns.
    fn turn_at(self, spot: Spot, met: bool) -> Sight
        requires { self.count < 8 }
        ensures { result ≡ at_spot self spot met }
    {
        Sight {
            turned: true,
            count: self.count + 1,
            found: Found {
                index: Index(self.count),
                at: met,
            },
            here: spot,
            ..self
        }
    }

    // The child behind the eighth separator: that of the walk if it has not turned.
    fn end_last(mut self, s: &[u8], at: usize, leaf: bool) -> Sight
        ensures { SeesLast leaf s.now self at result }
    {
        if !word::fits(s.len(), at, 8) {
            return self.spoilt();
        }
        let child = Child(word::read_u64(s, at));
        if is_misfit(child, leaf) {
            return self.spoilt();
        }
        if at + 8 != s.len() {
            return self.spoilt();
        }
        if !self.turned {
            self.child = child;
        }
        self
    }

    // Behind the separator where it turned a walk only tests and counts.
    fn go_on(self, s: &[u8], from: usize, leaf: bool) -> Sight
        ensures { GoesOn leaf s.now self from result }
    {
        let mut sight = self;
        let mut at = from;
        while sight.count < 8 {
            if !word::fits(s.len(), at, 8) {
                return sight.spoilt();
            }
            if is_misfit(Child(word::read_u64(s, at)), leaf) {
                return sight.spoilt();
            }
            at += 8;
            if at == s.len() {
                return sight;
            }
            let Ok(head) = read_separator(s, at) else {
                return sight.spoilt();
            };
            if !head.plain {
                return sight.spoilt();
            }
            at = head.start + head.len;
            sight.count += 1;
        }
        sight.end_last(s, at, leaf)
    }
}

// "A node read must have .. bytes that read strictly and children that fit its depth (none at 0; separators plus one above)".
pub fn search(s: &[u8], key: &[u8], turn: Turn, leaf: bool) -> Sight
    ensures { Saw turn leaf s.now key.now result }
{
    let mut sight = Sight::start(true);
    let mut at: usize = 0;
    while sight.count < 8 {
        if !word::fits(s.len(), at, 8) {
            return sight.spoilt();
        }
        let child = Child(word::read_u64(s, at));
        if is_misfit(child, leaf) {
            return sight.spoilt();
        }
        sight.child = child;
        at += 8;
        if at == s.len() {
            return sight;
        }
        let Ok(head) = read_separator(s, at) else {
            return sight.spoilt();
        };
        if !head.plain {
            return sight.spoilt();
        }
        let spot = Spot {
            start: head.start,
            len: head.len,
            value: head.value,
        };
        at = head.start + head.len;
        let order = word::compare_part(key, s, head.start, head.len);
        if !passes(turn, order) {
            let there = sight.turn_at(spot, meets(turn, order));
            return there.go_on(s, at, leaf);
        }
        sight = sight.go_behind(spot);
    }
    sight.end_last(s, at, leaf)
}
