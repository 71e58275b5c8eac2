// Edits of a node: each takes the node and hands it back, and is total. Unused places stay zero.
ghost use Rattle.std.specs.Prelude.{◌≡◌, [], ◌∷◌, ◌++◌, min, ◌+◌, ◌*◌, ◌-◌, ◌≤◌, get_or, length, take, drop};
ghost use Rattle.word.specs.Num.{zeros};
ghost use Rattle.node.specs.Chain.{child_of, value_of, node_of};
ghost use Rattle.node.specs.Edit.{insert_at, inserted, remove_at, removed, separator_of};
ghost use Rattle.node.specs.EditMirror.{sep_at, with_separator, with_child, opened, inserted_at, closed, removed_at, kept_to, rest_from, joined_with, split_node_at};

use crate::{Child, Index, Node, Separator, Value};

#[derive(Clone, Copy)]
pub struct Halves {
    pub left: Node,
    pub middle: Separator,
    pub right: Node,
}

// ---- arrays: what comes in moves the others by as many places, and as many are lost

fn enter_front<T: Copy>(xs: &mut [T], new: &[T])
    requires { length new.now ≤ length xs.old }
    ensures { xs.new ≡ take (length xs.old) (new.now ++ xs.old) }
{
    let left = xs.len() - new.len();
    xs.copy_within(0..left, new.len());
    xs[..new.len()].copy_from_slice(new);
}

fn enter_behind<T: Copy>(xs: &mut [T], new: &[T])
    requires { length new.now ≤ length xs.old }
    ensures { xs.new ≡ drop (length new.now) xs.old ++ new.now }
{
    let left = xs.len() - new.len();
    xs.copy_within(new.len().., 0);
    xs[left..].copy_from_slice(new);
}

// ---- one put in: past the end there is no room for it

fn open<T: Copy>(xs: &mut [T], i: usize, x: T)
    ensures { xs.new ≡ take (length xs.old) (insert_at i x xs.old) }
{
    if i < xs.len() {
        enter_front(&mut xs[i..], &[x]);
    }
}

fn open_keys(keys: &mut [u8; 2304], i: usize, key: &[u8; 288])
    ensures { keys.new ≡ take 2304 (inserted (288 * i) key.now keys.old) }
{
    if i < 8 {
        enter_front(&mut keys[288 * i..], key);
    }
}

// ---- one gone: a zero comes in at the end

fn close<T: Copy>(xs: &mut [T], i: usize, zero: T)
    ensures { xs.new ≡ take (length xs.old) (remove_at i xs.old ++ (zero ∷ [])) }
{
    if i < xs.len() {
        enter_behind(&mut xs[i..], &[zero]);
    }
}

fn close_keys(keys: &mut [u8; 2304], i: usize)
    ensures { keys.new ≡ take 2304 (removed (288 * i) 288 keys.old ++ zeros 288) }
{
    if i < 8 {
        enter_behind(&mut keys[288 * i..], &[0; 288]);
    }
}

impl Separator {
    // A key is cut at 288 bytes.
    pub fn new(key: &[u8], value: Value) -> Separator
        ensures { result ≡ separator_of (record { key = take 288 key.now; val = value.0 }) }
    {
        let mut bytes = [0u8; 288];
        let len = key.len().min(288);
        word::copy(&mut bytes, 0, key, 0, len);
        Separator {
            value,
            len,
            key: bytes,
        }
    }
}

impl Node {
    pub fn empty() -> Node
        ensures { result ≡ node_of 0 [] }
    {
        Node {
            count: 0,
            children: [Child(0); 9],
            values: [Value(0); 8],
            lens: [0usize; 8],
            keys: [0u8; 2304],
        }
    }

    pub fn child(self, i: Index) -> Child
        ensures { result ≡ get_or self.children i.0 (child_of 0) }
    {
        let i = i.0;
        if 8 < i {
            return Child(0);
        }
        self.children[i]
    }

    // Past the eighth there is none.
    pub fn separator(self, i: Index) -> Separator
        ensures { result ≡ sep_at self i.0 }
    {
        let i = i.0;
        if 7 < i {
            return Separator {
                value: Value(0),
                len: 0,
                key: [0u8; 288],
            };
        }
        let mut key = [0u8; 288];
        key.copy_from_slice(&self.keys[288 * i..288 * i + 288]);
        Separator {
            value: self.values[i],
            len: self.lens[i],
            key,
        }
    }

    pub fn set_child(mut self, i: Index, child: Child) -> Node
        ensures { result ≡ with_child self i.0 child }
    {
        let i = i.0;
        if i < 9 {
            self.children[i] = child;
        }
        self
    }

    pub fn set_separator(mut self, i: Index, sep: Separator) -> Node
        ensures { result ≡ with_separator self i.0 sep }
    {
        let i = i.0;
        if i < 8 {
            self.values[i] = sep.value;
            self.lens[i] = sep.len;
            self.keys[288 * i..288 * i + 288].copy_from_slice(&sep.key);
        }
        self
    }

    // A separator at i and a child at j, where there is room.
    fn shift_from(mut self, i: usize, j: usize, sep: Separator, child: Child) -> Node
        ensures { result ≡ opened self i j sep child }
    {
        if self.count < 8 {
            open(&mut self.children, j, child);
            open(&mut self.values, i, sep.value);
            open(&mut self.lens, i, sep.len);
            open_keys(&mut self.keys, i, &sep.key);
            self.count += 1;
        }
        self
    }

    // A separator at an index and the child right of it; where there is no room or no such index, nothing changes.
    pub fn insert_at(self, i: Index, sep: Separator, child: Child) -> Node
        ensures { result ≡ inserted_at self i.0 sep child }
    {
        let i = i.0;
        let count = self.count;
        if count < i {
            return self;
        }
        if 7 < count {
            return self;
        }
        self.shift_from(i, i + 1, sep, child)
    }

    // A separator and the child left of it at the front, where there is room.
    pub fn push_front(self, child: Child, sep: Separator) -> Node
        ensures { result ≡ opened self 0 0 sep child }
    {
        self.shift_from(0, 0, sep, child)
    }

    // Without the separator at i and the child at j, where there is a separator.
    fn remove_from(mut self, i: usize, j: usize) -> Node
        ensures { result ≡ closed self i j }
    {
        if 0 < self.count {
            close(&mut self.children, j, Child(0));
            close(&mut self.values, i, Value(0));
            close(&mut self.lens, i, 0);
            close_keys(&mut self.keys, i);
            self.count -= 1;
        }
        self
    }

    // The separator at an index and the child right of it go; where there is no such index, nothing changes.
    pub fn remove_at(self, i: Index) -> Node
        ensures { result ≡ removed_at self i.0 }
    {
        let i = i.0;
        if self.count <= i {
            return self;
        }
        self.remove_from(i, i + 1)
    }

    // The first separator and the first child go, where there is a separator.
    pub fn pop_front(self) -> Node
        ensures { result ≡ closed self 0 0 }
    {
        self.remove_from(0, 0)
    }

    // The first separators with their children, as many.
    fn keep(mut self, m: usize) -> Node
        ensures { result ≡ kept_to self m }
    {
        if m <= 8 {
            self.count = m;
            self.children[m + 1..].fill(Child(0));
            self.values[m..].fill(Value(0));
            self.lens[m..].fill(0);
            self.keys[288 * m..].fill(0);
        }
        self
    }

    // The separators from an index on, with their children.
    fn rest(mut self, m: usize) -> Node
        ensures { result ≡ rest_from self m }
    {
        if m <= 8 {
            self.count = self.count.saturating_sub(m);
            enter_behind(&mut self.children, &[Child(0); 9][..m]);
            enter_behind(&mut self.values, &[Value(0); 8][..m]);
            enter_behind(&mut self.lens, &[0; 8][..m]);
            enter_behind(&mut self.keys, &[0; 2304][..288 * m]);
        }
        self
    }

    // A full node with a separator at an index and the child right of it, as two nodes of four and the one between.
    pub fn split(mut self, i: Index, sep: Separator, child: Child) -> Halves
        ensures { result ≡ split_node_at self i.0 sep child }
    {
        let at = i.0;
        if at < 4 {
            let middle = self.separator(Index(3));
            let right = self.rest(4);
            self = self.keep(3).insert_at(i, sep, child);
            return Halves {
                left: self,
                middle,
                right,
            };
        }
        if 4 < at {
            let middle = self.separator(Index(4));
            let right = self.rest(5).insert_at(Index(at - 5), sep, child);
            self = self.keep(4);
            return Halves {
                left: self,
                middle,
                right,
            };
        }
        let right = self.rest(4).set_child(Index(0), child);
        self = self.keep(4);
        Halves {
            left: self,
            middle: sep,
            right,
        }
    }

    // The separator between two neighbours comes down, and the right one's contents behind it, where there is room.
    pub fn join(mut self, sep: Separator, right: Node) -> Node
        ensures { result ≡ joined_with self sep right }
    {
        let m = self.count;
        let n = right.count;
        if !word::fits(7, m, n) {
            return self;
        }
        self.children[m + 1..m + n + 2].copy_from_slice(&right.children[..n + 1]);
        self.values[m] = sep.value;
        self.values[m + 1..m + n + 1].copy_from_slice(&right.values[..n]);
        self.lens[m] = sep.len;
        self.lens[m + 1..m + n + 1].copy_from_slice(&right.lens[..n]);
        self.keys[288 * m..288 * m + 288].copy_from_slice(&sep.key);
        self.keys[288 * m + 288..288 * (m + n + 1)].copy_from_slice(&right.keys[..288 * n]);
        self.count = m + n + 1;
        self
    }
}
