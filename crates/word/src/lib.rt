// Numbers in little-endian at a place of a slice, copies into a part, zero tests, and the order of keys. All is total:
// what doesn't lie within the slice reads as 0, is not written, and is not all zero.
#![tactic(auto)]

ghost use Rattle.std.specs.Prelude.{◌≡◌, [], ◌∷◌, min, ◌+◌, ◌-◌, ◌<◌, ◌≤◌, length};
ghost use Rattle.word.specs.Key.{cmp, order_of};
ghost use Rattle.word.specs.Part.{part};
ghost use Rattle.word.specs.At.{fits_in, read_at, write_at, copy_at, move_at, clear_at, zero_at};

use std::cmp::Ordering;

// Whether n bytes stand at `at` in a slice of len.
pub fn fits(len: usize, at: usize, n: usize) -> bool
    ensures { result ≡ fits_in len at n }
{
    if len < at {
        return false;
    }
    if len - at < n {
        return false;
    }
    true
}

// The N bytes of s from `at` on. The caller knows that they are there.
fn bytes_at<const N: usize>(s: &[u8], at: usize) -> [u8; N]
    requires { at + N ≤ length s.now }
    ensures { result ≡ part s.now at N }
{
    let mut bytes = [0; N];
    bytes.copy_from_slice(&s[at..at + N]);
    bytes
}

// One function for each width, here and below: std has no trait over `from_le_bytes`, and one of ours with its three impls would
// be longer than the lines that it saves.
pub fn read_u16(s: &[u8], at: usize) -> u16
    ensures { result ≡ read_at 2 s.now at }
{
    if !fits(s.len(), at, 2) {
        return 0;
    }
    u16::from_le_bytes(bytes_at(s, at))
}

pub fn read_u32(s: &[u8], at: usize) -> u32
    ensures { result ≡ read_at 4 s.now at }
{
    if !fits(s.len(), at, 4) {
        return 0;
    }
    u32::from_le_bytes(bytes_at(s, at))
}

pub fn read_u64(s: &[u8], at: usize) -> u64
    ensures { result ≡ read_at 8 s.now at }
{
    if !fits(s.len(), at, 8) {
        return 0;
    }
    u64::from_le_bytes(bytes_at(s, at))
}

pub fn write_u16(s: &mut [u8], at: usize, x: u16)
    ensures { s.new ≡ write_at 2 s.old at x }
{
    if fits(s.len(), at, 2) {
        s[at..at + 2].copy_from_slice(&x.to_le_bytes());
    }
}

pub fn write_u32(s: &mut [u8], at: usize, x: u32)
    ensures { s.new ≡ write_at 4 s.old at x }
{
    if fits(s.len(), at, 4) {
        s[at..at + 4].copy_from_slice(&x.to_le_bytes());
    }
}

pub fn write_u64(s: &mut [u8], at: usize, x: u64)
    ensures { s.new ≡ write_at 8 s.old at x }
{
    if fits(s.len(), at, 8) {
        s[at..at + 8].copy_from_slice(&x.to_le_bytes());
    }
}

// The n bytes of src from `from` on to dst at `at`, where both have them.
pub fn copy(dst: &mut [u8], at: usize, src: &[u8], from: usize, n: usize)
    ensures { dst.new ≡ copy_at dst.old at src.now from n }
{
    if !fits(dst.len(), at, n) {
        return;
    }
    if !fits(src.len(), from, n) {
        return;
    }
    dst[at..at + n].copy_from_slice(&src[from..from + n]);
}

// The n bytes of s from `at` on, written higher up by so many too, where s has them there: the last first, so that none is
// written over before it is read.
pub fn move_up(s: &mut [u8], at: usize, n: usize, up: usize)
    ensures { s.new ≡ move_at s.old at n up }
{
    if !fits(s.len(), at, n) {
        return;
    }
    if !fits(s.len(), at + n, up) {
        return;
    }
    s.copy_within(at..at + n, at + up);
}

// Zeros over the n bytes of dst from `at` on, where it has them.
pub fn clear(dst: &mut [u8], at: usize, n: usize)
    ensures { dst.new ≡ clear_at dst.old at n }
{
    if !fits(dst.len(), at, n) {
        return;
    }
    dst[at..at + n].fill(0);
}

// Whether the n bytes of s from `at` on are there and all zero: their largest is. No early exit, so that it runs over
// many bytes at a time.
pub fn is_zero(s: &[u8], at: usize, n: usize) -> bool
    ensures { result ≡ zero_at s.now at n }
{
    if !fits(s.len(), at, n) {
        return false;
    }
    let mut most: u8 = 0;
    for b in &s[at..at + n] {
        most = most.max(*b);
    }
    most == 0
}

// The order of a key and the n bytes of s from `at` on, cut at the end of s: eight bytes of both at a time, and the last
// fewer than eight one by one. Whether they differ is tested apart from which is less, since a processor foresees the first
// better than the second; and it is tested on the bytes as they stand, so that those that are alike are never swapped.
pub fn compare_part(key: &[u8], s: &[u8], at: usize, n: usize) -> Ordering
    ensures { result ≡ order_of (cmp key.now (part s.now at n)) }
{
    let len = n.min(s.len().saturating_sub(at));
    let both = key.len().min(len);
    let mut i = 0;
    while 8 <= both - i {
        let mine: [u8; 8] = bytes_at(key, i);
        let other: [u8; 8] = bytes_at(s, at + i);
        if u64::from_le_bytes(mine) != u64::from_le_bytes(other) {
            return u64::from_be_bytes(mine).cmp(&u64::from_be_bytes(other));
        }
        i += 8;
    }
    for j in i..both {
        if key[j] != s[at + j] {
            return key[j].cmp(&s[at + j]);
        }
    }
    key.len().cmp(&len)
}

// The order of two keys.
pub fn compare(a: &[u8], b: &[u8]) -> Ordering
    ensures { result ≡ order_of (cmp a.now b.now) }
{
    compare_part(a, b, 0, b.len())
}
