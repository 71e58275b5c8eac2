// The exports for C and Rust: each calls the function of `capi` that has its name, with the same clauses, and does nothing else.
#![tactic(auto)]

ghost use Rattle.std.specs.Prelude.{◌≡◌};
ghost use Rattle.node.specs.Chain.{child_of};
ghost use Rattle.codec.specs.Layout.{places_of};
ghost use Rattle.iter.specs.Walk.{lookup_of};
ghost use Rattle.iter.specs.Cursor.{sought_of, forward_of, backward_of};
ghost use Rattle.lent.specs.Lent.{cursor_of, Steps, within};
ghost use Rattle.capi.specs.Face.{FormatsBy, AuditsBy, BatchesBy, ParsesBy, RunsLinesBy, LooksUp, Seeks, ReadsNode, ReadsSeparator, ReadsStrict, ReadsSeparatorStrict, lent_node, WritesNode};

#[unsafe(no_mangle)]
pub extern "C" fn cikolaro_format(store: &mut [u8], count: u32) -> u32
    ensures { FormatsBy store.old count result store.new }
{
    capi::cikolaro_format(store, count)
}

#[unsafe(no_mangle)]
pub extern "C" fn cikolaro_audit(store: &[u8], marks: &mut [u64], reached: &mut usize) -> u32
    ensures { AuditsBy store.now marks.old result marks.new reached.new }
{
    capi::cikolaro_audit(store, marks, reached)
}

#[unsafe(no_mangle)]
pub extern "C" fn cikolaro_batch(
    store: &mut [u8],
    marks: &mut [u64],
    records: &[u8],
    applied: &mut usize,
) -> u32
    ensures { BatchesBy store.old marks.old records.now result store.new marks.new applied.new }
{
    capi::cikolaro_batch(store, marks, records, applied)
}

// ---- house lines

#[unsafe(no_mangle)]
pub extern "C" fn cikolaro_parse(text: &[u8], records: &mut [u8], len: &mut usize) -> u32
    ensures { ParsesBy text.now records.old result records.new len.new }
{
    capi::cikolaro_parse(text, records, len)
}

#[unsafe(no_mangle)]
pub extern "C" fn cikolaro_run_lines(
    store: &mut [u8],
    marks: &mut [u64],
    records: &mut [u8],
    text: &[u8],
    applied: &mut usize,
) -> u32
    ensures { RunsLinesBy store.old marks.old records.old text.now result store.new marks.new records.new applied.new }
{
    capi::cikolaro_run_lines(store, marks, records, text, applied)
}

// ---- lookup

#[unsafe(no_mangle)]
pub extern "C" fn cikolaro_lookup(
    store: &[u8],
    key: &[u8],
    present: &mut u32,
    value: &mut u64,
) -> u32
    ensures { LooksUp (lookup_of store.now key.now) result present.new value.new }
{
    capi::cikolaro_lookup(store, key, present, value)
}

// ---- the cursor

#[unsafe(no_mangle)]
pub extern "C" fn cikolaro_seek(
    key: &[u8],
    kind: &mut u32,
    len: &mut usize,
    held: &mut [u8; 288],
) -> u32
    ensures { Seeks (sought_of key.now) kind.old len.old held.old result kind.new len.new held.new }
{
    capi::cikolaro_seek(key, kind, len, held)
}

#[unsafe(no_mangle)]
pub extern "C" fn cikolaro_forward(
    store: &[u8],
    kind: &mut u32,
    len: &mut usize,
    held: &mut [u8; 288],
    present: &mut u32,
    value: &mut u64,
) -> u32
    ensures { Steps (forward_of store.now (cursor_of kind.old len.old held.old)) kind.old len.old held.old result kind.new len.new held.new present.new value.new }
{
    capi::cikolaro_forward(store, kind, len, held, present, value)
}

#[unsafe(no_mangle)]
pub extern "C" fn cikolaro_backward(
    store: &[u8],
    kind: &mut u32,
    len: &mut usize,
    held: &mut [u8; 288],
    present: &mut u32,
    value: &mut u64,
) -> u32
    ensures { Steps (backward_of store.now (cursor_of kind.old len.old held.old)) kind.old len.old held.old result kind.new len.new held.new present.new value.new }
{
    capi::cikolaro_backward(store, kind, len, held, present, value)
}

// ---- node bytes, read where they stand: keys are named as parts of them

#[unsafe(no_mangle)]
pub extern "C" fn cikolaro_node_read(bytes: &[u8], count: &mut usize) -> u32
    ensures { ReadsNode (places_of bytes.now) result count.new }
{
    capi::cikolaro_node_read(bytes, count)
}

#[unsafe(no_mangle)]
pub extern "C" fn cikolaro_node_child(bytes: &[u8], index: usize) -> u64
    ensures { result ≡ (within 8 (places_of bytes.now).children index (child_of 0)).0 }
{
    capi::cikolaro_node_child(bytes, index)
}

#[unsafe(no_mangle)]
pub extern "C" fn cikolaro_node_separator(
    bytes: &[u8],
    index: usize,
    start: &mut usize,
    len: &mut usize,
    value: &mut u64,
) -> u32
    ensures { ReadsSeparator (places_of bytes.now) index result start.new len.new value.new }
{
    capi::cikolaro_node_separator(bytes, index, start, len, value)
}

// ---- the same by the strict reading

#[unsafe(no_mangle)]
pub extern "C" fn cikolaro_node_read_strict(
    bytes: &[u8],
    count: &mut usize,
    place: &mut usize,
) -> u32
    ensures { ReadsStrict bytes.now result count.new place.new }
{
    capi::cikolaro_node_read_strict(bytes, count, place)
}

#[unsafe(no_mangle)]
pub extern "C" fn cikolaro_node_separator_strict(
    bytes: &[u8],
    index: usize,
    start: &mut usize,
    len: &mut usize,
    value: &mut u64,
) -> u32
    ensures { ReadsSeparatorStrict bytes.now index result start.new len.new value.new }
{
    capi::cikolaro_node_separator_strict(bytes, index, start, len, value)
}

// ---- a node to be written

#[unsafe(no_mangle)]
pub extern "C" fn cikolaro_node_write(
    count: usize,
    children: &[u64; 9],
    values: &[u64; 8],
    lens: &[usize; 8],
    keys: &[u8; 2304],
    dst: &mut [u8],
    written: &mut usize,
) -> u32
    ensures { WritesNode (lent_node count children.now values.now lens.now keys.now) dst.old result dst.new written.new }
{
    capi::cikolaro_node_write(count, children, values, lens, keys, dst, written)
}
