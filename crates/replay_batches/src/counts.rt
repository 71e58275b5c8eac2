// What the replay counts.

// How many cases, and how many of them came out as the list has them.
#[derive(Clone, Copy)]
pub struct Count {
    pub cases: u64,
    pub agreed: u64,
}

// The cases of a part of a block, and where the block goes on behind it.
#[derive(Clone, Copy)]
pub struct Section {
    pub count: Count,
    pub end: usize,
}

// A batch: whether it answered as the list has it and whether it answered 9; what the store held, and what it was asked. Two facts
// that are counted beside the others, whichever they are: no Result.
#[derive(Clone, Copy)]
pub struct Batch {
    pub agreed: bool,
    pub full: bool,
    pub slots: Count,
    pub entries: Count,
    pub lookups: Count,
    pub steps: Count,
}

// The whole replay: the blocks read, the batches that answered 9, and the disagreements named.
#[derive(Clone, Copy)]
pub struct Totals {
    pub blocks: u64,
    pub full: u64,
    pub named: u64,
    pub histories: Count,
    pub batches: Count,
    pub slots: Count,
    pub entries: Count,
    pub lookups: Count,
    pub steps: Count,
}

impl Count {
    pub fn none() -> Count {
        Count {
            cases: 0,
            agreed: 0,
        }
    }

    pub fn with(mut self, agreed: bool) -> Count {
        self.cases = self.cases.wrapping_add(1);
        if agreed {
            self.agreed = self.agreed.wrapping_add(1);
        }
        self
    }

    pub fn plus(mut self, more: Count) -> Count {
        self.cases = self.cases.wrapping_add(more.cases);
        self.agreed = self.agreed.wrapping_add(more.agreed);
        self
    }

    pub fn is_whole(self) -> bool {
        self.cases == self.agreed
    }
}

impl Batch {
    // Whether all of it came out as the list has it.
    pub fn is_whole(self) -> bool {
        self.agreed
            && self.slots.is_whole()
            && self.entries.is_whole()
            && self.lookups.is_whole()
            && self.steps.is_whole()
    }
}

// n, and one more if so.
fn one_more(n: u64, so: bool) -> u64 {
    if so {
        return n.wrapping_add(1);
    }
    n
}

impl Totals {
    pub fn none() -> Totals {
        Totals {
            blocks: 0,
            full: 0,
            named: 0,
            histories: Count::none(),
            batches: Count::none(),
            slots: Count::none(),
            entries: Count::none(),
            lookups: Count::none(),
            steps: Count::none(),
        }
    }

    // With a batch, and its block.
    pub fn with_batch(mut self, batch: Batch) -> Totals {
        self.blocks = one_more(self.blocks, true);
        self.full = one_more(self.full, batch.full);
        self.batches = self.batches.with(batch.is_whole());
        self.slots = self.slots.plus(batch.slots);
        self.entries = self.entries.plus(batch.entries);
        self.lookups = self.lookups.plus(batch.lookups);
        self.steps = self.steps.plus(batch.steps);
        self
    }

    // With a history, and the block that opens it.
    pub fn with_history(mut self, agreed: bool) -> Totals {
        self.blocks = one_more(self.blocks, true);
        self.histories = self.histories.with(agreed);
        self
    }
}
