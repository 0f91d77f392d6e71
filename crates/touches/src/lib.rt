// The touches that are down on a device: `down_touch_ids: Mutex<HashSet<u32>>` of src/request.rs, as a record of sixteen ids and a count.
//
// Each change comes twice: under the source's names (`insert`, `remove`, `clear`), of a record that is lent and changed where it is, and over
// it as a function of the record's value (`inserted`, `removed`, `cleared`).
#![tactic(auto)]

ghost use Rattle.std.specs.Prelude.{◌≡◌, ◌==◌, true, false, [], length, position, MatchOption, MatchResult};
ghost use Rattle.touches.specs.Touches.{held, member};
ghost use Rattle.touches.specs.Changes.{Holds, Inserts, Removes};

// The source's EIS_MAX_TOUCHES.
pub const EIS_MAX_TOUCHES: usize = 16;

// The first `count` ids are held, in the order in which they went down; what the places behind them hold means nothing. A count above
// sixteen, which no function here makes, counts as sixteen: nothing is inserted, and what is removed leaves fifteen. An array and a count, since
// no heap is used and the session's words have the two (docs/DECISIONS.md, "A count above sixteen").
#[derive(Clone, Copy, Debug, PartialEq, Eq)]
pub struct DownTouchIds {
    pub ids: [u32; EIS_MAX_TOUCHES],
    pub count: usize,
}

// Why a Down is refused, with the source's names.
#[derive(Clone, Copy, Debug, PartialEq, Eq)]
pub enum DownError {
    TooManyTouches,
    DuplicatedTouchDown,
}

impl DownTouchIds {
    pub fn new() -> Self
        ensures { Holds [] result }
    {
        Self {
            ids: [0; EIS_MAX_TOUCHES],
            count: 0,
        }
    }

    pub fn len(&self) -> usize
        ensures { result ≡ length (held self.now) }
    {
        self.count.min(EIS_MAX_TOUCHES)
    }

    // The ids that are held.
    pub fn held(&self) -> &[u32]
        ensures { result.now ≡ held self.now }
    {
        &self.ids[..self.len()]
    }

    // The place of the first such id.
    fn position(&self, id: u32) -> Option<usize>
        ensures { result ≡ position (λ held. id == held) (held self.now) }
    {
        self.held().iter().position(|held| id == *held)
    }

    pub fn contains(&self, id: u32) -> bool
        ensures { result ≡ member id (held self.now) }
    {
        self.position(id).is_some()
    }

    pub fn inserted(mut self, id: u32) -> Result<Self, DownError>
        ensures { MatchResult result (λ after. Inserts id self after (Ok tt)) (λ error. Inserts id self self (Err error)) }
    {
        self.insert(id)?;
        Ok(self)
    }

    pub fn removed(mut self, id: u32) -> Option<Self>
        ensures { MatchOption result (Removes id self self false) (λ after. Removes id self after true) }
    {
        if self.remove(id) { Some(self) } else { None }
    }

    pub fn cleared(mut self) -> Self
        ensures { Holds [] result }
    {
        self.clear();
        self
    }

    // The new id comes last.
    pub fn insert(&mut self, id: u32) -> Result<(), DownError>
        ensures { Inserts id self.old self.new result }
    {
        let n = self.len();
        if n == EIS_MAX_TOUCHES {
            return Err(DownError::TooManyTouches);
        }
        if self.contains(id) {
            return Err(DownError::DuplicatedTouchDown);
        }
        self.ids[n] = id;
        self.count = n + 1;
        Ok(())
    }

    // Whether it was held. The ids behind it move down.
    pub fn remove(&mut self, id: u32) -> bool
        ensures { Removes id self.old self.new result }
    {
        let Some(k) = self.position(id) else {
            return false;
        };
        let n = self.len();
        // One by one: by `copy_from_slice`, from a copy, it took 12 instructions more where few touches are held.
        for place in k + 1..n {
            self.ids[place - 1] = self.ids[place];
        }
        self.count = n - 1;
        true
    }

    // None is held: a paused device's touches are forgotten.
    pub fn clear(&mut self)
        ensures { Holds [] self.new }
    {
        self.count = 0;
    }
}
