// Which of the sheets that are kept in one memory is the current one, and which can be undone and redone to.
ghost use Rattle.std.specs.Prelude.{◌≡◌, ℕ, ◌+◌, ◌*◌, ◌^◌, ◌<◌, ◌≤◌, min, List, [], length, IsErr, OnErr, ◌↔◌};
ghost use Rattle.recalc.specs.Entries.{entry};
ghost use Rattle.history.specs.Ring.{slot_before, slot_after, with_slot};

// The memory has 1 + steps slots of one width, in a ring: changing moves to the next slot, undoing and redoing move the cursor alone.
#[derive(Clone, Copy)]
pub struct History {
    // How many numbers a slot has.
    width: usize,
    // How many earlier sheets are kept.
    steps: usize,
    // The slot of the current sheet.
    at: usize,
    // So many slots before it can be undone to, and so many after it redone to.
    past: usize,
    to_come: usize,
    ghost small: { (1 + steps) * width < 2 ^ 64 },
    ghost there: { at ≤ steps },
    ghost few: { past + to_come ≤ steps },
}

// There is nothing to undo, or nothing to redo.
#[derive(Clone, Copy)]
pub struct NothingKept;

impl History {
    ghost use Rattle.history.specs.Kept.{kept, undone, redone, Roomy, Advances};

    // The sheet in the first slot is the current one, and no other is kept.
    pub fn new(steps: usize, width: usize) -> History
        requires { (1 + steps) * width < 2 ^ 64 }
        ensures slots { (result.width ≡ width) × (result.steps ≡ steps) }
        ensures kept { (m : List ℕ) → kept result m ≡ record { current = entry width 0 m; past = []; to_come = []; steps = steps } }
    {
        History {
            width,
            steps,
            at: 0,
            past: 0,
            to_come: 0,
        }
    }

    // Where the current sheet begins.
    pub fn start(&self) -> usize
        ensures is { result ≡ self.now.width * self.now.at }
        ensures within { result + self.now.width ≤ self.now.width * (1 + self.now.steps) }
    {
        self.width * self.at
    }

    fn previous_slot(&self) -> usize
        ensures { result ≡ slot_before (1 + self.now.steps) self.now.at 1 }
    {
        self.at.checked_sub(1).unwrap_or(self.steps)
    }

    fn next_slot(&self) -> usize
        ensures is { result ≡ slot_after (1 + self.now.steps) self.now.at 1 }
        ensures there { result ≤ self.now.steps }
    {
        if self.at < self.steps { self.at + 1 } else { 0 }
    }

    // How many earlier sheets are kept once there is one more.
    fn past_after(&self) -> usize
        ensures { result ≡ min self.now.steps (self.now.past + 1) }
    {
        if self.past < self.steps {
            self.past + 1
        } else {
            self.steps
        }
    }

    // Copies the current sheet into the next slot, where it is to be changed; where that begins.
    pub fn prepare(&self, memory: &mut [u64]) -> usize
        requires { Roomy self.now memory.old }
        ensures start { result ≡ self.now.width * slot_after (1 + self.now.steps) self.now.at 1 }
        ensures within { result + self.now.width ≤ length memory.new }
        ensures copied { memory.new ≡ with_slot self.now.width (slot_after (1 + self.now.steps) self.now.at 1) (entry self.now.width self.now.at memory.old) memory.old }
    {
        let from = self.start();
        let to = self.width * self.next_slot();
        memory.copy_within(from..from + self.width, to);
        to
    }

    // What stands in the next slot is the current sheet now, and the one before it is kept.
    pub fn advance(&mut self)
        ensures advances { Advances self.old self.new }
        ensures slots { (self.new.width ≡ self.old.width) × (self.new.steps ≡ self.old.steps) }
    {
        self.to_come = 0;
        self.past = self.past_after();
        self.at = self.next_slot();
    }

    // Back to the nearest earlier sheet; nothing is copied.
    pub fn undo(&mut self) -> Result<(), NothingKept>
        ensures undone { (m : List ℕ) → kept self.new m ≡ undone (kept self.old m) }
        ensures refused { (m : List ℕ) → IsErr result ↔ ((kept self.old m).past ≡ []) }
        ensures same { OnErr result (self.new ≡ self.old) }
        ensures slots { (self.new.width ≡ self.old.width) × (self.new.steps ≡ self.old.steps) }
    {
        if self.past == 0 {
            return Err(NothingKept);
        }
        self.at = self.previous_slot();
        self.past -= 1;
        self.to_come += 1;
        Ok(())
    }

    // Forth to the nearest sheet that was undone.
    pub fn redo(&mut self) -> Result<(), NothingKept>
        ensures redone { (m : List ℕ) → kept self.new m ≡ redone (kept self.old m) }
        ensures refused { (m : List ℕ) → IsErr result ↔ ((kept self.old m).to_come ≡ []) }
        ensures same { OnErr result (self.new ≡ self.old) }
        ensures slots { (self.new.width ≡ self.old.width) × (self.new.steps ≡ self.old.steps) }
    {
        if self.to_come == 0 {
            return Err(NothingKept);
        }
        self.at = self.next_slot();
        self.past += 1;
        self.to_come -= 1;
        Ok(())
    }
}
