// A tablet: the quote with its earlier states, and what is shown of it.
ghost use Rattle.std.specs.Prelude.{◌≡◌, vec_items};
ghost use Rattle.history.specs.Kept.{Roomy};

use crate::quote::{COLS, ROWS, quote};
use edit::{Changes, Room, ShownSheet, Write, check_write, write_shown};
use evaluate::Value;
use history::History;
use rebase::{Rebased, rebase_all};
use recalc::{LentSheet, Refusal, Size, row_value, show_sheet};
use shift::{Axis, Change, Shift, shift_sheet};
use std::alloc::{AllocError, Global};

// A row comes in above line 1, the newel posts.
const NEW_ROW: Shift = Shift {
    axis: Axis::Row,
    change: Change::Insert,
    line: 1,
};

const MOST: Size = Size {
    rows: ROWS + 1,
    cols: COLS,
};

// How many numbers a quote takes that has come to be as large as it may.
const WIDTH: usize = 2564;

// How many earlier states are kept.
const STEPS: usize = 2;

// Carries writes over the new row. Apart from the tablet: what a ShownSheet that is gone has left in it no proof knows.
fn carry(
    nums: &mut [u64],
    values: &mut [u64],
    writes: &[Write<'_>],
    room: &mut Room,
    changes: &mut Changes,
    answers: &mut Vec<Result<Rebased, Refusal>>,
) -> Result<Result<(), AllocError>, Refusal> {
    let mut sheet = ShownSheet::show(nums, values)?;
    Ok(rebase_all(&mut sheet, NEW_ROW, writes, room, changes, answers))
}

#[derive(Drop)]
pub struct Tablet {
    memory: Vec<u64>,
    history: History,
    values: Vec<u64>,
    room: Room,
    changes: Changes,
    ghost width: { history.width ≡ 2564 },
    ghost roomy: { Roomy history (vec_items memory) },
}

impl Tablet {
    pub fn new(heap: Global) -> Result<Tablet, AllocError> {
        let mut memory = quote(heap)?;
        memory.resize((1 + STEPS) * WIDTH, 0)?;
        Ok(Tablet {
            memory,
            history: History::new(STEPS, WIDTH),
            values: vec![in heap; 0u64; 84]?,
            room: Room::new(),
            changes: Changes::new(heap)?,
        })
    }

    // The current state.
    pub fn sheet(&self) -> &[u64] {
        let start = self.history.start();
        &self.memory.as_slice()[start..start + WIDTH]
    }

    // What the last cell of the quote shows, which is its total.
    pub fn total(&mut self) -> Result<Value, Refusal> {
        let start = self.history.start();
        let nums = &self.memory.as_slice()[start..start + WIDTH];
        let values = self.values.as_mut_slice();
        show_sheet(nums, values)?;
        Ok(row_value(values, LentSheet::check(nums)?.count().saturating_sub(1)))
    }

    // Whether it is refused is asked before the state is copied: a refused command keeps all that could be undone.
    pub fn insert_row(&mut self) -> Result<(), Refusal> {
        NEW_ROW.check(LentSheet::check(self.sheet())?.size(), MOST)?;
        let next = self.history.prepare(self.memory.as_mut_slice());
        let nums = &mut self.memory.as_mut_slice()[next..next + WIDTH];
        shift_sheet(nums, NEW_ROW, MOST)?;
        self.history.advance();
        Ok(())
    }

    pub fn write(&mut self, write: Write<'_>) -> Result<(), Refusal> {
        check_write(&LentSheet::check(self.sheet())?, write)?;
        let next = self.history.prepare(self.memory.as_mut_slice());
        let nums = &mut self.memory.as_mut_slice()[next..next + WIDTH];
        write_shown(
            nums,
            self.values.as_mut_slice(),
            write,
            &mut self.room,
            &mut self.changes,
        )?;
        self.history.advance();
        Ok(())
    }

    // Writes of another tablet, which knew nothing of the row, as one step: what became of each is added to `answers`. Where there is no
    // memory for these, nothing was written, and there is no step.
    pub fn take_over(
        &mut self,
        writes: &[Write<'_>],
        answers: &mut Vec<Result<Rebased, Refusal>>,
    ) -> Result<Result<(), AllocError>, Refusal> {
        LentSheet::check(self.sheet())?;
        let next = self.history.prepare(self.memory.as_mut_slice());
        let nums = &mut self.memory.as_mut_slice()[next..next + WIDTH];
        let values = self.values.as_mut_slice();
        let done = carry(
            nums,
            values,
            writes,
            &mut self.room,
            &mut self.changes,
            answers,
        )?;
        if done.is_ok() {
            self.history.advance();
        }
        Ok(done)
    }

    // Whether there was anything to undo.
    pub fn undo(&mut self) -> bool {
        self.history.undo().is_ok()
    }

    pub fn redo(&mut self) -> bool {
        self.history.redo().is_ok()
    }
}
