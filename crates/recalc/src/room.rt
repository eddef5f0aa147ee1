// Room for recalculations of a sheet.
ghost use Rattle.std.specs.Prelude.{◌≡◌, take};
ghost use Rattle.recalc.specs.Change.{change, Updated};
ghost use Rattle.recalc.specs.Sheets.{sheet_in};
ghost use Rattle.recalc.specs.Numbered.{count, sheet_language};

use crate::before::Before;
use crate::formulas::Progress;
use crate::lent::LentSheet;
use crate::mark::Mark;
use crate::recalculation::recalculate;

// As many cells as the largest sheet has.
pub const MAX_CELLS: usize = 480;

// For the largest sheet, so that nothing is allocated. It does not matter what a room holds when it is lent.
#[derive(Drop)]
pub struct Room {
    table: [Progress; MAX_CELLS],
    kept: [Progress; MAX_CELLS],
    marks: [Mark; MAX_CELLS],
    stack: [usize; MAX_CELLS],
}

impl Room {
    pub fn new() -> Room {
        Room {
            table: [Progress::Waiting; MAX_CELLS],
            kept: [Progress::Waiting; MAX_CELLS],
            marks: [Mark::Clean; MAX_CELLS],
            stack: [0; MAX_CELLS],
        }
    }

    // Works out what has to be after a change.
    pub fn recalculate<B: Before>(&mut self, sheet: &LentSheet<'_>, before: &B)
        ensures { Updated (change (sheet_language (sheet_in sheet.now.nums.now)) (B.shows before.now) (B.written before.now)) (take (count (sheet_in sheet.now.nums.now)) self.new.table) (take (count (sheet_in sheet.now.nums.now)) self.new.marks) }
    {
        let n = sheet.count();
        let table = &mut self.table[..];
        let kept = &mut self.kept[..];
        let marks = &mut self.marks[..];
        recalculate(
            sheet,
            before,
            &mut table[0..n],
            &mut kept[0..n],
            &mut marks[0..n],
            &mut self.stack,
        );
    }

    // What each cell of the sheet shows.
    pub fn table(&self, sheet: &LentSheet<'_>) -> &[Progress]
        ensures { result.now ≡ take (count (sheet_in sheet.now.nums.now)) self.now.table }
    {
        &self.table[..sheet.count()]
    }

    // Which of them were worked out again.
    pub fn marks(&self, sheet: &LentSheet<'_>) -> &[Mark]
        ensures { result.now ≡ take (count (sheet_in sheet.now.nums.now)) self.now.marks }
    {
        &self.marks[..sheet.count()]
    }
}
