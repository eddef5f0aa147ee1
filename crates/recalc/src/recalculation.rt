// What the cells show, and which of them are dirty after a change: one recalculation for both, in lent memory.
ghost use Rattle.std.specs.Prelude.{◌≡◌, ℕ, ◌<◌, ◌≤◌, true, false, [], ◌∷◌, ◌++◌, ◌-◌, length, take, replicate, ◌≢◌, slice_set, MatchOption};
ghost use Rattle.evaluate.specs.declared.value.Value.{Value};
ghost use Rattle.recalc.specs.declared.formulas.Progress.TheVariants.{Waiting, Open, Known};
ghost use Rattle.recalc.specs.Table.{at, Top, Later, Right, Answers, NeedsWithin};
ghost use Rattle.recalc.specs.declared.mark.Mark.TheVariants as mark;
ghost use Rattle.recalc.specs.Marks.{mark_at, mark_if, flag, worked_out};
ghost use Rattle.recalc.specs.Change.{change, Kept, Updated};

use crate::before::Before;
use crate::formulas::{Formulas, Progress};
use crate::mark::Mark;
use evaluate::{CellError, Value};

// One that is going on. The lists are parallel, and no list of cells: an attempt is lent one whole table or the other, and who tells what
// changed reads the rest as lists.
#[derive(Drop)]
struct Recalculation<'a, F: Formulas, B: Before> {
    formulas: &'a F,
    before: &'a B,
    // What each cell shows, as far as it is known.
    table: &'a mut [Progress],
    // What of that is what it showed.
    kept: &'a mut [Progress],
    // At first which cells were written, then which are dirty, and at the end which were recalculated.
    marks: &'a mut [Mark],
    // The open cells, each looked at by the one before it, are the first `depth` of these. No stack of its own type in here: tried, and what
    // the lent lists hold at the end was not known.
    stack: &'a mut [usize],
    depth: usize,
    ghost table_even: { length table.now ≡ (F.language formulas.now).count },
    ghost kept_even: { length kept.now ≡ (F.language formulas.now).count },
    ghost marks_even: { length marks.now ≡ (F.language formulas.now).count },
    ghost room: { (F.language formulas.now).count ≤ length stack.now },
    ghost deep: { depth ≤ length stack.now },
}

// That k is a cell is asked of each step: a type of such numbers would be made anew for each, and the lists are as long as they are by the
// ghost fields. What holds from turn to turn is no ghost field, since the steps of a turn break it on the way.
impl<'a, F: Formulas, B: Before> Recalculation<'a, F, B> {
    ghost use Rattle.recalc.specs.Turns.{on_stack, change_of, SameMemory, Going, Turned};

    // Notes v as what cell k shows, and also as kept if it is what the cell showed.
    fn note(&mut self, k: usize, v: Value)
        requires { k < (F.language self.old.formulas.now).count }
        ensures same { SameMemory self.old self.new }
        ensures table { self.new.table.now ≡ slice_set self.old.table.now k (Known v) }
        ensures kept { Kept (B.shows self.old.before.now) k v self.old.kept.now self.new.kept.now }
        ensures marks { self.new.marks.now ≡ self.old.marks.now }
        ensures stack { on_stack self.new ≡ on_stack self.old }
    {
        self.table[k] = Progress::Known(v);
        if v == self.before.value(k) {
            self.kept[k] = Progress::Known(v);
        }
    }

    // Puts cell k on the stack.
    fn open(&mut self, k: usize)
        requires within { k < (F.language self.old.formulas.now).count }
        requires room { length (on_stack self.old) < (F.language self.old.formulas.now).count }
        ensures same { SameMemory self.old self.new }
        ensures table { self.new.table.now ≡ slice_set self.old.table.now k (Open (length (on_stack self.old))) }
        ensures kept { self.new.kept.now ≡ self.old.kept.now }
        ensures marks { self.new.marks.now ≡ self.old.marks.now }
        ensures stack { on_stack self.new ≡ on_stack self.old ++ k ∷ [] }
    {
        self.table[k] = Progress::Open(self.depth);
        self.stack[self.depth] = k;
        self.depth += 1;
    }

    // The cell on top of the stack.
    fn top(&self) -> Option<usize>
        ensures { MatchOption result (on_stack self.now ≡ []) (Top (on_stack self.now)) }
    {
        let last = self.depth.checked_sub(1)?;
        Some(self.stack[last])
    }

    // Takes cell k, which is on top, off the stack: if it was marked, it is worked out.
    fn close(&mut self, k: usize)
        requires { k < (F.language self.old.formulas.now).count }
        ensures same { SameMemory self.old self.new }
        ensures table { self.new.table.now ≡ self.old.table.now }
        ensures kept { self.new.kept.now ≡ self.old.kept.now }
        ensures marks { self.new.marks.now ≡ slice_set self.old.marks.now k (worked_out (mark_at self.old.marks.now k)) }
        ensures stack { on_stack self.new ≡ take (length (on_stack self.old) - 1) (on_stack self.old) }
    {
        self.depth = self.depth.saturating_sub(1);
        self.marks[k] = self.marks[k].worked_out();
    }

    // Marks cell k as dirty.
    fn mark(&mut self, k: usize)
        requires { k < (F.language self.old.formulas.now).count }
        ensures same { SameMemory self.old self.new }
        ensures table { self.new.table.now ≡ self.old.table.now }
        ensures kept { self.new.kept.now ≡ self.old.kept.now }
        ensures marks { self.new.marks.now ≡ slice_set self.old.marks.now k mark.Dirty }
        ensures stack { on_stack self.new ≡ on_stack self.old }
    {
        self.marks[k] = Mark::Dirty;
    }

    // What cell k is worked out from: all that is known if it is marked, and else the cells alone that show what they showed.
    fn known(&self, k: usize) -> &[Progress]
        requires { k < (F.language self.now.formulas.now).count }
        ensures size { length result.now ≡ (F.language self.now.formulas.now).count }
        ensures all { flag self.now.marks.now k ≡ true → result.now ≡ self.now.table.now }
        ensures same { flag self.now.marks.now k ≡ false → result.now ≡ self.now.kept.now }
    {
        if self.marks[k].is_marked() {
            self.table
        } else {
            self.kept
        }
    }

    // Cell k from what is known if it is marked, and else from the cells alone that show what they showed. None is worked out again that was.
    fn attempt(&self, k: usize) -> Result<Value, usize>
        requires within { k < (F.language self.now.formulas.now).count }
        requires once { mark_at self.now.marks.now k ≢ mark.Recalculated }
        ensures within { NeedsWithin (F.language self.now.formulas.now).count result }
        ensures all { flag self.now.marks.now k ≡ true → (s : ℕ → Value) → Right s self.now.table.now → Answers ((F.language self.now.formulas.now).work s k) ((F.language self.now.formulas.now).looks s k) self.now.table.now result }
        ensures same { flag self.now.marks.now k ≡ false → (s : ℕ → Value) → Right s self.now.kept.now → Answers ((F.language self.now.formulas.now).work s k) ((F.language self.now.formulas.now).looks s k) self.now.kept.now result }
    {
        self.formulas.attempt(k, self.known(k))
    }

    // One turn at the cell k on top of the stack.
    fn turn(&mut self, k: usize)
        requires going { Going self.old self.old }
        requires top { Top (on_stack self.old) k }
        ensures { Turned self.old self.new }
    {
        match self.attempt(k) {
            Ok(v) => {
                self.note(k, v);
                self.close(k);
            },
            Err(j) => match self.table[j] {
                Progress::Waiting => self.open(j),
                Progress::Open(_) => self.note(j, Value::Error(CellError::Cycle)),
                Progress::Known(_) => self.mark(k),
            },
        }
    }

    // Works off the stack.
    fn settle(&mut self)
        requires going { Going self.old self.old }
        ensures going { Going self.old self.new }
        ensures later { Later self.old.table.now self.new.table.now }
        ensures none { on_stack self.new ≡ [] }
    {
        while let Some(k) = self.top() {
            self.turn(k);
        }
    }

    // Goes to cell k, unless it is known already.
    fn visit(&mut self, k: usize)
        requires going { Going self.old self.old }
        requires none { on_stack self.old ≡ [] }
        requires within { k < (F.language self.old.formulas.now).count }
        ensures going { Going self.old self.new }
        ensures none { on_stack self.new ≡ [] }
        ensures later { Later self.old.table.now self.new.table.now }
        ensures here { at self.new.table.now k ≢ Waiting }
    {
        if let Progress::Waiting = self.table[k] {
            self.open(k);
            self.settle();
        }
    }

    // Goes to every cell.
    fn visit_all(&mut self)
        requires going { Going self.old self.old }
        requires none { on_stack self.old ≡ [] }
        ensures same { SameMemory self.old self.new }
        ensures updated { Updated (change_of self.old) self.new.table.now self.new.marks.now }
    {
        // By number, since the lists change under the loop.
        for k in 0..self.table.len() {
            self.visit(k);
        }
    }
}

// Nothing is known.
fn forget(table: &mut [Progress])
    ensures { table.new ≡ replicate (length table.old) Waiting }
{
    table.fill(Progress::Waiting);
}

// The cells that were written.
fn mark_written<B: Before>(before: &B, marks: &mut [Mark])
    ensures { (k : ℕ) → k < length marks.old → mark_at marks.new k ≡ mark_if (B.written before.now k) }
{
    for (k, mark) in marks.iter_mut().enumerate() {
        *mark = before.is_written(k).into();
    }
}

// Puts what each cell shows into `table`, and into `marks` which were worked out again: the cells that were written, and those that had
// looked at one that shows something else than before. `kept` and `stack` are room to work in. It does not matter what the four hold.
pub fn recalculate<F: Formulas, B: Before>(
    formulas: &F,
    before: &B,
    table: &mut [Progress],
    kept: &mut [Progress],
    marks: &mut [Mark],
    stack: &mut [usize],
)
    requires table { length table.old ≡ (F.language formulas.now).count }
    requires kept { length kept.old ≡ (F.language formulas.now).count }
    requires marks { length marks.old ≡ (F.language formulas.now).count }
    requires stack { (F.language formulas.now).count ≤ length stack.old }
    ensures { Updated (change (F.language formulas.now) (B.shows before.now) (B.written before.now)) table.new marks.new }
{
    forget(table);
    forget(kept);
    mark_written(before, marks);
    let mut cells = Recalculation {
        formulas,
        before,
        table,
        kept,
        marks,
        stack,
        depth: 0,
    };
    cells.visit_all();
}
