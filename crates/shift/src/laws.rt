// What is promised of a shift; each function stands for theorems.
ghost use Rattle.shift.specs.Laws.{InsertionKeeps, DeletionBlanks, EitherOrder, RangeInserted, RangeDeleted, BoundIsNeeded};
ghost use Rattle.shift.specs.Memory.{OneMemory};
ghost use Rattle.shift.specs.Stair.{StairShifts};

// An insertion changes nothing that is shown, on every sheet of fewer than 2^64 - 1 lines; on a larger one it may.
pub fn insertion_keeps_values()
    ensures keeps { InsertionKeeps }
    ensures bound { BoundIsNeeded }
{}

// A deletion shows what would be shown if the line were blank and what named it were lost.
pub fn deletion_blanks_a_line()
    ensures { DeletionBlanks }
{}

// A change of rows and a change of columns come to the same in either order.
pub fn either_order()
    ensures { EitherOrder }
{}

// Which lines a range has afterwards.
pub fn ranges_keep_their_lines()
    ensures inserted { RangeInserted }
    ensures deleted { RangeDeleted }
{}

// A stair with a row inserted, with a row deleted, and with a reference lost.
pub fn stair_shifts()
    ensures { StairShifts }
{}

// No second answer, and no second memory, fits what `shift_sheet` promises.
pub fn one_memory()
    ensures { OneMemory }
{}
