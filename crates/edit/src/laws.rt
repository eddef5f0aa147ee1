// What is promised of a write; each function stands for theorems.
ghost use Rattle.edit.specs.Stair.{StairWrites};
ghost use Rattle.edit.specs.Laws.{ToldExactly, WorkedExactly, OneListTold, OneListWorked, NotWorkedStays};

// The places that are told are exactly those that show something else, in reading order, and no other list has them so.
pub fn told_exactly()
    ensures exactly { ToldExactly }
    ensures one { OneListTold }
{}

// The formulas that are worked out again are exactly the written one and those that looked at something that shows something else.
pub fn worked_exactly()
    ensures exactly { WorkedExactly }
    ensures one { OneListWorked }
{}

// What is neither written nor worked out again shows what it showed.
pub fn not_worked_stays()
    ensures { NotWorkedStays }
{}

// The writes of a stair's day, with what is then held and shown, told and worked out again.
pub fn stair_writes()
    ensures { StairWrites }
{}
