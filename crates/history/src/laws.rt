// What is promised of undoing and redoing; the function stands for theorems.
ghost use Rattle.history.specs.Laws.{FirstComesBack, LastComesBack, UndoneAgain};

// After changes that are all kept, as many undos bring the first sheet back, and as many redos all that there was.
pub fn there_and_back()
    ensures first { FirstComesBack }
    ensures last { LastComesBack }
    ensures again { UndoneAgain }
{}
