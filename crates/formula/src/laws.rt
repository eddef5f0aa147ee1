// What reading and writing promise; each function stands for a theorem.
ghost use Rattle.formula.specs.Laws.{ReadingIsSpelling, WrittenIsRead};

// A row is read as a formula exactly if it spells it.
pub fn reading_is_spelling()
    ensures { ReadingIsSpelling }
{}

// What was written is read back.
pub fn written_is_read()
    ensures { WrittenIsRead }
{}
