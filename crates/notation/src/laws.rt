// What reading promises; the function stands for a theorem.
ghost use Rattle.notation.specs.Laws.{WrittenNumbersAreRead};

// Numbers that were written in decimal are read back.
pub fn written_numbers_are_read()
    ensures { WrittenNumbersAreRead }
{}
