// Undo and redo among the sheets that are kept in one memory; a sheet is two numbers here.
ghost use Rattle.std.specs.Prelude.{◌≡◌, vec_items};
ghost use Rattle.history.specs.Kept.{Roomy};

use history::History;
use std::alloc::{AllocError, Global};
use std::process::Abort;
use std::test::*;

#[derive(Drop)]
struct Past {
    memory: Vec<u64>,
    history: History,
    ghost width: { history.width ≡ 2 },
    ghost roomy: { Roomy history (vec_items memory) },
}

impl Past {
    // Nothing is kept but the first sheet, 0 0.
    fn of_two(heap: Global) -> Result<Past, AllocError> {
        Ok(Past {
            memory: vec![in heap; 0; 6]?,
            history: History::new(2, 2),
        })
    }

    fn of_none(heap: Global) -> Result<Past, AllocError> {
        Ok(Past {
            memory: vec![in heap; 0; 2]?,
            history: History::new(0, 2),
        })
    }

    // The sheet with another second number.
    fn change(&mut self, number: u64) {
        let next = self.history.prepare(self.memory.as_mut_slice());
        self.memory[next + 1] = number;
        self.history.advance();
    }

    fn undo(&mut self) -> bool {
        self.history.undo().is_ok()
    }

    fn redo(&mut self) -> bool {
        self.history.redo().is_ok()
    }

    fn shows(&self, number: u64) -> bool {
        let start = self.history.start();
        self.memory.as_slice()[start..start + 2] == [0, number]
    }
}

// Undone or redone where that can be; the current sheet is this one then.
fn goes_back(
    rt: &(impl Abort + AllocGlobal),
    past: &mut Past,
    can: bool,
    number: u64,
) -> Result<(), Fail> {
    assert_eq!(rt; past.undo(), can);
    assert!(rt; past.shows(number));
    Ok(())
}

fn goes_forth(
    rt: &(impl Abort + AllocGlobal),
    past: &mut Past,
    can: bool,
    number: u64,
) -> Result<(), Fail> {
    assert_eq!(rt; past.redo(), can);
    assert!(rt; past.shows(number));
    Ok(())
}

// Two are kept: the first sheet is forgotten with the third change.
#[test]
fn the_oldest_is_forgotten(rt: HostRuntime) -> Result<(), Fail> {
    let mut past = Past::of_two(rt.alloc())?;
    goes_back(&rt, &mut past, false, 0)?;
    for number in 1..4 {
        past.change(number);
    }
    goes_back(&rt, &mut past, true, 2)?;
    goes_back(&rt, &mut past, true, 1)?;
    goes_back(&rt, &mut past, false, 1)?;
    goes_forth(&rt, &mut past, true, 2)?;
    goes_forth(&rt, &mut past, true, 3)?;
    goes_forth(&rt, &mut past, false, 3)
}

#[test]
fn a_change_ends_redoing(rt: HostRuntime) -> Result<(), Fail> {
    let mut past = Past::of_two(rt.alloc())?;
    past.change(1);
    past.change(2);
    goes_back(&rt, &mut past, true, 1)?;
    past.change(7);
    goes_forth(&rt, &mut past, false, 7)?;
    goes_back(&rt, &mut past, true, 1)?;
    goes_back(&rt, &mut past, true, 0)
}

#[test]
fn nothing_is_kept(rt: HostRuntime) -> Result<(), Fail> {
    let mut past = Past::of_none(rt.alloc())?;
    past.change(1);
    goes_back(&rt, &mut past, false, 1)?;
    goes_forth(&rt, &mut past, false, 1)
}
