// What has rows and columns, as a cell, a range or a size has: of each a part along either axis.
ghost use Rattle.std.specs.Prelude.{◌≡◌, refl};
ghost use Rattle.formula.specs.Tokens.{the_ref, the_range};
ghost use Rattle.shift.specs.declared.shift.Axis.{Axis};
ghost use Rattle.shift.specs.declared.shift.Axis.TheVariants.{Row, Column};
ghost use Rattle.shift.specs.Shifts.{by_axis};
ghost use Rattle.shift.specs.Laws.{crossing, span_of};

use crate::shift::{Axis, Span};
use formula::{CellRef, Range};
use recalc::Size;

pub(crate) trait Along: Copy {
    type Part;

    ghost part: { Axis → Self → Self.Part };

    ghost put: { Axis → Self → Self.Part → Self };

    // The part along an axis.
    fn along(self, axis: Axis) -> Self::Part
        ensures { result ≡ part axis self };

    // The same with another part along an axis.
    fn with(self, axis: Axis, new: Self::Part) -> Self
        ensures { result ≡ put axis self new };

    ghost taken: { (a : Axis) (x : Self) (p : Self.Part) → part a (put a x p) ≡ p };

    ghost kept: { (a : Axis) (x : Self) → put a x (part a x) ≡ x };

    ghost beside: { (a : Axis) (x : Self) (p : Self.Part) → part (crossing a) (put a x p) ≡ part (crossing a) x };
}

impl Along for CellRef {
    type Part = u64;

    ghost part = { λ a x. by_axis a x.row x.col };

    ghost put = { λ a x p. the_ref (by_axis a p x.row) (by_axis a x.col p) };

    ghost taken = { elim [ Row ↦ λ x p. refl | Column ↦ λ x p. refl ] };

    ghost kept = { elim [ Row ↦ λ x. refl | Column ↦ λ x. refl ] };

    ghost beside = { elim [ Row ↦ λ x p. refl | Column ↦ λ x p. refl ] };

    fn along(self, axis: Axis) -> u64 {
        axis.pick(self.row, self.col)
    }

    fn with(self, axis: Axis, new: u64) -> CellRef {
        match axis {
            Axis::Row => CellRef { row: new, ..self },
            Axis::Column => CellRef { col: new, ..self },
        }
    }
}

impl Along for Range {
    type Part = Span;

    ghost part = { span_of };

    ghost put = { λ a x p. the_range (by_axis a p.first x.row) (by_axis a p.count x.rows) (by_axis a x.col p.first) (by_axis a x.cols p.count) };

    ghost taken = { elim [ Row ↦ λ x p. refl | Column ↦ λ x p. refl ] };

    ghost kept = { elim [ Row ↦ λ x. refl | Column ↦ λ x. refl ] };

    ghost beside = { elim [ Row ↦ λ x p. refl | Column ↦ λ x p. refl ] };

    fn along(self, axis: Axis) -> Span {
        Span {
            first: axis.pick(self.row, self.col),
            count: axis.pick(self.rows, self.cols),
        }
    }

    fn with(self, axis: Axis, new: Span) -> Range {
        match axis {
            Axis::Row => Range {
                row: new.first,
                rows: new.count,
                ..self
            },
            Axis::Column => Range {
                col: new.first,
                cols: new.count,
                ..self
            },
        }
    }
}

impl Along for Size {
    type Part = u64;

    ghost part = { λ a x. by_axis a x.rows x.cols };

    ghost put = { λ a x p. record { rows = by_axis a p x.rows; cols = by_axis a x.cols p } };

    ghost taken = { elim [ Row ↦ λ x p. refl | Column ↦ λ x p. refl ] };

    ghost kept = { elim [ Row ↦ λ x. refl | Column ↦ λ x. refl ] };

    ghost beside = { elim [ Row ↦ λ x p. refl | Column ↦ λ x p. refl ] };

    fn along(self, axis: Axis) -> u64 {
        axis.pick(self.rows, self.cols)
    }

    fn with(self, axis: Axis, new: u64) -> Size {
        match axis {
            Axis::Row => Size { rows: new, ..self },
            Axis::Column => Size { cols: new, ..self },
        }
    }
}
