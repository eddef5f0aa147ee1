// A lent sheet that is not refused, with the row of what it shows.
ghost use Rattle.std.specs.Prelude.{◌≡◌, true, is_ok};
ghost use Rattle.recalc.specs.Layout.{checked};
ghost use Rattle.recalc.specs.Sheets.{sheet_in};
ghost use Rattle.recalc.specs.Showing.{ShownIn};

#[derive(Drop)]
pub struct ShownSheet<'a> {
    pub(crate) nums: &'a mut [u64],
    pub(crate) values: &'a mut [u64],
    ghost accepted: { is_ok (checked nums.now) ≡ true },
    ghost shown: { ShownIn (sheet_in nums.now) values.now },
}
