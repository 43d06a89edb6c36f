//! A map from numbers, kept as rows whose numbers rise.

ghost use Rattle.std.specs.Prelude.{◌≡◌, IfOk, IfErr, OnOk, OnErr};
ghost use Rattle.std.specs.Ordering.{int_cmp};
ghost use Rattle.std.specs.FinMap.{from_sorted, insert};
ghost use Rattle.mc_told.specs.KeptRows.{IsAt, IsGap, IsRising};

use mc_bytes::NoMemory;

/// Where a number stands, or else where it would go.
#[inline(never)]
pub fn place_of<T>(rows: &[(i32, T)], eid: i32) -> Result<usize, usize>
    requires rising { IsRising rows.now }
    ensures found { IfOk result (IsAt rows.now eid) }
    ensures absent { IfErr result (IsGap rows.now eid) }
{
    rows.binary_search_by_key(&eid, |row| row.0)
}

/// Where a number stands, or else where it would go; that is looked for at one place first.
#[inline]
pub fn place_near<T>(rows: &[(i32, T)], near: usize, eid: i32) -> Result<usize, usize>
    requires rising { IsRising rows.now }
    ensures found { IfOk result (IsAt rows.now eid) }
    ensures absent { IfErr result (IsGap rows.now eid) }
{
    if near < rows.len() && rows[near].0 == eid {
        return Ok(near);
    }
    place_of(rows, eid)
}

/// Puts a value under a number, in the place of one that is there. Without memory all is as before.
pub fn put_row<T: Drop>(rows: &mut Vec<(i32, T)>, eid: i32, value: T) -> Result<(), NoMemory>
    requires rising { IsRising rows.old.items }
    ensures rising { IsRising rows.new.items }
    ensures ok { OnOk result (from_sorted {R = int_cmp} rows.new.items
        ≡ insert (from_sorted rows.old.items) eid value) }
    ensures err { OnErr result (rows.new.items ≡ rows.old.items) }
{
    match place_of(rows.as_slice(), eid) {
        Ok(at) => {
            rows[at] = (eid, value);
            Ok(())
        }
        Err(at) => {
            rows.insert(at, (eid, value))?;
            Ok(())
        }
    }
}
