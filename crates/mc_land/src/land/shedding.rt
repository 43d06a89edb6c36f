ghost use Rattle.std.specs.Prelude.{◌≡◌, ◌+◌, ◌<◌, ◌≤◌, ℕ, List, length, slice_index_or};
ghost use Rattle.std.specs.Prelude.{if◌then◌else◌};
ghost use Rattle.std.specs.Ordering.{eq_by_cmp};
ghost use Rattle.std.specs.FinMap.{find};
ghost use Rattle.std.specs.List.{position};
ghost use Rattle.std.specs.Option.{option_map};
ghost use Rattle.mc_land.specs.Places.{Place, place_cmp};
ghost use Rattle.mc_land.specs.KeptLand.{IsIndexed};
ghost use Rattle.mc_land.specs.Ready.{ReadyValue};
ghost use Rattle.mc_land.specs.ShedCode.{AreKept, AreShed, IsShed, IsTakenAway, is_kept};
ghost use Rattle.mc_land.specs.Shed.{IsSettled, View, is_in_view, is_seen, shed_land};

use super::Land;
use crate::places::Place;
use crate::ready::Ready;
use std::collections::BTreeMap;

impl Land {
    /// Makes those columns not ready all of whose cells are as the terrain has them and that no
    /// view reaches. A view is the numbers of its middle column, and how many columns it reaches
    /// on each axis. It looks at no cell and takes no memory, and where the views are those of the
    /// last call and no cell was set since, it looks at no column that stayed then.
    pub fn shed(&mut self, views: &[(i32, i32, u8)])
        requires { IsSettled self.old }
        ensures { self.new ≡ shed_land self.old views.now }
    {
        let from = self.upkeep.known_to_stay(views);
        shed_columns(&mut self.columns, &mut self.index, views, from);
        self.upkeep
            .keep_staying(self.columns.as_slice().len(), views);
    }
}

/// Takes away the columns from `from` on that do not stay ready, from the last one down. Those
/// before it are known to stay.
fn shed_columns(
    columns: &mut Vec<Ready>,
    index: &mut BTreeMap<Place, usize>,
    views: &[(i32, i32, u8)],
    from: usize,
)
    requires indexed { IsIndexed columns.old.items index.old.entries }
    requires within { from ≤ length columns.old.items }
    requires known { AreKept views.now columns.old.items from }
    ensures indexed { IsIndexed columns.new.items index.new.entries }
    ensures shed { IsShed views.now columns.old.items columns.new.items }
    ensures kept { AreKept views.now columns.new.items (length columns.new.items) }
{
    let mut near = 0;
    for i in (from..columns.as_slice().len()).rev() {
        shed_one(columns, index, i, views, &mut near);
    }
}

/// Takes a column away, unless it stays.
fn shed_one(
    columns: &mut Vec<Ready>,
    index: &mut BTreeMap<Place, usize>,
    i: usize,
    views: &[(i32, i32, u8)],
    near: &mut usize,
)
    requires there { i < length columns.old.items }
    requires indexed { IsIndexed columns.old.items index.old.entries }
    ensures indexed { IsIndexed columns.new.items index.new.entries }
    ensures step { (start : List ReadyValue) → AreShed views.now start columns.old.items (i + 1) →
        AreShed views.now start columns.new.items i }
{
    if !is_kept(&columns[i], views, near) {
        remove_at(columns, index, i);
    }
}

/// Whether a column stays ready: a cell of it is an edit, or a view reaches it.
fn is_kept(ready: &Ready, views: &[(i32, i32, u8)], near: &mut usize) -> bool
    ensures { result ≡ is_kept views.now ready.now }
{
    ready.edits() != 0 || is_seen(ready.place(), views, near)
}

/// Whether one of some views reaches a column. The one that reached another is asked first.
fn is_seen(place: &Place, views: &[(i32, i32, u8)], near: &mut usize) -> bool
    ensures { result ≡ is_seen views.now place.now }
{
    if *near < views.len() && is_in_view(place, &views[*near]) {
        return true;
    }
    match reaching(place, views) {
        Some(at) => {
            *near = at;
            true
        }
        None => false,
    }
}

/// The first of some views that reaches a column.
fn reaching(place: &Place, views: &[(i32, i32, u8)]) -> Option<usize>
    ensures { result ≡ position (λ view. is_in_view (view.0, view.1) view.2 place.now) views.now }
{
    views.iter().position(|view| is_in_view(place, view))
}

/// Whether a view reaches a column.
fn is_in_view(place: &Place, view: &(i32, i32, u8)) -> bool
    ensures { result ≡ is_in_view (view.now.0, view.now.1) view.now.2 place.now }
{
    let reach = u32::from(view.2);
    place.0.abs_diff(view.0) <= reach && place.1.abs_diff(view.1) <= reach
}

/// Takes the column at `i` away. The last one stands there then. It takes no memory.
fn remove_at(columns: &mut Vec<Ready>, index: &mut BTreeMap<Place, usize>, i: usize)
    requires there { i < length columns.old.items }
    requires indexed { IsIndexed columns.old.items index.old.entries }
    ensures indexed { IsIndexed columns.new.items index.new.entries }
    ensures taken { (d : ReadyValue) → IsTakenAway columns.old.items columns.new.items i d }
{
    let gone = columns.swap_remove(i);
    let _place = index.remove(gone.place());
    repoint(columns, index, i);
}

/// Lets the index say which column stands at `i`, where one does.
fn repoint(columns: &Vec<Ready>, index: &mut BTreeMap<Place, usize>, i: usize)
    ensures moved { (d : ReadyValue) (q : Place) → i < length columns.now.items →
        find place_cmp q index.new.entries ≡
        (if eq_by_cmp place_cmp q (slice_index_or columns.now.items i d).place then
        option_map (λ _. i) (find place_cmp q index.old.entries) else
        find place_cmp q index.old.entries) }
    ensures none { length columns.now.items ≤ i → index.new.entries ≡ index.old.entries }
{
    if i < columns.as_slice().len() {
        point_at(index, columns[i].place(), i);
    }
}

/// Lets the index say where the column of a place stands that it has already.
fn point_at(index: &mut BTreeMap<Place, usize>, place: &Place, i: usize)
    ensures { (q : Place) → find place_cmp q index.new.entries ≡
        (if eq_by_cmp place_cmp q place.now then
        option_map (λ _. i) (find place_cmp q index.old.entries) else
        find place_cmp q index.old.entries) }
{
    match index.get_mut(place) {
        Some(at) => *at = i,
        None => {}
    }
}
