ghost use Rattle.std.specs.Prelude.{◌≡◌, ◌+◌, ◌≤◌};
ghost use Rattle.mc_slots.specs.Pile.{IsItem, Sort, count_of, held, pile_of};
ghost use Rattle.mc_slots.specs.declared.pile.Pile.TheVariants.{Full};
ghost use Rattle.mc_windows.specs.Stock.{in_pack};
ghost use Rattle.mc_windows.specs.Storing.{stored};

use crate::desk::Desk;
use crate::floor::Floor;
use crate::order::Order;
use crate::pack::Pack;
use crate::piles::count;
use crate::place::Place;
use mc_slots::{Item, Pile};

/// Puts an item that is picked up into a pack, and answers how many of it find no room.
///
/// It goes to stacks of the same item first and then to the first slot with nothing; both times to
/// the hotbar before the main part.
#[tactic(auto, unfolding(crate::specs::Storing::stored))]
pub fn store(pack: &mut Pack, item: Item) -> u8
    requires { IsItem item }
    ensures pack { pack.new ≡ (stored pack.old item).pack }
    ensures left { result ≡ count_of (stored pack.old item).floor }
    // What is left is some of the item.
    ensures rest { (stored pack.old item).floor ≡ pile_of item result }
    // No item is lost or made.
    ensures keeps { (sort : Sort) →
        in_pack sort pack.new + held sort (pile_of item result)
        ≡ in_pack sort pack.old + held sort (Full item) }
    ensures most { result ≤ item.count }
{
    let mut desk = Desk {
        pack: *pack,
        chest: None,
        floor: Floor::with(Pile::Full(item)),
    };
    desk.send(Place::Floor, Order::PickedUp);
    *pack = desk.pack;
    count(desk.floor.pile())
}
