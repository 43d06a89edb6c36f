ghost use Rattle.std.specs.Prelude.{◌≡◌};
ghost use Rattle.mc_view.specs.Views.{column_of_spot, view_size};

use mc_fields::Spot;

/// The column of a place in 1/32 blocks.
pub fn column_of_spot(spot: &Spot) -> (i32, i32)
    ensures { result ≡ column_of_spot spot.now }
{
    (spot.x.div_euclid(512), spot.z.div_euclid(512))
}

/// How far a client is shown columns that asked for so far, where a server gives at most `cap`.
pub fn view_size(cap: u8, asked: i8) -> u8
    ensures { result ≡ view_size cap asked }
{
    if asked < 0 {
        return 2;
    }
    (asked as u8).min(cap).max(2)
}
