use mc_land::Terrain;
use mc_rows::Words;

/// The next words as a terrain: `flat`, `isle`, or `hills` and a seed.
pub fn terrain_in(words: &mut Words<'_>) -> Terrain {
    match words.word() {
        "flat" => Terrain::Flat,
        "isle" => Terrain::Isle,
        "hills" => Terrain::Hills(words.number()),
        _ => {
            words.fail();
            Terrain::Flat
        }
    }
}
