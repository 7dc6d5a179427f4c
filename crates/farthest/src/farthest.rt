// The greatest distance to an outlet that is not yet reached. Its calls stand in `calls`.
pub mod calls;

ghost use Rattle.std.specs.Prelude.{◌≤◌};

use network::Junction;

#[derive(Drop)]
pub struct Farthest<'m, K> {
    // The distance of junction v to the j-th outlet stands at v × 12 + j: one flat row, as the caller lends it.
    distances: &'m mut [Option<K>],
    // How many there are in the district that it was last prepared for.
    junctions: Junction,
    outlets: usize,
    ghost few: { outlets ≤ 12 },
}
