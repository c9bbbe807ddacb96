// Reading and writing undo each other: what is written is read back, and what was read is written with the same bytes. Proved in proofs/.
#![tactic(auto)]

ghost use Rattle.round_trip.specs.Trips.{RoundTrips};

// Does nothing: its contract says this of files with N = tiles and t = side, so that the crate is not proved where it does not hold.
pub fn files_come_back(tiles: usize, side: usize)
    ensures { RoundTrips tiles side }
{}
