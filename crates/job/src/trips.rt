// The table of trips: the pumps that lose their power, and the constants of their rundown.
ghost use Rattle.std.specs.Prelude.{◌≡◌, true, ◌<◌};
ghost use Rattle.wave.specs.Nodes.{rundown};
ghost use Rattle.job.specs.Format.{trip_count, trip_in};
ghost use Rattle.job.specs.Questions.{rundown_fits};

// The number of records.
pub fn trip_count(trips: &[u8]) -> usize
    ensures { result ≡ trip_count trips.now }
{
    trips.len() / 30
}

// The node of record i.
pub fn node_of(trips: &[u8], i: usize) -> usize
    requires { i < trip_count trips.now }
    ensures { result ≡ (trip_in trips.now i).node }
{
    fields::u16_at(trips, i * 30)
}

// The trip step of record i.
pub fn step_of(trips: &[u8], i: usize) -> usize
    requires { i < trip_count trips.now }
    ensures { result ≡ (trip_in trips.now i).step }
{
    fields::u32_at(trips, i * 30 + 2)
}

// The speed that follows an old speed and an old inflow, by the constants of record i.
pub fn rundown_at(trips: &[u8], i: usize, speed: f64, inflow: f64) -> f64
    requires { (i < trip_count trips.now) × (rundown_fits (trip_in trips.now i) ≡ true) }
    ensures { result ≡ rundown (trip_in trips.now i).G (trip_in trips.now i).t0
        (trip_in trips.now i).t1 speed inflow }
{
    let at = i * 30;
    let g = fields::f64_at(trips, at + 6);
    let t0 = fields::f64_at(trips, at + 14);
    let t1 = fields::f64_at(trips, at + 22);
    wave::rundown(g, t0, t1, speed, inflow)
}
