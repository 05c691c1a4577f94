// The settings, and what every value needs of them and they give only by computing: looked up once.
ghost use Rattle.std.specs.Prelude.{◌≡◌, true, ◌^◌, ◌≤◌};
ghost use Rattle.settings.specs.Legal.{settings_legal};
ghost use Rattle.body_value.specs.Planned.{halvings, Planned};

use settings::Settings;
use settings::range::Range;

// Legal settings, the sizes of a row and of a band, the samples' range, and the exponent of the interval, which is a power of 2.
#[derive(Clone, Copy)]
pub struct Plan {
    pub settings: Settings,
    pub nx: usize,
    pub area: usize,
    pub range: Range,
    pub interval: u32,
    pub ghost planned: { Planned settings nx area range interval },
}

// How often a number is halved before it is at most 1.
fn halvings(x: u32) -> u32
    requires { x ≤ 2 ^ 11 }
    ensures { result ≡ halvings 11 x }
{
    x.max(1).ilog2()
}

// The plan of legal settings.
pub fn plan_of(s: Settings) -> Plan
    requires { settings_legal s ≡ true }
    ensures settings { result.settings ≡ s }
    ensures interval { result.interval ≡ halvings 11 s.predictor.interval }
{
    let range = Range::of(s.image);
    let interval = halvings(s.predictor.interval);
    let nx = s.image.nx as usize;
    let area = nx * (s.image.ny as usize);
    Plan {
        settings: s,
        nx,
        area,
        range,
        interval,
    }
}
