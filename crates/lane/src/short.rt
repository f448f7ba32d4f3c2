// A setting whose words a double holds: accepted, and with fewer than 53 bits to a word.
ghost use Rattle.lane.specs.LaneLaws.{LaneBounds};

use settings::setting::Setting;

#[derive(Clone, Copy)]
pub struct ShortSetting {
    pub setting: Setting,
    ghost bounds: { LaneBounds setting },
}
