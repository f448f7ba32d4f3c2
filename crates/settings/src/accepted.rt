// A setting that is accepted, for what is worked out in accepted settings only: its type says what the checks 1 to 6 leave.
ghost use Rattle.std.specs.Prelude.{◌≡◌};
ghost use Rattle.settings.specs.Bounds.{Bounds};
ghost use Rattle.settings.specs.Settings.{base, places};

use crate::setting::Setting;

#[derive(Clone, Copy)]
pub struct Accepted {
    pub setting: Setting,
    ghost bounds: { Bounds setting },
}

impl Accepted {
    // q = 2^t
    pub fn base(self) -> u64
        ensures { result ≡ base self.setting }
    {
        1u64 << self.setting.t
    }

    // 2k-1
    pub fn places(self) -> usize
        ensures { result ≡ places self.setting }
    {
        (2 * self.setting.k - 1) as usize
    }
}
