// A setting that takes tables: accepted, and with p at most 127.
ghost use Rattle.std.specs.Prelude.{◌≤◌};
ghost use Rattle.settings.specs.Limits.{largest_table_modulus};

use settings::accepted::Accepted;

#[derive(Clone, Copy)]
pub struct TableSetting {
    pub accepted: Accepted,
    ghost small: { accepted.setting.p ≤ largest_table_modulus },
}
