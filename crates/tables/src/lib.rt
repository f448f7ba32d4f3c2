// The correction table: build, reduce by table, pick.
#![tactic(auto)]

ghost use Rattle.tables.specs.Admitting.{Admits};
ghost use Rattle.tables.specs.Tables.{Builds, ReducesByTable, Picks};

mod entries;
mod table_setting;

use crate::entries::HEADER_SIZE;
use crate::table_setting::TableSetting;
use settings::limits::LARGEST_TABLE_MODULUS;
use settings::refusals::Refusal;
use settings::setting::{Setting, accept};
use words::check_words;

// The table of the setting's p and t, 8 + p^2 bytes: 14, 10.
#[tactic(auto, unfolding(crate::specs::Tables::build_checks))]
pub fn build(s: Setting, out: &mut [u8]) -> Result<usize, Refusal>
    ensures { Builds s out.old result out.new }
{
    let s = accept_table(s)?;
    let size = s.table_size();
    if out.len() < size {
        return Err(Refusal::Short);
    }
    s.write_table(out);
    Ok(size)
}

// Each word as reduce answers it, by look-ups in a table that fits: 14, 15, 10, 11. Every byte of the table is tested on each call, once for
// the whole list, and also where the list is empty.
#[tactic(auto, unfolding(crate::specs::Tables::by_table_checks))]
pub fn reduce_by_table(
    s: Setting,
    table: &[u8],
    words: &[u64],
    out: &mut [u64],
) -> Result<usize, Refusal>
    ensures { ReducesByTable s table.now words.now out.old result out.new }
{
    let s = accept_table(s)?;
    if let Some(i) = s.first_difference(table) {
        return Err(Refusal::Stale(i));
    }
    if out.len() < words.len() {
        return Err(Refusal::Short);
    }
    check_words(s.accepted.setting, words)?;
    s.reduce_words(&table[HEADER_SIZE..s.table_size()], words, out);
    Ok(words.len())
}

// The entries of the first buffer that fits, as a part of it. It is empty, at the start of the first buffer, if neither fits, the setting is
// refused, or p > 127. The promise tells where that empty part lies, so it is no Option.
pub fn pick<'a>(s: Setting, first: &'a [u8], second: &'a [u8]) -> &'a [u8]
    ensures { Picks s first.entry second.entry result }
{
    let Ok(s) = accept_table(s) else {
        return &first[..0];
    };
    if s.first_difference(first).is_none() {
        &first[HEADER_SIZE..s.table_size()]
    } else if s.first_difference(second).is_none() {
        &second[HEADER_SIZE..s.table_size()]
    } else {
        &first[..0]
    }
}

// The setting's checks, then 14.
#[tactic(auto, unfolding(crate::specs::Tables::table_checks))]
fn accept_table(s: Setting) -> Result<TableSetting, Refusal>
    ensures { Admits s result }
{
    let accepted = accept(s)?;
    if LARGEST_TABLE_MODULUS < s.p {
        return Err(Refusal::NoTable);
    }
    Ok(TableSetting { accepted })
}
