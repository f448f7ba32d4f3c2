// A correction table's bytes, and what is looked up among its entries. Nothing is refused here: each function states what it assumes.
ghost use Rattle.std.specs.Prelude.{◌≡◌, ℕ, ◌+◌, ◌-◌, ◌*◌, ◌%◌, ◌^◌, ◌<◌, ◌≤◌, ltb, length};
ghost use Rattle.polynomials.specs.Indices.{pick, upto, filled, found};
ghost use Rattle.polynomials.specs.Lists.{coefficient};
ghost use Rattle.polynomials.specs.Places.{packed, looked_up};
ghost use Rattle.polynomials.specs.TableLaws.{Stands};
ghost use Rattle.layout.specs.Beginnings.{first_difference};
ghost use Rattle.settings.specs.Limits.{largest_table_modulus, word_bits};
ghost use Rattle.settings.specs.Settings.{base, places};
ghost use Rattle.tables.specs.Tables.{entries, table, header_size, table_size, reduced_word_at};
ghost use Rattle.tables.specs.TableLaws.{header, Searched};

use crate::table_setting::TableSetting;

// The bytes before the entries.
pub const HEADER_SIZE: usize = 8;

const VERSION: u8 = 1;

// An entry u + p v of the table: its u, and its value.
#[derive(Clone, Copy)]
struct Entry {
    u: u64,
    value: u64,
}

impl TableSetting {
    // 8 + p^2
    pub fn table_size(self) -> usize
        ensures { result ≡ table_size self.accepted.setting.p }
    {
        let p = self.accepted.setting.p;
        HEADER_SIZE + (p * p) as usize
    }

    // The whole table, into the first bytes.
    pub fn write_table(self, out: &mut [u8])
        requires { table_size self.accepted.setting.p ≤ length out.old }
        ensures { out.new ≡ filled (table_size self.accepted.setting.p) (coefficient (table self.accepted.setting.p self.accepted.setting.t)) out.old }
    {
        let head = self.header_bytes();
        let q = self.base_residue();
        let mut at = Entry { u: 0, value: 0 };
        for i in 0..self.table_size() {
            out[i] = table_byte(head, i, at.value);
            at = self.following(q, i, at);
        }
    }

    // The first byte at which the buffer is not the table, also where it has ended. The header is searched apart, so that no byte after it is asked whether it
    // is of the header; and the buffer's end is not asked for at each byte.
    pub fn first_difference(self, buffer: &[u8]) -> Option<usize>
        ensures { result ≡ found (first_difference buffer.now (table self.accepted.setting.p self.accepted.setting.t)) (table_size self.accepted.setting.p) }
    {
        let size = self.table_size();
        let end = size.min(buffer.len());
        let head = self.header_bytes();
        let q = self.base_residue();
        if let Some(i) = self.search(head, q, buffer, 0, HEADER_SIZE.min(end)) {
            return Some(i);
        }
        if let Some(i) = self.search(head, q, buffer, HEADER_SIZE, end) {
            return Some(i);
        }
        if end < size { Some(end) } else { None }
    }

    // The first byte from place `from` on, up to place `to`, at which the buffer is not the table; `from` is of the header, or the first place after it.
    fn search(
        self,
        head: [u8; HEADER_SIZE],
        q: u64,
        buffer: &[u8],
        from: usize,
        to: usize,
    ) -> Option<usize>
        requires numbers { (head ≡ header self.accepted.setting.p self.accepted.setting.t) × (q ≡ base self.accepted.setting % self.accepted.setting.p) × (q < self.accepted.setting.p) }
        requires places { (from ≤ header_size) × (to ≤ length buffer.now) × (to ≤ table_size self.accepted.setting.p) }
        ensures { Searched buffer.now (table self.accepted.setting.p self.accepted.setting.t) from to result }
    {
        let mut at = Entry { u: 0, value: 0 };
        for i in from..to {
            if buffer[i] != table_byte(head, i, at.value) {
                return Some(i);
            }
            at = self.following(q, i, at);
        }
        None
    }

    // q modulo p, for the base q = 2^t.
    fn base_residue(self) -> u64
        ensures { (result ≡ base self.accepted.setting % self.accepted.setting.p) × (result < self.accepted.setting.p) }
    {
        self.accepted.base() % self.accepted.setting.p
    }

    // Four bytes of how many follow, the version, two of p, one of t, the highest byte of a number first.
    fn header_bytes(self) -> [u8; HEADER_SIZE]
        ensures { result ≡ header self.accepted.setting.p self.accepted.setting.t }
    {
        let p = self.accepted.setting.p;
        let t = self.accepted.setting.t;
        let [a, b, c, d] = ((4 + p * p) as u32).to_be_bytes();
        let [e, f] = (p as u16).to_be_bytes();
        [a, b, c, d, VERSION, e, f, t as u8]
    }

    // The entry for byte i + 1, after the one for byte i: up to the header's end it is the first one still.
    fn following(self, q: u64, i: usize, at: Entry) -> Entry
        requires { (q < self.accepted.setting.p) × (Stands self.accepted.setting.p q (i - header_size) at.u at.value) }
        ensures { Stands self.accepted.setting.p q (i + 1 - header_size) result.u result.value }
    {
        if i < HEADER_SIZE {
            at
        } else {
            self.next_entry(q, at)
        }
    }

    // The entry that follows: one more modulo p, and q less where u begins anew. Instead of q, which is to be taken away, p - q is added.
    fn next_entry(self, q: u64, at: Entry) -> Entry
        requires { (q < self.accepted.setting.p) × (at.u < self.accepted.setting.p) × (at.value < self.accepted.setting.p) }
        ensures { (j : ℕ) → Stands self.accepted.setting.p q j at.u at.value → Stands self.accepted.setting.p q (j + 1) result.u result.value }
    {
        let p = self.accepted.setting.p;
        let more = one_more(p, at.value);
        if at.u + 1 < p {
            Entry {
                u: at.u + 1,
                value: more,
            }
        } else {
            Entry {
                u: 0,
                value: wrapped(p, more + (p - q)),
            }
        }
    }

    // Every word reduced by the setting's own entries.
    pub fn reduce_words(self, held: &[u8], words: &[u64], out: &mut [u64])
        requires { (held.now ≡ entries self.accepted.setting.p self.accepted.setting.t) × (length words.now ≤ length out.old) }
        ensures { out.new ≡ filled (length words.now) (reduced_word_at self.accepted.setting words.now) out.old }
    {
        for i in 0..words.len() {
            out[i] = self.look_up(held, words[i]);
        }
    }

    // The word whose field i is what stands among the entries at u_i + p u_(i+1): one division by p gives all the u, as for shifted residues, and each
    // place is looked up once. The entries may be any p^2 bytes, as long as a word has room for what is found.
    fn look_up(self, held: &[u8], word: u64) -> u64
        requires { (self.accepted.setting.p * self.accepted.setting.p ≤ length held.now) × (packed (base self.accepted.setting) (upto (places self.accepted.setting) (looked_up self.accepted.setting.p (base self.accepted.setting) held.now word)) < 2 ^ word_bits) }
        ensures { result ≡ packed (base self.accepted.setting) (upto (places self.accepted.setting) (looked_up self.accepted.setting.p (base self.accepted.setting) held.now word)) }
    {
        let p = self.accepted.setting.p;
        let t = self.accepted.setting.t;
        let mut rest = word;
        let mut quotient = word / p;
        let mut u = rest - p * quotient;
        let mut weight = 1u64;
        let mut w = 0;
        for _ in 0..self.accepted.places() {
            rest >>= t;
            quotient >>= t;
            let above = rest - p * quotient;
            let place = (u + p * above) as usize;
            w += u64::from(held[place]) * weight;
            weight <<= t;
            u = above;
        }
        w
    }
}

// Byte i: of the header, or past it the entry's value.
fn table_byte(head: [u8; HEADER_SIZE], i: usize, value: u64) -> u8
    requires { value < 256 }
    ensures { result ≡ pick (ltb i header_size) (coefficient head i) value }
{
    if i < HEADER_SIZE {
        head[i]
    } else {
        value as u8
    }
}

// x modulo p, for an x below 2p. By a call, as an entry at which u begins anew is one in p: what it takes would else be worked out at every entry.
#[cold]
#[inline(never)]
fn wrapped(p: u64, x: u64) -> u64
    requires { x < p + p }
    ensures { (result ≡ x % p) × (result < p) }
{
    if x < p { x } else { x - p }
}

// x + 1 modulo p, for an x below p. Nothing is taken away, as the next entry waits for this one.
fn one_more(p: u64, x: u64) -> u64
    requires { x < p }
    ensures { (result ≡ (x + 1) % p) × (result < p) }
{
    if x + 1 < p { x + 1 } else { 0 }
}
