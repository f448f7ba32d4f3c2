// Runs the functions that programs in C and Rust call, on document 01's examples, on an input for each refusal that they give past the setting's but 13 of
// a sum, and on some refused settings, and prints number, place and value of what came. Lists are lent with sevens in them, and printed as far as they were lent. A sum is asked for with calls of
// several sizes.
#![tactic(auto)]

use exports::replies::{LaneReply, Reply};
use exports::{
    sax_build_table, sax_choose, sax_lane_reduce, sax_lane_sum, sax_pack, sax_product, sax_reduce,
    sax_reduce_by_table, sax_sum, sax_unpack,
};

const ALL: u64 = u64::MAX;

// p, k, t and n, as the functions are given them.
type Four = [u64; 4];

fn main(rt: HostRuntime) {
    choices(&rt);
    packing(&rt);
    unpacking(&rt);
    reductions(&rt);
    tables(&rt);
    by_table(&rt);
    products(&rt);
    sums(&rt);
    sums_refused(&rt);
    lane_sums(&rt);
    lane_reductions(&rt);
}

fn choices(rt: &impl Print) {
    show_choice(rt, 3, 4, 31);
    show_choice(rt, 3, 4, 32);
    show_choice(rt, 929, 2, 1);
    show_choice(rt, 65536, 1, 1);
    show_choice(rt, 1, 4, 31);
    show_choice(rt, 3, 9, 31);
    show_choice(rt, 3, 4, 0);
    show_choice(rt, ALL, ALL, ALL);
}

fn packing(rt: &impl Print) {
    show_pack(rt, [3, 2, 4, 1], &[1, 2]);
    show_pack(rt, [3, 2, 4, 1], &[2, 2]);
    show_pack(rt, [3, 2, 4, 1], &[1, 2, 0]);
    show_pack(rt, [3, 2, 4, 1], &[1, 3]);
    show_pack(rt, [3, 2, 3, 1], &[1, 3]);
    show_pack(rt, [ALL, ALL, ALL, ALL], &[1; 0]);
}

fn unpacking(rt: &impl Print) {
    show_unpack(rt, [3, 2, 4, 1], 1122, &mut [7; 3]);
    show_unpack(rt, [3, 2, 4, 1], 1122, &mut [7; 5]);
    show_unpack(rt, [3, 2, 4, 1], 1122, &mut [7; 2]);
    show_unpack(rt, [3, 2, 4, 1], 4096, &mut [7; 2]);
    show_unpack(rt, [3, 2, 22, 1], 4096, &mut [7; 2]);
}

fn reductions(rt: &impl Print) {
    show_reduce(rt, [3, 2, 4, 1], 1122);
    show_reduce(rt, [3, 2, 4, 1], 4095);
    show_reduce(rt, [3, 2, 4, 1], 4096);
    show_reduce(rt, [3, 2, 64, 1], 1122);
}

fn tables(rt: &impl Print) {
    show_table(rt, [3, 2, 4, 1], &mut [7; 17]);
    show_table(rt, [3, 2, 4, 1], &mut [7; 20]);
    show_table(rt, [3, 2, 4, 1], &mut [7; 16]);
    show_table(rt, [128, 2, 21, 1], &mut [7; 16]);
    show_table(rt, [3, 0, 4, 1], &mut [7; 16]);
}

// The table of p = 3, t = 4 with three bytes after it, and its header alone, for this setting and for others.
fn by_table(rt: &impl Print) {
    let mut table = [7u8; 20];
    sax_build_table(3, 2, 4, 1, &mut table);
    with_table(rt, &table);
    show_by_table(
        rt,
        [3, 2, 4, 1],
        &[0, 0, 0, 13, 1, 0, 3, 4],
        &[1122, 33],
        &mut [7; 2],
    );
}

fn with_table(rt: &impl Print, table: &[u8]) {
    show_by_table(rt, [3, 2, 4, 1], table, &[1122, 33, 34], &mut [7; 4]);
    show_by_table(rt, [3, 2, 4, 1], table, &[1122, 33, 4096], &mut [7; 4]);
    show_by_table(rt, [3, 2, 4, 1], table, &[1122, 33, 4096], &mut [7; 2]);
    show_by_table(rt, [3, 2, 5, 1], table, &[1122, 33, 4096], &mut [7; 2]);
    show_by_table(rt, [128, 2, 21, 1], table, &[1122, 33], &mut [7; 2]);
    show_by_table(rt, [3, 2, 4, 0], table, &[1122, 33], &mut [7; 2]);
}

fn products(rt: &impl Print) {
    show_product(rt, [3, 2, 4, 1], &[1, 2], &[2, 2], &mut [7; 5]);
    show_product(rt, [3, 2, 4, 1], &[1, 2, 1, 1, 2], &[2, 0, 1], &mut [7; 7]);
    show_product(rt, [3, 2, 4, 1], &[1; 0], &[2, 2], &mut [7; 1]);
    show_product(rt, [3, 2, 4, 1], &[1, 2], &[2, 2], &mut [7; 2]);
    show_product(rt, [3, 2, 4, 1], &[1, 2], &[2, 3], &mut [7; 2]);
    show_product(rt, [3, 2, 4, 1], &[1, 3], &[2, 3], &mut [7; 2]);
    show_product(rt, [3, 2, 4, 1], &[3; 4097], &[2, 2], &mut [7; 2]);
    show_product(rt, [3, 2, 4, 5], &[1, 2], &[2, 2], &mut [7; 5]);
}

// The three pairs of document 01, and seven others, in calls of every size.
fn sums(rt: &impl Print) {
    show_sum(
        rt,
        [3, 2, 5, 2],
        &[1, 2, 1, 2, 1, 2],
        &[2, 2, 2, 2, 2, 2],
        0,
    );
    show_sum(
        rt,
        [3, 2, 5, 2],
        &[1, 2, 1, 2, 1, 2],
        &[2, 2, 2, 2, 2, 2],
        1,
    );
    show_sum(
        rt,
        [3, 2, 5, 2],
        &[1, 2, 1, 2, 1, 2],
        &[2, 2, 2, 2, 2, 2],
        2,
    );
    show_sum(
        rt,
        [3, 2, 5, 2],
        &[1, 2, 1, 2, 1, 2],
        &[2, 2, 2, 2, 2, 2],
        3,
    );
    show_sum(rt, [3, 2, 5, 2], &[1; 0], &[2; 0], 1);
    let xs = [6, 5, 4, 3, 2, 1, 0, 1, 2, 3, 4, 5, 6, 6];
    let ys = [1, 6, 6, 0, 5, 2, 3, 3, 4, 1, 0, 6, 2, 5];
    show_sum(rt, [7, 2, 9, 3], &xs, &ys, 0);
    show_sum(rt, [7, 2, 9, 3], &xs, &ys, 1);
    show_sum(rt, [7, 2, 9, 3], &xs, &ys, 2);
    show_sum(rt, [7, 2, 9, 3], &xs, &ys, 3);
    show_sum(rt, [7, 2, 9, 3], &xs, &ys, 4);
    show_sum(rt, [7, 2, 9, 3], &xs, &ys, 6);
    show_sum(rt, [7, 2, 9, 3], &xs, &ys, 7);
    show_sum(rt, [7, 2, 9, 3], &xs, &ys, 8);
    show_sum(rt, [7, 2, 9, 3], &xs, &ys, 18446744073709551615);
}

// The place is one in the whole lists, whatever the size.
fn sums_refused(rt: &impl Print) {
    show_sum(
        rt,
        [3, 2, 5, 2],
        &[1, 2, 1, 2, 1, 2],
        &[2, 2, 2, 2, 3, 2],
        0,
    );
    show_sum(
        rt,
        [3, 2, 5, 2],
        &[1, 2, 1, 2, 1, 2],
        &[2, 2, 2, 2, 3, 2],
        1,
    );
    show_sum(
        rt,
        [3, 2, 5, 2],
        &[1, 2, 1, 2, 1, 3],
        &[2, 3, 2, 2, 2, 2],
        0,
    );
    show_sum(
        rt,
        [3, 2, 5, 2],
        &[1, 2, 1, 2, 1, 3],
        &[2, 3, 2, 2, 2, 2],
        1,
    );
    show_sum(rt, [3, 2, 5, 2], &[3, 2, 1, 2, 1], &[2, 2, 2, 2, 3], 0);
    show_sum(rt, [3, 2, 5, 2], &[3, 2, 1, 2, 1], &[2, 2, 2, 2, 3], 1);
    show_sum(rt, [3, 2, 5, 2], &[3, 2, 1, 2], &[2, 2, 2, 2, 2, 2], 1);
    show_sum(rt, [3, 2, 3, 2], &[3, 2, 1, 2], &[2, 2, 2, 2, 2, 2], 1);
    show_sum_into(
        rt,
        [3, 2, 5, 2],
        &[1, 2, 1, 2],
        &[2, 2, 2, 2],
        1,
        &mut [7; 2],
    );
    show_sum_into(
        rt,
        [3, 2, 5, 2],
        &[1, 2, 1, 3],
        &[2, 2, 2, 2],
        1,
        &mut [7; 2],
    );
}

fn lane_sums(rt: &impl Print) {
    show_lane_sum(rt, [3, 2, 5, 2], &[1, 2, 1, 2], &[2, 2, 2, 2], 8580.0);
    show_lane_sum(rt, [3, 2, 5, 2], &[1, 2, 1, 2], &[2, 2, 2, 2], 4290.0);
    show_lane_sum(rt, [3, 2, 5, 2], &[1; 0], &[2; 0], 0.0);
    show_lane_sum(rt, [3, 2, 5, 2], &[1, 2, 1, 2], &[2, 2, 2, 3], 0.0);
    show_lane_sum(rt, [3, 2, 5, 2], &[1; 6], &[3; 6], 0.0);
    show_lane_sum(rt, [3, 2, 5, 2], &[1; 6], &[3; 4], 0.0);
    show_lane_sum(rt, [3, 4, 7, 7], &[0; 4], &[3; 3], 0.0);
    show_lane_sum(rt, [3, 4, 8, 7], &[0; 4], &[3; 3], 0.0);
    show_lane_sum(rt, [3, 4, 10, 7], &[0; 4], &[3; 3], 0.0);
}

fn lane_reductions(rt: &impl Print) {
    show_lane_reduce(rt, [3, 2, 4, 1], 1122.0, 258.0);
    show_lane_reduce(rt, [3, 2, 4, 1], 1122.0, 259.0);
    show_lane_reduce(rt, [3, 2, 4, 1], 0.0, 0.0);
    show_lane_reduce(rt, [3, 2, 4, 1], 4096.0, 0.0);
    show_lane_reduce(rt, [3, 2, 4, 1], -0.0, 0.0);
    show_lane_reduce(rt, [3, 2, 4, 1], 0.5, 0.0);
    show_lane_reduce(rt, [3, 2, 18, 1], 0.5, 0.0);
    show_lane_reduce(rt, [3, 2, 22, 1], 0.5, 0.0);
}

fn show_choice(rt: &impl Print, p: u64, k: u64, n: u64) {
    lines::text(rt, b"choose");
    lines::number(rt, p);
    lines::number(rt, k);
    lines::number(rt, n);
    reply(rt, sax_choose(p, k, n));
    lines::end(rt);
}

fn show_pack(rt: &impl Print, setting: Four, xs: &[u16]) {
    let [p, k, t, n] = setting;
    lines::text(rt, b"pack");
    lines::setting(rt, setting);
    lines::text(rt, b" of");
    lines::numbers(rt, xs);
    reply(rt, sax_pack(p, k, t, n, xs));
    lines::end(rt);
}

fn show_unpack(rt: &impl Print, setting: Four, word: u64, out: &mut [u64]) {
    let [p, k, t, n] = setting;
    lines::text(rt, b"unpack");
    lines::setting(rt, setting);
    lines::text(rt, b" of");
    lines::number(rt, word);
    reply(rt, sax_unpack(p, k, t, n, word, out));
    lines::text(rt, b":");
    lines::numbers(rt, out);
    lines::end(rt);
}

fn show_reduce(rt: &impl Print, setting: Four, word: u64) {
    let [p, k, t, n] = setting;
    lines::text(rt, b"reduce");
    lines::setting(rt, setting);
    lines::text(rt, b" of");
    lines::number(rt, word);
    reply(rt, sax_reduce(p, k, t, n, word));
    lines::end(rt);
}

fn show_table(rt: &impl Print, setting: Four, out: &mut [u8]) {
    let [p, k, t, n] = setting;
    lines::text(rt, b"table");
    lines::setting(rt, setting);
    reply(rt, sax_build_table(p, k, t, n, out));
    lines::text(rt, b":");
    lines::numbers(rt, out);
    lines::end(rt);
}

fn show_by_table(rt: &impl Print, setting: Four, table: &[u8], words: &[u64], out: &mut [u64]) {
    let [p, k, t, n] = setting;
    lines::text(rt, b"by table");
    lines::setting(rt, setting);
    lines::text(rt, b" with");
    lines::number(rt, table.len() as u64);
    lines::text(rt, b" of");
    lines::numbers(rt, words);
    reply(rt, sax_reduce_by_table(p, k, t, n, table, words, out));
    lines::text(rt, b":");
    lines::numbers(rt, out);
    lines::end(rt);
}

fn show_product(rt: &impl Print, setting: Four, a: &[u16], b: &[u16], out: &mut [u16]) {
    let [p, k, t, n] = setting;
    lines::text(rt, b"product");
    lines::setting(rt, setting);
    lines::text(rt, b" of");
    lines::list(rt, a);
    lines::text(rt, b" by");
    lines::list(rt, b);
    reply(rt, sax_product(p, k, t, n, a, b, out));
    lines::text(rt, b":");
    lines::numbers(rt, out);
    lines::end(rt);
}

fn show_sum(rt: &impl Print, setting: Four, xs: &[u16], ys: &[u16], size: usize) {
    show_sum_into(rt, setting, xs, ys, size, &mut [7; 4]);
}

fn show_sum_into(
    rt: &impl Print,
    setting: Four,
    xs: &[u16],
    ys: &[u16],
    size: usize,
    out: &mut [u16],
) {
    let [p, k, t, n] = setting;
    lines::text(rt, b"sum");
    lines::setting(rt, setting);
    lines::text(rt, b" of");
    lines::numbers(rt, xs);
    lines::text(rt, b" by");
    lines::numbers(rt, ys);
    lines::text(rt, b" in");
    lines::number(rt, size as u64);
    reply(rt, sax_sum(p, k, t, n, xs, ys, size, out));
    lines::text(rt, b":");
    lines::numbers(rt, out);
    lines::end(rt);
}

fn show_lane_sum(rt: &impl Print, setting: Four, xs: &[u16], ys: &[u16], other: f64) {
    let [p, k, t, n] = setting;
    lines::text(rt, b"lane sum");
    lines::setting(rt, setting);
    lines::text(rt, b" of");
    lines::numbers(rt, xs);
    lines::text(rt, b" by");
    lines::numbers(rt, ys);
    lane_reply(rt, sax_lane_sum(p, k, t, n, xs, ys), other);
}

fn show_lane_reduce(rt: &impl Print, setting: Four, word: f64, other: f64) {
    let [p, k, t, n] = setting;
    lines::text(rt, b"lane reduce");
    lines::setting(rt, setting);
    lane_reply(rt, sax_lane_reduce(p, k, t, n, word), other);
}

fn reply(rt: &impl Print, r: Reply) {
    lines::text(rt, b":");
    lines::number(rt, r.number);
    lines::number(rt, r.place);
    lines::number(rt, r.value);
}

// A double is held against another one.
fn lane_reply(rt: &impl Print, r: LaneReply, other: f64) {
    lines::text(rt, b":");
    lines::number(rt, r.number);
    lines::number(rt, r.place);
    if r.value == other {
        lines::text(rt, b" the same\n");
        return;
    }
    lines::text(rt, b" another\n");
}
