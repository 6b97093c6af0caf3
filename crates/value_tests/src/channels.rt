// What parameters give a channel.
use crate::compared::same;
use arrayvec::ArrayVec;
use channel_params::{
    alike_channel, channel_filter, channel_half_prob, channel_probs, reserved_probability,
};
use dst_num::{FilterTable, Map, Params, ProbTable};

// Two channels of one filter and one table, whose half bits are 0 and this one, where they can be.
fn two_channels(coef: i16, second: bool) -> Option<Params> {
    let filter_map = Map::new(&[0, 0])?;
    let prob_map = Map::new(&[0, 0])?;
    let filter = FilterTable::new(&[coef, -1])?;
    let table = ProbTable::new(&[7, 128])?;
    let mut half_prob = ArrayVec::new();
    half_prob.push(false);
    half_prob.push(second);
    let mut filters = ArrayVec::new();
    filters.push(filter);
    let mut probs = ArrayVec::new();
    probs.push(table);
    Params::new(filter_map, prob_map, half_prob, filters, probs)
}

// Whether channel 1 has this filter and its table, the half bit of each channel, the channel that it is alike, and the reserved symbol's
// probability.
type Seen = ([bool; 2], [bool; 2], [usize; 2], u32);

fn seen(coef: i16, second: bool) -> Option<Seen> {
    let params = two_channels(coef, second)?;
    if params.half_prob.len() != 2 {
        return None;
    }
    let has_filter = channel_filter(&params, 1).coefs() == [coef, -1].as_slice();
    let has_table = channel_probs(&params, 1).entries() == [7, 128].as_slice();
    Some((
        [has_filter, has_table],
        [channel_half_prob(&params, 0), channel_half_prob(&params, 1)],
        [alike_channel(&params, 0), alike_channel(&params, 1)],
        reserved_probability(&params).value(),
    ))
}

#[test]
fn channels_have_their_tables(rt: HostRuntime) {
    // coefficient 0, the half bit of channel 1, the channel that it is alike, the reserved symbol's probability: 1 and the low
    // seven bits 0000101 turned round, those of -1, and 0001000
    const CASES: [(i16, bool, usize, u32); 3] = [
        (5, false, 0, 81),
        (-1, true, 1, 128),
        (8, true, 1, 9),
    ];
    for &(coef, second, alike, reserved) in &CASES {
        let wanted = ([true; 2], [false, second], [0, alike], reserved);
        same(&rt, &seen(coef, second), &Some(wanted));
    }
}
