// The tables of channels and rates, of probabilities, and of filters and their entries.
use crate::compared::same;
use arrayvec::ArrayVec;
use dst_num::{Channels, FilterTable, Map, Params, Prob, ProbTable};

// How many channels there are, at which multiple, and the bytes of their frame, where they can be.
type Shape = Option<(usize, usize, usize)>;

fn shape_of(channels: Option<Channels>) -> Shape {
    match channels {
        Some(made) => Some((made.count(), made.multiple(), made.sound_bytes())),
        None => None,
    }
}

#[test]
fn channels_give_the_bytes_of_a_frame(rt: HostRuntime) {
    const CASES: [(u32, u32, Shape); 9] = [
        (1, 1, Some((1, 1, 4704))),
        (2, 1, Some((2, 1, 9408))),
        (6, 4, Some((6, 4, 112_896))),
        (5, 2, Some((5, 2, 47_040))),
        (0, 1, None),
        (7, 1, None),
        (1, 0, None),
        (1, 3, None),
        (1, 8, None),
    ];
    for &(count, multiple, given) in &CASES {
        let found = shape_of(Channels::at(count, multiple));
        same(&rt, &(count, multiple, found), &(count, multiple, given));
    }
    same(
        &rt,
        &[Channels::new(6), Channels::new(7)],
        &[Channels::at(6, 1), None],
    );
}

// The value of a probability, where it can be.
fn prob_of(value: u32) -> Option<u32> {
    match Prob::new(value) {
        Some(made) => Some(made.value()),
        None => None,
    }
}

#[test]
fn probabilities_are_1_to_128(rt: HostRuntime) {
    same(
        &rt,
        &[prob_of(0), prob_of(1), prob_of(128), prob_of(129)],
        &[None, Some(1), Some(128), None],
    );
}

// Whether a filter has the coefficients that it is made of, where it can be made.
fn has_its_coefs(coefs: &[i16]) -> Option<bool> {
    match FilterTable::new(coefs) {
        Some(table) => Some(table.coefs() == coefs),
        None => None,
    }
}

#[test]
fn filters_have_1_to_128_coefficients_of_nine_bits(rt: HostRuntime) {
    const CASES: [(&[i16], bool); 6] = [
        (&[], false),
        (&[-256, 255], true),
        (&[0, -257], false),
        (&[256], false),
        (&[7; 128], true),
        (&[7; 129], false),
    ];
    for &(coefs, given) in &CASES {
        let found = (coefs, has_its_coefs(coefs));
        same(&rt, &found, &(coefs, given.then_some(true)));
    }
}

// Whether a table of probabilities has the entries that it is made of, where it can be made.
fn has_its_entries(entries: &[u8]) -> Option<bool> {
    match ProbTable::new(entries) {
        Some(table) => Some(table.entries() == entries),
        None => None,
    }
}

#[test]
fn probability_tables_have_1_to_64_entries(rt: HostRuntime) {
    const CASES: [(&[u8], bool); 8] = [
        (&[], false),
        (&[128], true),
        (&[64], false),
        (&[1, 128], true),
        (&[1, 0], false),
        (&[129, 1], false),
        (&[9; 64], true),
        (&[9; 65], false),
    ];
    for &(entries, given) in &CASES {
        let found = (entries, has_its_entries(entries));
        same(&rt, &found, &(entries, given.then_some(true)));
    }
}

// How many tables a map numbers, where it can be made, and whether it has the elements that it is made of, if so.
fn map_of(elements: &[u8]) -> (Option<usize>, bool) {
    match Map::new(elements) {
        Some(map) => (Some(map.count()), map.elements() == elements),
        None => (None, true),
    }
}

#[test]
fn maps_number_tables_in_order_of_first_use(rt: HostRuntime) {
    const CASES: [(&[u8], Option<usize>); 7] = [
        (&[], None),
        (&[0], Some(1)),
        (&[1], None),
        (&[0, 1, 0, 2], Some(3)),
        (&[0, 2], None),
        (&[0, 1, 2, 3, 4, 5], Some(6)),
        (&[0; 7], None),
    ];
    for &(elements, count) in &CASES {
        same(
            &rt,
            &(elements, map_of(elements)),
            &(elements, (count, true)),
        );
    }
}

// Whether parameters of two channels with these numbers of filters, one filter and one table can be, where their maps can.
fn has_parameters(numbers: [u8; 2]) -> Option<bool> {
    let filter_map = Map::new(&numbers)?;
    let prob_map = Map::new(&[0, 0])?;
    let mut half_prob = ArrayVec::new();
    half_prob.push(false);
    half_prob.push(true);
    let mut filters = ArrayVec::new();
    filters.push(FilterTable::default());
    let mut probs = ArrayVec::new();
    probs.push(ProbTable::default());
    Some(Params::new(filter_map, prob_map, half_prob, filters, probs).is_some())
}

// Whether the parameters that are there without a frame have filter 0 alone, and half bit 0 alone.
fn are_for_one_channel() -> [bool; 2] {
    let one = Params::default();
    [
        one.filter_map.elements() == [0].as_slice(),
        one.half_prob.as_slice() == [false].as_slice(),
    ]
}

#[test]
fn parameters_have_a_table_for_each_number(rt: HostRuntime) {
    let made = [has_parameters([0, 0]), has_parameters([0, 1])];
    same(
        &rt,
        &(made, are_for_one_channel()),
        &([Some(true), Some(false)], [true; 2]),
    );
}
