// Values worked out apart, plain sums, and the picks of sounds for which the recursion stops early, or no step makes a filter smaller.
ghost use Rattle.std.specs.Prelude.{ℕ, ◌≤◌, ◌^◌, pos, nat_abs, get_or};
ghost use Rattle.level_spec.specs.Laws.{AreCorrelations};

use dst_num::{Channels, FilterTable, Params};
use filter_analyser::{LevelPicker, correlate, count_table, quantise, solve_filter};
use frame_predictions::Predictions;
use frame_store::{Candidates, Picker, StoreScratch, store_frame};
use std::alloc::Global;
use std::test::Fail;

// Correlations that begin with these.
fn lags_from(values: &[i64]) -> [i64; 129]
    ensures { AreCorrelations result }
{
    let mut lags = [0; 129];
    let first = values.first().copied().unwrap_or(1).max(1).min(1 << 20);
    for lag in 0..129 {
        let value = values.get(lag).copied().unwrap_or(0).max(-first).min(first);
        lags[lag] = value;
    }
    lags[0] = first;
    lags
}

// A solution that begins with these.
fn solution_from(values: &[i64]) -> [i64; 128]
    ensures { (k : ℕ) → nat_abs (get_or result k (pos 0)) ≤ 2 ^ 40 }
{
    let mut solution = [0; 128];
    for place in 0..128 {
        let value = values
            .get(place)
            .copied()
            .unwrap_or(0)
            .max(-(1 << 40))
            .min(1 << 40);
        solution[place] = value;
    }
    solution
}

#[test]
fn solutions_are_those_worked_out(rt: HostRuntime) -> Result<(), Fail> {
    const CASES: [(&[i64], usize, [i64; 3]); 6] = [
        (&[4, 2], 1, [8_388_608, 0, 0]),
        (&[4, 2, 1], 2, [8_388_608, 0, 0]),
        (&[4, 2, -1], 2, [13_981_014, -11_184_811, 0]),
        (&[4, 4], 1, [0, 0, 0]),
        (&[4, -4, 1], 2, [0, 0, 0]),
        (&[3, -1], 1, [-5_592_406, 0, 0]),
    ];
    for &(lags, order, front) in &CASES {
        let solution = solve_filter(&lags_from(lags), order);
        let found = (&solution[..3], solution[127]);
        assert_eq!(rt; found, (front.as_slice(), 0));
    }
    Ok(())
}

#[test]
fn filters_are_those_worked_out(rt: HostRuntime) -> Result<(), Fail> {
    const CASES: [(&[i64], usize, &[i16]); 6] = [
        (&[8_388_608, 0], 2, &[128]),
        (&[16_777_216], 1, &[128]),
        (&[-16_777_216], 1, &[-256]),
        (&[0], 1, &[0]),
        (&[0, 8_388_608, 0, 0], 4, &[0, 128]),
        (&[1 << 40, 1 << 24, -(1 << 40)], 3, &[255, 1, -256]),
    ];
    for &(solution, order, coefs) in &CASES {
        let filter = quantise(&solution_from(solution), order);
        assert_eq!(rt; filter.coefs(), coefs);
    }
    Ok(())
}

#[test]
fn correlations_are_plain_sums(rt: HostRuntime) -> Result<(), Fail> {
    let stereo = Channels::new(2).ok_or("two channels")?;
    let mut sound = [0u8; 9408];
    let mut state = 5u32;
    for byte in sound.iter_mut() {
        state = state.wrapping_mul(1_664_525).wrapping_add(1_013_904_223);
        *byte = (state >> 24) as u8 | (state >> 16 & 0xff) as u8 & 0x55;
    }
    let mut lags = [0; 129];
    correlate(&sound, stereo, 1, &mut lags);
    for lag in 0..129usize {
        let mut sum = 0i64;
        for t in lag..37_632 {
            let late = t - lag;
            let one = sound[t / 8 * 2 + 1] >> (7 - t % 8) & 1;
            let other = sound[late / 8 * 2 + 1] >> (7 - late % 8) & 1;
            sum = sum.wrapping_add(if one == other { 1 } else { -1 });
        }
        assert_eq!(rt; lags[lag], sum, "lag {lag}");
    }
    Ok(())
}

#[test]
fn tables_are_those_worked_out(rt: HostRuntime) -> Result<(), Fail> {
    let stereo = Channels::new(2).ok_or("two channels")?;
    // the first channel has samples 1, the second one four samples 1 and four samples 0 in turn
    let mut sound = [0xffu8; 9408];
    for byte in 0..4704usize {
        sound[2 * byte + 1] = 0xf0;
    }
    const CASES: [(&[i16], &[usize], &[u8]); 4] = [
        (&[8], &[0], &[128, 1]),
        (&[8], &[1], &[128, 64]),
        (&[8], &[0, 1], &[128, 32]),
        (&[0, -16], &[0], &[128, 128, 128]),
    ];
    for &(coefs, members, entries) in &CASES {
        let filter = FilterTable::new(coefs).ok_or("no filter")?;
        if members.len() > 6 || members.iter().any(|c| *c >= 2) {
            return Err("no such channel")?;
        }
        assert_eq!(rt;
            count_table(&sound, stereo, members, &filter).entries(),
            entries
        );
    }
    Ok(())
}

// The candidates of a level for the same byte throughout one channel.
fn candidates(alloc: Global, byte: u8, level: u32) -> Result<Candidates, Fail> {
    let mono = Channels::new(1).ok_or("one channel")?;
    let picker = LevelPicker::new(level).ok_or("no level")?;
    let sound = [byte; 4704];
    let mut predictions = Predictions::new(alloc, mono)?;
    predictions.begin(&sound);
    let mut found = Candidates::new();
    picker.pick(&sound, mono, &mut predictions, &mut found);
    Ok(found)
}

// The length and the first coefficient of the first filter.
fn length_and_first(params: &Params) -> Option<(usize, i16)> {
    let coefs = params.filters.first()?.coefs();
    Some((coefs.len(), coefs.first().copied()?))
}

#[test]
fn recursions_that_stop_give_short_filters(rt: HostRuntime) -> Result<(), Fail> {
    // the byte, and the lengths and first coefficients of the filters of the orders 16, 32, 64 and 128
    const CASES: [(u8, [usize; 4], [i16; 4]); 5] = [
        (0x96, [16, 25, 25, 25], [-53, -22, -22, -22]),
        (0x69, [16, 25, 25, 25], [-53, -22, -22, -22]),
        (0xff, [16, 32, 62, 62], [128, 255, 142, 142]),
        (0x00, [16, 32, 62, 62], [128, 255, 142, 142]),
        (0xaa, [9, 29, 64, 128], [-256, -256, -256, -256]),
    ];
    for &(byte, lengths, firsts) in &CASES {
        let none = candidates(rt.alloc(), byte, 0)?.len();
        let one = candidates(rt.alloc(), byte, 1)?.len();
        let all = candidates(rt.alloc(), byte, 2)?;
        assert_eq!(rt; (none, one, all.len()), (0, 1, 8));
        for (place, params) in all.iter().enumerate() {
            let wanted = (lengths[place % 4], firsts[place % 4]);
            assert_eq!(rt; length_and_first(params), Some(wanted));
        }
    }
    Ok(())
}

#[test]
fn refined_filters_are_those_worked_out(rt: HostRuntime) -> Result<(), Fail> {
    // the byte, the length of the filter of all channels, and how it begins
    const CASES: [(u8, usize, &[i16]); 3] = [
        (0xff, 63, &[168, 23, 13, 12]),
        (0x00, 63, &[168, 23, 13, 12]),
        (0xaa, 127, &[-255, 16, -1, 0]),
    ];
    for &(byte, length, front) in &CASES {
        let all = candidates(rt.alloc(), byte, 3)?;
        let shared = all.get(8).ok_or("no refined parameters")?;
        let filter = shared.filters.first().ok_or("no filter")?;
        let coefs = filter.coefs();
        assert_eq!(rt;
            (all.len(), coefs.len(), coefs.get(..4)),
            (11, length, Some(front))
        );
    }
    Ok(())
}

// How many bytes a sound of three channels has, stored at a level.
fn stored_length(alloc: Global, sound: &[u8], level: u32) -> Result<usize, Fail> {
    let three = Channels::new(3).ok_or("three channels")?;
    let picker = LevelPicker::new(level).ok_or("no level")?;
    if sound.len() != three.sound_bytes() {
        return Err("another length")?;
    }
    let mut scratch = StoreScratch::new(alloc, three)?;
    store_frame(&picker, sound, three, &mut scratch);
    Ok(scratch.stored().len())
}

// A sound of three channels, of which the first is one byte throughout and the others have more and less of a pattern.
fn three_channels() -> [u8; 14_112] {
    let mut sound = [0; 14_112];
    let mut state = 9u32;
    for (place, byte) in sound.iter_mut().enumerate() {
        state = state.wrapping_mul(1_664_525).wrapping_add(1_013_904_223);
        *byte = match place % 3 {
            0 => 0x69,
            1 => 0x5a ^ (state >> 29) as u8,
            _ => 0x33 ^ (1u8 << (state >> 29)) & (state >> 21 & 0xff) as u8,
        };
    }
    sound
}

#[test]
fn a_higher_level_is_never_longer(rt: HostRuntime) -> Result<(), Fail> {
    let sound = three_channels();
    let plain = stored_length(rt.alloc(), &sound, 0)?;
    let one = stored_length(rt.alloc(), &sound, 1)?;
    let two = stored_length(rt.alloc(), &sound, 2)?;
    let three = stored_length(rt.alloc(), &sound, 3)?;
    assert_eq!(rt;
        (plain, one < plain, two <= one, three <= two),
        (14_113, true, true, true)
    );
    Ok(())
}

#[test]
fn there_are_four_levels(rt: HostRuntime) -> Result<(), Fail> {
    for (level, given) in [(0, true), (1, true), (2, true), (3, true), (4, false)] {
        assert_eq!(rt; LevelPicker::new(level).is_some(), given, "{level}");
    }
    Ok(())
}
