// A channel's samples in stretches of 64.
ghost use Rattle.std.specs.Prelude.{◌≡◌, ℕ, ◌+◌, ◌*◌, ◌-◌, ◌/◌, ◌%◌, ◌^◌, ◌<◌, ◌≤◌, length, get_or};
ghost use Rattle.dst_spec.specs.Sample.{Shape};
ghost use Rattle.filter_analyser.specs.Stretches.{bit_of, late, passed, tally, differing, HasSamples};

/// Packs the samples of a channel, the earliest in the most significant bit of the first stretch.
pub(crate) fn pack(stretches: &mut [u64], sound: &[u8], channels: usize, channel: usize)
    requires channel { channel < channels }
    requires sound { length sound.now ≡ 8 * length stretches.old * channels }
    ensures { (f : Shape) → f.channels ≡ channels → f.octets ≡ 8 * length stretches.old → HasSamples f sound.now channel stretches.new }
{
    for place in 0..stretches.len() {
        let stretch = stretch_at(sound, channels, channel, 8 * place);
        stretches[place] = stretch;
    }
}

// The stretch of eight bytes of a channel.
fn stretch_at(sound: &[u8], channels: usize, channel: usize, first: usize) -> u64
    requires channel { channel < channels }
    requires sound { (first + 8) * channels ≤ length sound.now }
    ensures { (i : ℕ) → i < 64 → result / 2 ^ (63 - i) % 2 ≡ get_or sound.now ((first + i / 8) * channels + channel) 0 / 2 ^ (7 - i % 8) % 2 }
{
    let mut stretch = 0;
    for byte in 0..8 {
        let samples = sound[(first + byte) * channels + channel];
        stretch = stretch << 8 | u64::from(samples);
    }
    stretch
}

/// Counts the samples of `stretches` that differ from those of `behind` one to eight places before, and moves those of
/// `behind` by eight places.
pub(crate) fn compare(stretches: &[u64], behind: &mut [u64]) -> [u32; 8]
    requires same { length behind.old ≡ length stretches.now }
    requires few { length stretches.now ≤ 2352 }
    ensures counts { (j : ℕ) → j < 8 → get_or result j 0 ≡ differing stretches.now behind.old (j + 1) }
    ensures behind { (t : ℕ) → t < 64 * length stretches.now → bit_of behind.new t ≡ late behind.old 8 t }
{
    let mut counts = [0u32; 8];
    let mut before = 0u64;
    for place in 0..stretches.len() {
        let here = behind[place];
        count_stretch(&mut counts, stretches[place], here, before);
        behind[place] = moved(here, before, 8);
        before = here;
    }
    counts
}

// Counts the samples of a stretch that differ from those one to eight places before.
#[inline(always)]
fn count_stretch(counts: &mut [u32; 8], stretch: u64, here: u64, before: u64)
    requires { (j : ℕ) → j < 8 → get_or counts.old j 0 ≤ 64 * 2352 }
    ensures { (j : ℕ) → j < 8 → get_or counts.new j 0
        ≡ get_or counts.old j 0 + tally (λ i. (stretch / 2 ^ (63 - i) % 2 + passed here before (j + 1) i) % 2) 0 64 }
{
    for place in 0..8usize {
        let differing = stretch ^ moved(here, before, place as u32 + 1);
        counts[place] += differing.count_ones();
    }
}

// The 64 samples that end so many places before the end of a stretch.
#[inline(always)]
fn moved(stretch: u64, before: u64, lag: u32) -> u64
    requires least { 1 ≤ lag }
    requires most { lag < 64 }
    ensures { (i : ℕ) → i < 64 → result / 2 ^ (63 - i) % 2 ≡ passed stretch before lag i }
{
    stretch >> lag | before << (64 - lag)
}
