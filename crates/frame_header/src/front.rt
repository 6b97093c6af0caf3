// The bits in front of a header's tables.
ghost use Rattle.std.specs.Prelude.{◌≡◌, ◌==◌, ◌+◌, ◌<◌, ◌≤◌, ◌++◌, ◌^◌, length, map};
ghost use Rattle.std.specs.List.{list_all};
ghost use Rattle.dst_spec.specs.Bits.{low_bits};
ghost use Rattle.dst_spec.specs.Map.{Numbers, map_numbers};
ghost use Rattle.dst_spec.specs.Header.{bit_of};
ghost use Rattle.dst_spec.specs.Spell.{map_spelling, same_numbers};
ghost use Rattle.dst_num.specs.Map.{IsChannelMap};
ghost use Rattle.frame_header.specs.Written.{both_maps_spelling, front_spelling, Wrote};

use crate::fields::map_bits;
use bit_io::BitWriter;
use dst_num::Params;
use std::marker::Model;

/// At most 60 bits, as one number: how many they are is known before they are written.
#[derive(Drop)]
pub(crate) struct Front {
    number: u64,
    count: u32,
}

impl Model for Front {
    ghost use Rattle.std.specs.Prelude.{List, ℕ, ◌<◌, ◌≤◌, ◌^◌};
    ghost use Rattle.dst_spec.specs.Bits.{low_bits};

    ghost Value = { List ℕ };

    ghost view = { λ f. low_bits f.count f.number };

    ghost invariant = { λ f. (f.count ≤ 60) × (f.number < 2 ^ f.count) };
}

impl Front {
    /// What a header has in front of its tables.
    pub(crate) fn of(params: &Params) -> Front
        ensures bits { result ≡ front_spelling params.now }
    {
        let mut front = Front {
            number: 15,
            count: 4,
        };
        front.put_maps(params.filter_map.elements(), params.prob_map.elements());
        front.put_half_bits(params.half_prob.as_slice());
        front
    }

    /// How many bits there are.
    pub(crate) fn length(&self) -> u32
        ensures length { result ≡ length self.now }
        ensures most { result ≤ 60 }
    {
        self.count
    }

    /// Writes the bits, for which there is room.
    pub(crate) fn write(&self, writer: &mut BitWriter)
        requires { length self.now ≤ writer.old.room }
        ensures { Wrote writer.old self.now writer.new }
    {
        let high = self.count.saturating_sub(32);
        let low = self.count - high;
        writer.put((self.number >> low) as u32, high);
        writer.put((self.number % (1 << low)) as u32, low);
    }

    // Adds the maps, given at once where they are equal.
    fn put_maps(&mut self, filter_map: &[u8], prob_map: &[u8])
        requires filter_map { IsChannelMap filter_map.now }
        requires prob_map { IsChannelMap prob_map.now }
        requires room { length self.old + 33 ≤ 60 }
        ensures bits { self.new ≡ self.old ++ both_maps_spelling filter_map.now prob_map.now }
        ensures short { length self.new ≤ length self.old + 33 }
    {
        if are_equal(filter_map, prob_map) {
            self.put(1, 1);
            self.put_map(filter_map);
        } else {
            self.put(0, 1);
            self.put_map(filter_map);
            self.put_map(prob_map);
        }
    }

    // Adds a map, given at once where it gives every channel element 0.
    fn put_map(&mut self, elements: &[u8])
        requires map { IsChannelMap elements.now }
        requires room { length self.old + 16 ≤ 60 }
        ensures bits { self.new ≡ self.old ++ map_spelling elements.now }
        ensures short { length self.new ≤ length self.old + 16 }
    {
        if are_zeros(elements) {
            self.put(1, 1);
        } else {
            self.put(0, 1);
            self.put_numbers(&elements[1..]);
        }
    }

    // Adds the numbers of a map behind its first element.
    fn put_numbers(&mut self, elements: &[u8])
        requires numbers { Numbers 1 elements.now }
        requires few { length elements.now ≤ 5 }
        requires room { length self.old + 15 ≤ 60 }
        ensures bits { self.new ≡ self.old ++ map_numbers 1 elements.now }
        ensures short { length self.new ≤ length self.old + 15 }
    {
        let mut count = 1;
        for element in elements {
            self.put(u32::from(*element), map_bits(count));
            count = count.max(u32::from(*element) + 1);
        }
    }

    // Adds the half bit of each channel.
    fn put_half_bits(&mut self, half_prob: &[bool])
        requires few { length half_prob.now ≤ 6 }
        requires room { length self.old + 6 ≤ 60 }
        ensures { self.new ≡ self.old ++ map bit_of half_prob.now }
    {
        for bit in half_prob {
            self.put(u32::from(*bit), 1);
        }
    }

    // Adds a number in so many bits.
    fn put(&mut self, value: u32, n: u32)
        requires few { n ≤ 3 }
        requires fits { value < 2 ^ n }
        requires room { length self.old + n ≤ 60 }
        ensures bits { self.new ≡ self.old ++ low_bits n value }
        ensures length { length self.new ≡ length self.old + n }
    {
        self.number = self.number << n | u64::from(value);
        self.count += n;
    }
}

// Every channel has element 0.
fn are_zeros(elements: &[u8]) -> bool
    ensures { result ≡ list_all (λ e. e == 0) elements.now }
{
    elements.iter().all(|element| *element == 0)
}

// Both maps give every channel the same element.
fn are_equal(filter_map: &[u8], prob_map: &[u8]) -> bool
    ensures { result ≡ same_numbers filter_map.now prob_map.now }
{
    filter_map == prob_map
}
