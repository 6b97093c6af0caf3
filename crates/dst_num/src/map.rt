// Which table each channel has.
ghost use Rattle.std.specs.Prelude.{◌≡◌, ◌≤◌, [], ◌∷◌, length, IfNone, IfSome};
ghost use Rattle.dst_spec.specs.Map.{element_count};
ghost use Rattle.dst_num.specs.Map.{IsChannelMap};

use arrayvec::ArrayVec;
use std::marker::Model;

/// For each of one to six channels the number of its table. Tables are numbered in the order in which channels first use
/// them, so that the first channel has number 0.
#[derive(Drop, Debug)]
pub struct Map {
    elements: ArrayVec<u8, 6>,
}

impl Model for Map {
    ghost use Rattle.std.specs.Prelude.{List, ℕ};
    ghost use Rattle.dst_num.specs.Map.{IsChannelMap};

    ghost Value = { List ℕ };

    ghost view = { λ m. m.elements.items };

    ghost invariant = { λ m. IsChannelMap m.elements.items };
}

impl Map {
    /// There is none unless there are 1 to 6 elements, each at most the number of different ones before it.
    pub fn new(elements: &[u8]) -> Option<Map>
        ensures none { IfNone result (IsChannelMap elements.now → ⊥) }
        ensures elements { IfSome result (λ m. m ≡ elements.now) }
        ensures map { IfSome result IsChannelMap }
    {
        if elements.is_empty() {
            return None;
        }
        let mut count = 0;
        for element in elements {
            if usize::from(*element) > count {
                return None;
            }
            count = count.max(usize::from(*element) + 1);
        }
        match ArrayVec::try_from(elements) {
            Ok(elements) => Some(Map { elements }),
            Err(_) => None,
        }
    }

    /// The number of each channel's table.
    pub fn elements(&self) -> &[u8]
        ensures elements { result.now ≡ self.now }
        ensures map { IsChannelMap self.now }
    {
        self.elements.as_slice()
    }

    /// The same map once more.
    pub fn copy(&self) -> Map
        ensures { result ≡ self.now }
    {
        match Map::new(self.elements()) {
            Some(map) => map,
            None => unreachable!(),
        }
    }

    /// How many different tables there are.
    pub fn count(&self) -> usize
        ensures count { result ≡ element_count self.now }
        ensures most { result ≤ length self.now }
        ensures map { IsChannelMap self.now }
    {
        let elements = self.elements.as_slice();
        let mut count = 0;
        for element in elements {
            count = count.max(usize::from(*element) + 1);
        }
        count
    }
}

/// One channel with table 0.
impl Default for Map {
    ghost is_default = { λ m. m ≡ 0 ∷ [] };

    fn default() -> Self {
        let mut elements = ArrayVec::new();
        elements.push(0);
        Map { elements }
    }
}
