// The parameters of a coded frame.
ghost use Rattle.std.specs.Prelude.{◌≡◌, [], ◌∷◌, pos, map, false, length, All, ◌≤◌, IfNone, IfSome};
ghost use Rattle.dst_spec.specs.Table.{filter_kind, prob_kind, IsTable};
ghost use Rattle.dst_spec.specs.Header.{IsParams};
ghost use Rattle.dst_num.specs.Map.{params_of};

use crate::{FilterTable, Map, ProbTable};
use arrayvec::ArrayVec;
use std::marker::Model;

/// What a coded frame has before its arithmetic code: which filter and which probability table each channel has, for
/// each channel whether its first symbols have probability 128, and the tables.
#[derive(Drop, Debug)]
pub struct Params {
    pub filter_map: Map,
    pub prob_map: Map,
    pub half_prob: ArrayVec<bool, 6>,
    pub filters: ArrayVec<FilterTable, 6>,
    pub probs: ArrayVec<ProbTable, 6>,
}

impl Model for Params {
    ghost use Rattle.std.specs.Prelude.{length};
    ghost use Rattle.dst_spec.specs.Header.{Params as Parameters, IsParams};
    ghost use Rattle.dst_num.specs.Map.{params_of};

    ghost Value = { Parameters };

    ghost view = { λ p. params_of p.filter_map p.prob_map p.half_prob.items p.filters.items p.probs.items };

    ghost invariant = { λ p. IsParams (length p.half_prob.items) (params_of p.filter_map p.prob_map p.half_prob.items p.filters.items p.probs.items) };
}

impl Params {
    /// There are none unless both maps and `half_prob` are of one length, and each map numbers as many tables as are given.
    pub fn new(
        filter_map: Map,
        prob_map: Map,
        half_prob: ArrayVec<bool, 6>,
        filters: ArrayVec<FilterTable, 6>,
        probs: ArrayVec<ProbTable, 6>,
    ) -> Option<Params>
        ensures none { IfNone result (IsParams (length half_prob.items) (params_of filter_map prob_map half_prob.items filters.items probs.items) → ⊥) }
        ensures params { IfSome result (λ p. p ≡ params_of filter_map prob_map half_prob.items filters.items probs.items) }
        ensures lawful { IfSome result (λ p. IsParams (length p.half_prob) p) }
    {
        let channels = half_prob.len();
        if filter_map.elements().len() != channels || prob_map.elements().len() != channels {
            return None;
        }
        if filters.len() != filter_map.count() || probs.len() != prob_map.count() {
            return None;
        }
        check_filters(filters.as_slice());
        check_probs(probs.as_slice());
        Some(Params {
            filter_map,
            prob_map,
            half_prob,
            filters,
            probs,
        })
    }

    /// The same parameters once more. No memory is taken.
    pub fn copy(&self) -> Params
        ensures params { result ≡ self.now }
        ensures lawful { IsParams (length self.now.half_prob) self.now }
    {
        Params {
            filter_map: self.filter_map.copy(),
            prob_map: self.prob_map.copy(),
            half_prob: copied_bits(self.half_prob.as_slice()),
            filters: copied_filters(self.filters.as_slice()),
            probs: copied_probs(self.probs.as_slice()),
        }
    }
}

fn copied_bits(bits: &[bool]) -> ArrayVec<bool, 6>
    requires { length bits.now ≤ 6 }
    ensures { result.items ≡ bits.now }
{
    let mut copied = ArrayVec::new();
    for bit in bits {
        copied.push(*bit);
    }
    copied
}

fn copied_filters(filters: &[FilterTable]) -> ArrayVec<FilterTable, 6>
    requires { length filters.now ≤ 6 }
    ensures { result.items ≡ filters.now }
{
    let mut copied = ArrayVec::new();
    for filter in filters {
        copied.push(filter.copy());
    }
    copied
}

fn copied_probs(probs: &[ProbTable]) -> ArrayVec<ProbTable, 6>
    requires { length probs.now ≤ 6 }
    ensures { result.items ≡ probs.now }
{
    let mut copied = ArrayVec::new();
    for table in probs {
        copied.push(table.copy());
    }
    copied
}

// Every filter keeps its rule.
fn check_filters(filters: &[FilterTable])
    ensures { All (IsTable filter_kind) filters.now }
{
    for filter in filters {
        let _ = filter.coefs();
    }
}

// Every probability table keeps its rule.
fn check_probs(probs: &[ProbTable])
    ensures { All (λ entries. IsTable prob_kind (map pos entries)) probs.now }
{
    for table in probs {
        let _ = table.entries();
    }
}

/// One channel with one filter of coefficient 0, one probability table of 128, and half bit 0.
impl Default for Params {
    ghost is_default = { λ p. p ≡ params_of (0 ∷ []) (0 ∷ []) (false ∷ []) ((pos 0 ∷ []) ∷ []) ((128 ∷ []) ∷ []) };

    fn default() -> Self {
        let mut half_prob = ArrayVec::new();
        half_prob.push(false);
        let mut filters = ArrayVec::new();
        filters.push(FilterTable::default());
        let mut probs = ArrayVec::new();
        probs.push(ProbTable::default());
        Params {
            filter_map: Map::default(),
            prob_map: Map::default(),
            half_prob,
            filters,
            probs,
        }
    }
}
