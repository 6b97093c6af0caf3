// Filter coefficients and probability tables.
ghost use Rattle.std.specs.Prelude.{◌≡◌, [], ◌∷◌, pos, map, IfNone, IfSome};
ghost use Rattle.dst_spec.specs.Table.{filter_kind, prob_kind, IsTable};

use arrayvec::ArrayVec;
use std::marker::Model;

/// The coefficients of a prediction filter, that of the latest sample first: 1 to 128 numbers from -256 to 255.
#[derive(Drop, Debug)]
pub struct FilterTable {
    coefs: ArrayVec<i16, 128>,
}

impl Model for FilterTable {
    ghost use Rattle.std.specs.Prelude.{List, ℤ};
    ghost use Rattle.dst_spec.specs.Table.{filter_kind, IsTable};

    ghost Value = { List ℤ };

    ghost view = { λ t. t.coefs.items };

    ghost invariant = { λ t. IsTable filter_kind t.coefs.items };
}

impl FilterTable {
    /// There is none unless there are 1 to 128 coefficients, each from -256 to 255.
    pub fn new(coefs: &[i16]) -> Option<FilterTable>
        ensures none { IfNone result (IsTable filter_kind coefs.now → ⊥) }
        ensures coefs { IfSome result (λ t. t ≡ coefs.now) }
        ensures table { IfSome result (IsTable filter_kind) }
    {
        if coefs.is_empty() {
            return None;
        }
        for coef in coefs {
            if *coef < -256 || *coef > 255 {
                return None;
            }
        }
        match ArrayVec::try_from(coefs) {
            Ok(coefs) => Some(FilterTable { coefs }),
            Err(_) => None,
        }
    }

    /// The coefficients, that of the latest sample first.
    pub fn coefs(&self) -> &[i16]
        ensures coefs { result.now ≡ self.now }
        ensures table { IsTable filter_kind self.now }
    {
        self.coefs.as_slice()
    }

    /// The same table once more.
    pub fn copy(&self) -> FilterTable
        ensures { result ≡ self.now }
    {
        match FilterTable::new(self.coefs()) {
            Some(table) => table,
            None => unreachable!(),
        }
    }
}

/// One coefficient, which is 0.
impl Default for FilterTable {
    ghost is_default = { λ t. t ≡ pos 0 ∷ [] };

    fn default() -> Self {
        let mut coefs = ArrayVec::new();
        coefs.push(0);
        FilterTable { coefs }
    }
}

/// Probabilities by the size of the prediction, the smallest first, in 256ths: 1 to 64 entries from 1 to 128. Where there
/// is one alone, it is 128.
#[derive(Drop, Debug)]
pub struct ProbTable {
    entries: ArrayVec<u8, 64>,
}

impl Model for ProbTable {
    ghost use Rattle.std.specs.Prelude.{List, ℕ, pos, map};
    ghost use Rattle.dst_spec.specs.Table.{prob_kind, IsTable};

    ghost Value = { List ℕ };

    ghost view = { λ t. t.entries.items };

    ghost invariant = { λ t. IsTable prob_kind (map pos t.entries.items) };
}

impl ProbTable {
    /// There is none unless there are 1 to 64 entries, each from 1 to 128, and a lone one is 128.
    pub fn new(entries: &[u8]) -> Option<ProbTable>
        ensures none { IfNone result (IsTable prob_kind (map pos entries.now) → ⊥) }
        ensures entries { IfSome result (λ t. t ≡ entries.now) }
        ensures table { IfSome result (λ t. IsTable prob_kind (map pos t)) }
    {
        if entries.is_empty() {
            return None;
        }
        if entries.len() == 1 && entries[0] != 128 {
            return None;
        }
        for entry in entries {
            if *entry < 1 || *entry > 128 {
                return None;
            }
        }
        match ArrayVec::try_from(entries) {
            Ok(entries) => Some(ProbTable { entries }),
            Err(_) => None,
        }
    }

    /// The entries, that for the smallest predictions first.
    pub fn entries(&self) -> &[u8]
        ensures entries { result.now ≡ self.now }
        ensures table { IsTable prob_kind (map pos self.now) }
    {
        self.entries.as_slice()
    }

    /// The same table once more.
    pub fn copy(&self) -> ProbTable
        ensures { result ≡ self.now }
    {
        match ProbTable::new(self.entries()) {
            Some(table) => table,
            None => unreachable!(),
        }
    }
}

/// One entry, which is 128.
impl Default for ProbTable {
    ghost is_default = { λ t. t ≡ 128 ∷ [] };

    fn default() -> Self {
        let mut entries = ArrayVec::new();
        entries.push(128);
        ProbTable { entries }
    }
}
