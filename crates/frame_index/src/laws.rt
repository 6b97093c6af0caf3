//! Laws of an index beside the walk. The function does nothing: its clauses are what is proved.
ghost use Rattle.std.specs.Prelude.{◌≡◌, ℕ, List, Some, None, Ok};
ghost use Rattle.dsdiff_spec.specs.Form.{Form};
ghost use Rattle.dsdiff_spec.specs.Walk.{Entry, walk, check_index_fault};
ghost use Rattle.dsdiff_spec.specs.declared.faults.FileFault.TheVariants.{IndexMissing, IndexBad};
ghost use Rattle.frame_index.specs.Lookup.{index_fault, IsRead, DifferFirstAt};

/// What checking a file's index comes to, by what [`read_index`](crate::read_index), [`walk`](crate::walk) and
/// [`compare`](crate::compare) answer: a file without an index passes, and so does one whose index is the walk; another
/// size is a fault, and so is the first entry that differs.
pub fn index_beside_walk()
    ensures missing { (file : List ℕ) (form : Form) → index_fault form form.frames ≡ Some IndexMissing → check_index_fault file form ≡ None }
    ensures size { (file : List ℕ) (form : Form) (size : ℕ) → index_fault form form.frames ≡ Some (IndexBad size) → check_index_fault file form ≡ Some (IndexBad size) }
    ensures same { (file : List ℕ) (form : Form) (found : List Entry) → index_fault form form.frames ≡ None → IsRead file form found → walk file form ≡ Ok found → check_index_fault file form ≡ None }
    ensures differ { (file : List ℕ) (form : Form) (index found : List Entry) (k : ℕ) → index_fault form form.frames ≡ None → IsRead file form index → walk file form ≡ Ok found → DifferFirstAt k index found → check_index_fault file form ≡ Some (IndexBad k) }
{}
