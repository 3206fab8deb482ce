//! Laws of the iterators. Each is the contract of a function with an empty body.
ghost use Rattle.std.specs.Prelude.{◌≡◌, ◌↔◌, ℕ, ◌+◌, ◌<◌, ◌≤◌, All, Bool, List, false, get_or, length, slice_index_or, true, sum_by, flat_map};
ghost use Rattle.arrow2_model.specs.Lists.{falses, part};
ghost use Rattle.arrow2_walks.specs.Runs.{runs, AreRuns, InRuns};
ghost use Rattle.arrow2_walks.specs.Selections.{selection};
ghost use Rattle.arrow2_walks.specs.Slots.{OptionalZipYieldsFirst, OptionalZipYieldsLast, ZipYieldsFirst, ZipYieldsLast};

/// If each iterator of a `ZipValidityIter` yields the first item of its list, and both lists have equal lengths, a step
/// of the zip yields the first item of the zipped list, and leaves lists of equal lengths. The same holds for the last
/// items.
///
/// `rest` maps the iterator over values to the list of items that it has still to yield. `valid` does so for the
/// iterator over their validity. `view` maps each element of the iterator over values to an item, for example a `&T` to
/// its `T`.
#[tactic(auto, using(crate::proofs::Slots::slots))]
pub fn a_zip_yields_its_slots<I: Iterator, V: Iterator<Item = bool>, X>()
    ensures first { (view : I.Item → X) (rest : I → List X) (valid : V → List Bool) →
        ZipYieldsFirst view rest valid }
    ensures last { (view : I.Item → X) (rest : I → List X) (valid : V → List Bool) →
        ZipYieldsLast view rest valid }
{}

/// As [`a_zip_yields_its_slots`], for `ZipValidity`, whose validity may be missing: where it is missing, no item is
/// null.
#[tactic(auto, using(crate::proofs::Slots::slots))]
pub fn a_zip_with_or_without_validity_yields_its_slots<I: Iterator, V: Iterator<Item = bool>, X>()
    ensures first { (view : I.Item → X) (rest : I → List X) (valid : V → List Bool) →
        OptionalZipYieldsFirst view rest valid }
    ensures last { (view : I.Item → X) (rest : I → List X) (valid : V → List Bool) →
        OptionalZipYieldsLast view rest valid }
{}

/// The runs of a list are all its maximal runs of true items, each once, in rising order. No other list of runs has
/// this property.
#[tactic(auto, using(crate::proofs::RunLaws::runs_of_a_list))]
pub fn runs_are_the_maximal_ones()
    ensures all { (items : List Bool) → AreRuns items (runs items) }
    ensures only { (items : List Bool) (ps : List (ℕ × ℕ)) → AreRuns items ps → ps ≡ runs items }
{}

/// A run ends before any later one begins, with an index between them: runs are disjoint, rising and not adjacent.
#[tactic(auto, using(crate::proofs::RunLaws::runs_of_a_list))]
pub fn runs_lie_apart()
    ensures { (items : List Bool) (i j : ℕ) → i < j → j < length (runs items) →
        (slice_index_or (runs items) i (0, 0)).0 + (slice_index_or (runs items) i (0, 0)).1
        < (slice_index_or (runs items) j (0, 0)).0 }
{}

/// An index is in one of the runs exactly if its item is true.
#[tactic(auto, using(crate::proofs::RunLaws::runs_of_a_list))]
pub fn runs_cover_the_true_items()
    ensures { (items : List Bool) (k : ℕ) → (get_or items k false ≡ true) ↔ InRuns k (runs items) }
{}

/// The lengths of the runs and the number of false items add up to the number of items.
#[tactic(auto, using(crate::proofs::RunLaws::runs_of_a_list))]
pub fn lengths_of_runs_are_the_true_items()
    ensures { (items : List Bool) → sum_by (λ p. p.1) (runs items) + falses items ≡ length items }
{}

/// Each run of a list ends inside it.
#[tactic(auto, using(crate::proofs::InnerRuns::runs_inside))]
pub fn runs_lie_inside()
    ensures { (items : List Bool) → All (λ run. run.0 + run.1 ≤ length items) (runs items) }
{}

/// If a mask has the length of a list, the parts of the list that the runs of the mask cut out, one after the other,
/// are the items that the mask selects.
pub fn runs_cut_out_the_selected_items<X>()
    ensures { (xs : List X) (mask : List Bool) → length mask ≡ length xs →
        flat_map (λ run. part xs run.0 run.1) (runs mask) ≡ selection xs mask }
{}
