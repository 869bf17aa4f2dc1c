//! Laws of the file of a journal. Each does nothing when it runs.

ghost use Rattle.std.specs.Prelude.{◌≡◌, ◌⊎◌, ◌≢◌, ◌+◌, ℕ, List, [], ◌∷◌, ◌++◌, length, take};
ghost use Rattle.acl_model.specs.State.{State};
ghost use Rattle.acl_stmt.specs.declared.entry.Entry.{Entry};
ghost use Rattle.journal_bytes.specs.Damage.{IsDamagedAt, IsForeign};
ghost use Rattle.journal_bytes.specs.Files.{MayFollow, StandsEitherWay, StandsFor, before_gate, file_size};

/// A file stands for one list at most.
pub fn files_stand_for_one_list()
    ensures { (start : State) (file : List ℕ) (entries others : List Entry) → StandsFor start file entries
        → StandsFor start file others → entries ≡ others }
{}

/// A file is damaged at one offset at most.
pub fn damage_has_one_offset()
    ensures { (start : State) (file : List ℕ) (offset other : ℕ) → IsDamagedAt start file offset
        → IsDamagedAt start file other → offset ≡ other }
{}

/// A file that stands for a list is not damaged.
pub fn files_that_stand_are_not_damaged()
    ensures { (start : State) (file : List ℕ) (entries : List Entry) (offset : ℕ) → StandsFor start file entries
        → IsDamagedAt start file offset → ⊥ }
{}

/// Nor is a file of either kind foreign.
pub fn journals_are_not_foreign()
    ensures stands { (start : State) (file : List ℕ) (entries : List Entry) → StandsFor start file entries
        → IsForeign file → ⊥ }
    ensures damaged { (start : State) (file : List ℕ) (offset : ℕ) → IsDamagedAt start file offset → IsForeign file → ⊥ }
{}

/// What stands behind the last gate is not read, and a file with a record behind its last gate stands for the list, or for
/// the list with that entry. The last gate stands behind so many bytes.
pub fn bytes_behind_the_last_gate_are_passed_over()
    ensures front { (start : State) (file other : List ℕ) (entries : List Entry) → StandsFor start file entries
        → take (file_size entries) other ≡ take (file_size entries) file → StandsFor start other entries }
    ensures either { (start : State) (file : List ℕ) (entries : List Entry) (entry : Entry)
        → StandsEitherWay start file entries entry
        → StandsFor start file entries ⊎ StandsFor start file (entries ++ entry ∷ []) }
    ensures place { (entries : List Entry) → length (before_gate entries) + 1 ≡ file_size entries }
{}
