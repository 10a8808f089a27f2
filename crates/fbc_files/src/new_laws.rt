//! Laws of new files: a new file is sound and has no rows, and a file in the making is not
//! recognised before its header is written.

ghost use Rattle.std.specs.Prelude.{◌≡◌, ◌<◌, ◌==◌, ℕ, List, Some, if◌then◌else◌, length, take};
ghost use Rattle.fbc_kinds.specs.declared.rules.Rule.{Rule};
ghost use Rattle.fbc_kinds.specs.File.{IsSoundFile};
ghost use Rattle.fbc_kinds.specs.HeaderSpelling.{broken_file};
ghost use Rattle.fbc_kinds.specs.Limits.{IsPageSize};
ghost use Rattle.fbc_kinds.specs.Machine.{empty};
ghost use Rattle.fbc_kinds.specs.Meaning.{MeanTheSame, meaning_of};
ghost use Rattle.fbc_files.specs.declared.relations.NewRelation.{NewRelation};
ghost use Rattle.fbc_files.specs.Creating.{IsNewFile, new_shape, written_pages};
ghost use Rattle.fbc_files.specs.NewPages.{AreNewRelations, new_header, new_pages, page_count};
ghost use Rattle.fbc_files.specs.Pages.{ShowsPages, listed_view};
ghost use Rattle.fbc_files.specs.Roles.{NamesFit};

/// A new file is sound, however far its device reaches, and means the machine without rows. It does
/// nothing when it is run.
pub fn new_file_is_sound()
    ensures sound { (reach size : ℕ) (relations : List NewRelation) (bytes : List ℕ)
        → IsPageSize size
        → AreNewRelations relations
        → IsNewFile size relations bytes
        → IsSoundFile reach bytes (listed_view (new_pages size relations)) }
    ensures meaning { (size : ℕ) (relations : List NewRelation)
        → IsPageSize size
        → AreNewRelations relations
        → MeanTheSame (meaning_of (listed_view (new_pages size relations))) empty }
    ensures names { (size : ℕ) (relations : List NewRelation)
        → IsPageSize size
        → AreNewRelations relations
        → NamesFit (listed_view (new_pages size relations)) (new_header size relations) }
{}

/// The last write of a new file makes it whole, and before it the bytes are no file of the store. It
/// does nothing when it is run.
pub fn header_comes_last()
    ensures whole { (size : ℕ) (relations : List NewRelation) → written_pages (new_pages size relations) (page_count relations) ≡ new_pages size relations }
    ensures before { (size count : ℕ) (relations : List NewRelation) (bytes : List ℕ)
        → IsPageSize size
        → count < page_count relations
        → ShowsPages (new_shape size relations) (written_pages (new_pages size relations) count) bytes
        → broken_file (take 1024 bytes) (length bytes) ≡ Some (if count == 0 then Rule.Short else Rule.Kind) }
{}
