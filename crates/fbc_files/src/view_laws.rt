//! Laws of views: the pages that are reached have their roles, and a view without rows is sound.

ghost use Rattle.std.specs.Prelude.{◌≡◌, ℕ};
ghost use Rattle.fbc_kinds.specs.declared.pages.Header.{Header};
ghost use Rattle.fbc_kinds.specs.Machine.{empty};
ghost use Rattle.fbc_kinds.specs.Meaning.{MeanTheSame, meaning_of};
ghost use Rattle.fbc_kinds.specs.Reach.{Reaches, Role};
ghost use Rattle.fbc_kinds.specs.Sound.{IsSound};
ghost use Rattle.fbc_kinds.specs.View.{View};
ghost use Rattle.fbc_files.specs.Roles.{AreActive, DataFits, HasRole, NamesFit, NamesNoData};

/// Where the pages that the header and the pointer pages name have their roles, each page that is
/// reached has its own, and is reached once. It does nothing when it is run.
pub fn reached_pages()
    ensures role { (view : View) (header : Header) (role : Role) (page : ℕ)
        → NamesFit view header
        → DataFits view
        → Reaches view role page
        → HasRole view role page }
    ensures once { (view : View) (header : Header) (role other : Role) (page : ℕ)
        → NamesFit view header
        → DataFits view
        → Reaches view role page
        → Reaches view other page
        → role ≡ other }
{}

/// A view whose pointer pages name no data page, and in which no transaction is over, is sound and
/// means the machine without rows. It does nothing when it is run.
pub fn rowless_view()
    ensures sound { (view : View) (header : Header) → NamesFit view header → NamesNoData view → AreActive view → IsSound view }
    ensures meaning { (view : View) → NamesNoData view → AreActive view → MeanTheSame (meaning_of view) empty }
{}
