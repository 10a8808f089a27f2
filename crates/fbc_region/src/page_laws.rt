//! What a step leaves of the device's pages, and what a read shows of them. None of these functions does
//! anything.

ghost use Rattle.std.specs.Prelude.{◌≡◌, ◌*◌, ℕ, Bool, List, Option, Some, None, length};
ghost use Rattle.fbc_kinds.specs.declared.pages.Page.{Page};
ghost use Rattle.fbc_kinds.specs.declared.rules.Rule.{Rule};
ghost use Rattle.fbc_kinds.specs.declared.shapes.Shape.{Shape};
ghost use Rattle.fbc_kinds.specs.File.{IsViewOf, ShowsPage};
ghost use Rattle.fbc_kinds.specs.Limits.{IsPageSize};
ghost use Rattle.fbc_kinds.specs.Spelling.{first_broken_rule};
ghost use Rattle.fbc_kinds.specs.View.{View};
ghost use Rattle.fbc_region.specs.Lawful.{IsLawfulOver, with_locals};
ghost use Rattle.fbc_region.specs.Shared.{history_of};
ghost use Rattle.fbc_region.specs.Stepping.{IsPageRead, PagesComeTo};
ghost use Rattle.fbc_region.specs.WholePages.{AreWholePages};
ghost use Rattle.fbc_world.specs.declared.answers.Answer.{Answer};
ghost use Rattle.fbc_world.specs.declared.asks.Ask.{Ask};
ghost use Rattle.fbc_world.specs.declared.events.LocalEvent.{LocalEvent};
ghost use Rattle.fbc_world.specs.History.{Recording};
ghost use Rattle.fbc_world.specs.PageCell.{kept};

/// A device of whole pages has whole pages after a step too.
pub fn steps_keep_whole_pages()
    ensures { (size : ℕ) (bytes now : Option (List ℕ)) (landings landings_now : List Bool) (image image_now : List ℕ) (answer : Answer) (asked : Ask)
        → length image ≡ size → AreWholePages size bytes
        → PagesComeTo size bytes now landings landings_now image image_now answer asked → AreWholePages size now }
{}

/// Bytes that were read show the page that the device's bytes show, and break a rule only where those show none.
pub fn read_pages_are_those_kept()
    ensures shown { (shape : Shape) (bytes image : List ℕ) (view : View) (page count : ℕ) (content : Page)
        → IsPageSize shape.size → IsViewOf shape bytes view → length image ≡ shape.size
        → IsPageRead (Some bytes) (page * shape.size) image count
        → ShowsPage shape page image content → view page ≡ Some content }
    ensures broken { (shape : Shape) (bytes image : List ℕ) (view : View) (page count : ℕ) (rule : Rule)
        → IsPageSize shape.size → IsViewOf shape bytes view → length image ≡ shape.size
        → IsPageRead (Some bytes) (page * shape.size) image count
        → first_broken_rule shape page image ≡ Some rule → view page ≡ None }
{}

/// Over a lawful journal they show what the file keeps behind the local events of the step that read them.
pub fn read_pages_are_those_of_the_journal()
    ensures shown { (size page count who : ℕ) (bytes : Option (List ℕ)) (journal : Recording) (file : View) (landings : List Bool)
        (events : List LocalEvent) (image : List ℕ) (content : Page)
        → IsPageSize size → IsLawfulOver size bytes journal file landings → length image ≡ size
        → IsPageRead bytes (page * size) image count → ShowsPage journal.shape page image content
        → kept journal.shape file (with_locals (history_of journal landings) who events) page ≡ Some content }
    ensures broken { (size page count who : ℕ) (bytes : Option (List ℕ)) (journal : Recording) (file : View) (landings : List Bool)
        (events : List LocalEvent) (image : List ℕ) (rule : Rule)
        → IsPageSize size → IsLawfulOver size bytes journal file landings → length image ≡ size
        → IsPageRead bytes (page * size) image count → first_broken_rule journal.shape page image ≡ Some rule
        → kept journal.shape file (with_locals (history_of journal landings) who events) page ≡ None }
{}
