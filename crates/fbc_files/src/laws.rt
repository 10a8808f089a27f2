//! From the spelling of pages to the file that they are: how a file is recognised by its first
//! page, which view its pages give, and what the write of one page does to it.

ghost use Rattle.std.specs.Prelude.{◌≡◌, ◌≢◌, ◌+◌, ◌*◌, ◌<◌, ◌≤◌, ◌∷◌, ℕ, List, None, Some, length, max, take};
ghost use Rattle.fbc_kinds.specs.declared.pages.Header.{Header};
ghost use Rattle.fbc_kinds.specs.declared.pages.Page.{Page};
ghost use Rattle.fbc_kinds.specs.declared.shapes.Shape.{Shape};
ghost use Rattle.fbc_kinds.specs.File.{IsFile, IsViewOf, Shows, ShowsPage, page_bytes};
ghost use Rattle.fbc_kinds.specs.HeaderSpelling.{HasShape, IsFileShape, ShowsShape, broken_file};
ghost use Rattle.fbc_kinds.specs.Limits.{IsPageSize};
ghost use Rattle.fbc_kinds.specs.Spelling.{IsSpelling};
ghost use Rattle.fbc_kinds.specs.View.{View};
ghost use Rattle.fbc_files.specs.Pages.{ShowsPages, listed_view, view_with_page, with_page};
ghost use Rattle.fbc_files.specs.Shapes.{BeginsWith, shape_of};
ghost use Rattle.fbc_outside.specs.Bytes.{written};

/// A file whose first page spells a header is recognised, and shows that header's shape. It does
/// nothing when it is run.
pub fn recognised_header()
    ensures unbroken { (header : Header) (bytes : List ℕ) → BeginsWith header bytes → broken_file (take 1024 bytes) (length bytes) ≡ None }
    ensures shown { (reach : ℕ) (header : Header) (bytes : List ℕ) → BeginsWith header bytes → ShowsShape (take 1024 bytes) reach (shape_of reach header) }
    ensures limits { (reach : ℕ) (header : Header) (bytes : List ℕ) (shape : Shape)
        → BeginsWith header bytes
        → ShowsShape (take 1024 bytes) reach shape
        → IsFileShape shape }
    ensures header { (reach : ℕ) (header : Header) (bytes : List ℕ) (shape : Shape)
        → BeginsWith header bytes
        → ShowsShape (take 1024 bytes) reach shape
        → HasShape shape header }
    ensures one { (reach : ℕ) (first : List ℕ) (shape other : Shape) (page : Page) (bytes : List ℕ)
        → ShowsShape first reach shape
        → ShowsShape first reach other
        → IsSpelling shape page bytes
        → IsSpelling other page bytes }
{}

/// Bytes give the view that their pages show one by one, and those of a list of pages the view of
/// that list. It does nothing when it is run.
pub fn listed_pages()
    ensures by_number { (shape : Shape) (pages : ℕ) (bytes : List ℕ) (view : View)
        → length bytes ≤ shape.size * pages
        → ((number : ℕ) → number < pages → Shows shape number (page_bytes shape.size bytes number) (view number))
        → ((number : ℕ) → pages ≤ number → view number ≡ Some Page.Blank)
        → IsViewOf shape bytes view }
    ensures view { (shape : Shape) (pages : List Page) (bytes : List ℕ) → ShowsPages shape pages bytes → IsViewOf shape bytes (listed_view pages) }
    ensures file { (reach : ℕ) (header : Header) (pages : List Page) (bytes : List ℕ)
        → IsPageSize header.size
        → ShowsPages (shape_of reach header) (Page.Header header ∷ pages) bytes
        → IsFile reach bytes (shape_of reach header) (listed_view (Page.Header header ∷ pages)) }
    ensures begins { (shape : Shape) (header : Header) (pages : List Page) (bytes : List ℕ)
        → IsPageSize header.size
        → shape.size ≡ header.size
        → ShowsPages shape (Page.Header header ∷ pages) bytes
        → BeginsWith header bytes }
{}

/// The write of a whole page puts that page in its place, and leaves every other page as it was. It
/// does nothing when it is run.
pub fn page_write()
    ensures there { (size number : ℕ) (image bytes : List ℕ) → length image ≡ size → page_bytes size (written (number * size) image bytes) number ≡ image }
    ensures elsewhere { (size number other : ℕ) (image bytes : List ℕ)
        → length image ≡ size
        → other ≢ number
        → page_bytes size (written (number * size) image bytes) other ≡ page_bytes size bytes other }
    ensures length { (size number : ℕ) (image bytes : List ℕ)
        → length image ≡ size
        → length (written (number * size) image bytes) ≡ max (length bytes) (size * (number + 1)) }
    ensures view { (shape : Shape) (number : ℕ) (page : Page) (image bytes : List ℕ) (view : View)
        → ShowsPage shape number image page
        → IsViewOf shape bytes view
        → IsViewOf shape (written (number * shape.size) image bytes) (view_with_page number page view) }
    ensures pages { (shape : Shape) (number : ℕ) (page : Page) (image bytes : List ℕ) (pages : List Page)
        → ShowsPage shape number image page
        → ShowsPages shape pages bytes
        → ShowsPages shape (with_page number page pages) (written (number * shape.size) image bytes) }
{}
