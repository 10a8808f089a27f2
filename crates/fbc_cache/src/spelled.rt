//! The bytes of a page that may be used.

ghost use Rattle.std.specs.Prelude.{◌≡◌, IfSome, is_some, length, true};
ghost use Rattle.fbc_kinds.specs.Spelling.{IsSpelling};
ghost use Rattle.fbc_cache.specs.Cache.{copy_in};

use crate::cache::Cache;
use fbc_spelling::spell_page;

impl Cache {
    /// Whether the page may be used: it was read or made since its lock was granted.
    pub fn has_copy(&self, page: u32) -> bool
        ensures { result ≡ is_some (copy_in self.now.held page) }
    {
        self.page(page).is_some()
    }

    /// Writes the bytes that spell the page as it may be used over all of `out`, which has the size of a page.
    pub fn spell(&self, page: u32, out: &mut [u8])
        requires used { is_some (copy_in self.now.held page) ≡ true }
        requires length { length out.old ≡ self.now.shape.size }
        ensures spelled { IfSome (copy_in self.now.held page) (λ copy. IsSpelling self.now.shape copy out.new) }
        ensures length { length out.new ≡ length out.old }
    {
        if let Some(copy) = self.page(page) {
            spell_page(&self.shape, copy, out);
        }
    }
}
