//! How many things stand on a page of the file.

ghost use Rattle.std.specs.Prelude.{◌≡◌, ◌<◌, ◌*◌, ◌^◌};
ghost use Rattle.fbc_kinds.specs.Limits.{IsPageSize, inventory_bits, slots, tip_numbers};
ghost use Rattle.fbc_kinds.specs.View.{inventory_page};
ghost use Rattle.fbc_desk.specs.Grounds.{inventory_over};

use crate::desk::Desk;

impl Desk {
    /// How many slots a pointer page has.
    pub fn slots(&self) -> u32
        ensures slots { result ≡ slots self.now.cache.shape.size }
        ensures some { 0 < result }
    {
        self.cache.holds();
        (self.cache.page_size() - 16) / 4
    }

    /// How many numbers stand on a transaction inventory page.
    pub fn tip_numbers(&self) -> u32
        ensures numbers { result ≡ tip_numbers self.now.cache.shape.size }
        ensures some { 0 < result }
    {
        self.cache.holds();
        4 * (self.cache.page_size() - 16)
    }

    /// How many pages a page inventory covers.
    pub fn inventory_bits(&self) -> u32
        ensures bits { result ≡ inventory_bits self.now.cache.shape.size }
        ensures some { 0 < result }
    {
        self.cache.holds();
        (self.cache.page_size() - 16) * 8
    }
}

/// Where the page inventory of a sequence stands, in a file of pages of that size.
pub(crate) fn inventory_page(size: u32, sequence: u32) -> u32
    requires size { IsPageSize size }
    requires few { sequence * inventory_bits size < 2 ^ 32 }
    ensures { result ≡ inventory_page size sequence }
{
    if sequence == 0 {
        1
    } else {
        sequence * ((size - 16) * 8)
    }
}

/// Where the page inventory stands that covers a page, in a file of pages of that size.
pub(crate) fn inventory_over(size: u32, page: u32) -> u32
    requires size { IsPageSize size }
    ensures { result ≡ inventory_over size page }
{
    inventory_page(size, page / ((size - 16) * 8))
}
