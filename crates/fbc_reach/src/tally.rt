//! The pages that were named, and what was found of each in its roles.

ghost use Rattle.std.specs.Prelude.{◌≡◌, ◌↔◌, ◌++◌, ◌∷◌, [], ℕ, List, Option, true, false, Some, None, find, is_some, nat_eq, if◌then◌else◌, Contains, IfOk, OnOk, OnErr, Err};
ghost use Rattle.std.specs.List.{list_any};
ghost use Rattle.std.specs.List.Sorted.{IsStrictlyIncreasing};
ghost use Rattle.std.specs.Option.{option_copied, option_map, option_or};
ghost use Rattle.indexmap.specs.IndexMap.{get, index_map_len, index_of};
ghost use Rattle.fbc_kinds.specs.HeaderSpelling.{IsFileShape};
ghost use Rattle.fbc_kinds.specs.Limits.{IsPageSize};
ghost use Rattle.fbc_reach.specs.Content.{IsReadOf, holds_late, is_late};
ghost use Rattle.fbc_reach.specs.Tally.{IsJudged, IsTallyOf, has_late_version};
ghost use Rattle.fbc_reach.specs.Roles.{is_same_role};
ghost use Rattle.fbc_reach.specs.Walk.{naming, is_of_page};
ghost use Rattle.fbc_reach.specs.declared.namings.Naming.{Naming};
ghost use Rattle.fbc_outside.specs.Faults.{bump};
ghost use Rattle.fbc_outside.specs.Frames.{IsFaithful, IsUnwritten};
ghost use Rattle.fbc_kinds.specs.declared.shapes.Shape.{Shape};

use crate::content::{Content, PageRead, Version};
use crate::faults::ReadFault;
use crate::judging::{has_late_state, has_other_relation, has_other_sequence, is_late, kind_code};
use crate::namings::{Naming, Role};
use crate::reading::read_content;
use fbc_kinds::Shape;
use fbc_outside::Device;
use indexmap::IndexMap;
use std::alloc::{AllocError, Global};

/// A page that was named.
#[derive(Debug, Drop)]
pub struct NamedPage {
    /// What was read of it, once.
    pub read: PageRead,
    /// A data page has a version of a number that is not below the next one.
    pub late_version: bool,
    /// The first of its roles.
    pub first: Role,
    /// The first of its roles that is of its own kind.
    pub walked: Option<Role>,
    /// One of its roles is of another kind.
    pub other_kind: bool,
    /// One of its roles is of another relation.
    pub other_relation: bool,
    /// One of its roles is of another sequence.
    pub other_sequence: bool,
    /// One of its roles is not the first one.
    pub other_role: bool,
    /// In one of its roles it has a number or a state of the future.
    pub late: bool,
}

/// The pages that were named so far, in the order of their first namings.
#[derive(Drop)]
pub struct Tally {
    /// The next number of the file.
    pub next: u32,
    pub pages: IndexMap<u32, NamedPage>,
}

impl NamedPage {
    /// A page that was read, and not yet judged in its first role.
    fn new(read: PageRead, first: Role, next: u32) -> NamedPage
        ensures judged { (size page : ℕ) (done : List Naming) → find (is_of_page page) done ≡ None → IsJudged size next done page result }
        ensures read { result.read ≡ read }
        ensures late_version { result.late_version ≡ has_late_version next read.content }
        ensures first { result.first ≡ first }
    {
        let late_version = has_late_version(&read.content, next);
        NamedPage {
            read,
            late_version,
            first,
            walked: None,
            other_kind: false,
            other_relation: false,
            other_sequence: false,
            other_role: false,
            late: false,
        }
    }

    /// Judges the page in one role more.
    fn judge(&mut self, role: Role, size: u32, next: u32)
        requires { IsPageSize size }
        ensures judged { self.old.late_version ≡ has_late_version next self.old.read.content
            → (page : ℕ) (done : List Naming)
            → IsJudged size next done page self.old
            → IsJudged size next (done ++ naming page role ∷ []) page self.new }
        ensures read { self.new.read ≡ self.old.read }
        ensures late_version { self.new.late_version ≡ self.old.late_version }
        ensures first { self.new.first ≡ self.old.first }
    {
        let other_kind = self.read.kind != kind_code(role);
        self.walked = walked_for(self.walked, role, other_kind);
        self.other_kind |= other_kind;
        self.other_relation |= has_other_relation(role, &self.read.content);
        self.other_sequence |= has_other_sequence(role, &self.read.content);
        self.other_role |= !is_same_role(role, self.first);
        self.late |= is_late_in(role, &self.read.content, self.late_version, size, next);
    }
}

/// The role for which a page is walked, when it is named in one role more.
fn walked_for(walked: Option<Role>, role: Role, other_kind: bool) -> Option<Role>
    ensures { result ≡ option_or walked (if other_kind then None else Some role) }
{
    match walked {
        None if !other_kind => Some(role),
        _ => walked,
    }
}

/// Whether two roles are one.
pub(crate) fn is_same_role(a: Role, b: Role) -> bool
    ensures { result ≡ is_same_role a b }
{
    match (a, b) {
        (Role::Header, Role::Header) => true,
        (Role::Inventory { sequence }, Role::Inventory { sequence: other }) => sequence == other,
        (Role::Tip { sequence }, Role::Tip { sequence: other }) => sequence == other,
        (
            Role::Pointer { relation, sequence },
            Role::Pointer {
                relation: of,
                sequence: other,
            },
        ) => relation == of && sequence == other,
        (
            Role::Data { relation, sequence },
            Role::Data {
                relation: of,
                sequence: other,
            },
        ) => relation == of && sequence == other,
        _ => false,
    }
}

/// Whether a data page has a version of a number that is not below the next one.
fn has_late_version(content: &Content, next: u32) -> bool
    ensures { result ≡ has_late_version next content.now }
{
    match content {
        Content::Data { versions, .. } => is_one_late(versions.items(), next),
        _ => false,
    }
}

fn is_one_late(versions: &[Version], next: u32) -> bool
    ensures { result ≡ list_any (is_late next) versions.now }
{
    versions.iter().any(|version| is_late(version, next))
}

/// Whether in this role a page has a number or a state of the future.
fn is_late_in(role: Role, content: &Content, late_version: bool, size: u32, next: u32) -> bool
    requires { IsPageSize size }
    ensures { late_version ≡ has_late_version next content.now → result ≡ holds_late size next role content.now }
{
    match (role, content) {
        (Role::Tip { sequence }, Content::Tip { states, .. }) => {
            let first = u64::from(sequence) * u64::from(4 * (size - 16));
            has_late_state(states.items(), first, next)
        }
        (Role::Data { .. }, Content::Data { .. }) => late_version,
        _ => false,
    }
}

impl Tally {
    /// No page was named yet; the file's next number is `next`.
    pub fn new(alloc: Global, next: u32) -> Tally
        ensures next { result.next ≡ next }
        ensures none { (page : ℕ) → get nat_eq result.pages page ≡ None }
        ensures empty { (shape : Shape) (file : Option (List ℕ)) → IsTallyOf shape file [] result }
    {
        Tally {
            next,
            pages: IndexMap::new(alloc),
        }
    }

    /// What is kept of a page.
    pub fn get(&self, page: u32) -> Option<&NamedPage>
        ensures { option_copied result ≡ get nat_eq self.now.pages page }
    {
        self.pages.get(&page)
    }

    /// How many pages were named.
    pub fn len(&self) -> usize
        ensures { result ≡ index_map_len self.now.pages }
    {
        self.pages.len()
    }

    /// What is kept of a page, and its index among the pages that were named.
    pub fn get_full(&self, page: u32) -> Option<(usize, &NamedPage)>
        ensures index { option_map (λ found. found.0) result ≡ index_of nat_eq self.now.pages page }
        ensures named { option_map (λ found. found.1.now) result ≡ get nat_eq self.now.pages page }
    {
        let (index, _page, named) = self.pages.get_full(&page)?;
        Some((index, named))
    }

    /// The index of a page among those that were named.
    pub fn index_of(&self, page: u32) -> Option<usize>
        ensures { result ≡ index_of nat_eq self.now.pages page }
    {
        self.pages.get_index_of(&page)
    }

    /// The pages that were named, rising.
    pub fn named_pages(&self, alloc: Global) -> Result<Vec<u32>, AllocError>
        ensures rise { IfOk result (λ pages. IsStrictlyIncreasing pages.items) }
        ensures each { IfOk result (λ pages. (page : ℕ) → Contains pages.items page ↔ (is_some (get nat_eq self.now.pages page) ≡ true)) }
    {
        let mut pages = Vec::new(alloc);
        for page in self.pages.keys() {
            pages.push(*page)?;
        }
        pages.sort_unstable();
        Ok(pages)
    }

    /// Notes one naming more. A page is read at the first of its namings, and never again. The
    /// device's bytes stay as they are.
    pub fn note<D: Device>(
        &mut self,
        alloc: Global,
        device: &mut D,
        shape: &Shape,
        naming: Naming,
    ) -> Result<(), ReadFault>
        requires { IsFileShape shape.now }
        ensures noted { OnOk result ((done : List Naming)
            → IsTallyOf shape.now (D.bytes device.old) done self.old
            → IsTallyOf shape.now (D.bytes device.old) (done ++ naming ∷ []) self.new) }
        ensures err { OnErr result (self.new.pages.entries ≡ self.old.pages.entries) }
        ensures next { self.new.next ≡ self.old.next }
        ensures again { is_some (get nat_eq self.old.pages naming.page) ≡ true → D.reads device.new ≡ D.reads device.old }
        ensures once { is_some (get nat_eq self.old.pages naming.page) ≡ false → OnOk result (D.reads device.new ≡ bump (D.reads device.old)) }
        ensures unwritten { IsUnwritten D.bytes D.writes D.landings device.old device.new }
        ensures device { IsFaithful D.reach D.faults (result ≡ Err ReadFault.DeviceFault) device.old device.new }
    {
        if self.judge_again(naming, shape.size) {
            return Ok(());
        }
        let read = read_content(alloc, device, shape, naming.page)?;
        self.keep_first(naming, shape.size, read)?;
        Ok(())
    }

    /// Notes these namings, one behind the other. The device's bytes stay as they are.
    pub fn note_all<D: Device>(
        &mut self,
        alloc: Global,
        device: &mut D,
        shape: &Shape,
        namings: &[Naming],
    ) -> Result<(), ReadFault>
        requires { IsFileShape shape.now }
        ensures noted { OnOk result ((done : List Naming)
            → IsTallyOf shape.now (D.bytes device.old) done self.old
            → IsTallyOf shape.now (D.bytes device.old) (done ++ namings.now) self.new) }
        ensures next { self.new.next ≡ self.old.next }
        ensures unwritten { IsUnwritten D.bytes D.writes D.landings device.old device.new }
        ensures device { IsFaithful D.reach D.faults (result ≡ Err ReadFault.DeviceFault) device.old device.new }
    {
        for naming in namings {
            self.note(alloc, device, shape, *naming)?;
        }
        Ok(())
    }

    /// Judges a page in one role more, if it was named before.
    fn judge_again(&mut self, naming: Naming, size: u32) -> bool
        requires { IsPageSize size }
        ensures known { result ≡ is_some (get nat_eq self.old.pages naming.page) }
        ensures judged { result ≡ true
            → (shape : Shape) (file : Option (List ℕ)) (done : List Naming)
            → shape.size ≡ size
            → IsTallyOf shape file done self.old
            → IsTallyOf shape file (done ++ naming ∷ []) self.new }
        ensures same { result ≡ false → self.new ≡ self.old }
        ensures next { self.new.next ≡ self.old.next }
    {
        let next = self.next;
        match self.pages.get_mut(&naming.page) {
            Some(named) => {
                named.judge(naming.role, size, next);
                true
            }
            None => false,
        }
    }

    /// Keeps a page that was read at the first of its namings.
    pub(crate) fn keep_first(
        &mut self,
        naming: Naming,
        size: u32,
        read: PageRead,
    ) -> Result<(), AllocError>
        requires size { IsPageSize size }
        requires fresh { get nat_eq self.old.pages naming.page ≡ None }
        ensures kept { OnOk result ((shape : Shape) (file : Option (List ℕ)) (done : List Naming)
            → shape.size ≡ size
            → IsReadOf shape naming.page file read
            → IsTallyOf shape file done self.old
            → IsTallyOf shape file (done ++ naming ∷ []) self.new) }
        ensures err { OnErr result (self.new.pages.entries ≡ self.old.pages.entries) }
        ensures next { self.new.next ≡ self.old.next }
    {
        let mut named = NamedPage::new(read, naming.role, self.next);
        named.judge(naming.role, size, self.next);
        self.pages.insert(naming.page, named)?;
        Ok(())
    }
}
