//! Pages that are to be used, and whether they are what is due.

ghost use Rattle.std.specs.Prelude.{◌≡◌};
ghost use Rattle.fbc_desk.specs.Calls.{GoesOn};
ghost use Rattle.fbc_desk.specs.Holds.{Holds, HoldsAs, after_hold, after_looking, judged};
ghost use Rattle.fbc_cache.specs.Cache.{copy_in};
ghost use Rattle.fbc_cache.specs.Readers.{place_in};
ghost use Rattle.fbc_desk.specs.Roles.{misplaced};

use crate::desk::Desk;
use fbc_cache::{Need, Place};
use fbc_kinds::Rule;

/// What it comes to when a page is to be used.
#[derive(Clone, Copy, Debug, PartialEq, Eq)]
pub enum Held {
    /// It may be used.
    Here,
    /// It is to be got first.
    Miss(Need),
    /// The page breaks the rule.
    Damaged { page: u32, rule: Rule },
}

impl Desk {
    /// A page is used, and stays in use, if it is there.
    pub fn hold(&mut self, need: Need) -> Held
        ensures held { Holds self.old need result }
        ensures after { self.new ≡ after_hold self.old need result }
        ensures goes { GoesOn self.old self.new }
    {
        match self.find(&need) {
            Held::Here => {
                self.pin(need.page);
                Held::Here
            }
            Held::Miss(missed) => Held::Miss(missed),
            Held::Damaged { page, rule: _ } => Held::Damaged {
                page,
                rule: Rule::Taken,
            },
        }
    }

    /// A page of this kind and place is used, and stays in use, if it is there.
    pub fn hold_as(&mut self, need: Need, due: Place) -> Held
        ensures held { HoldsAs self.old need due result }
        ensures after { self.new ≡ after_hold self.old need result }
        ensures goes { GoesOn self.old self.new }
    {
        match self.find(&need) {
            Held::Here => {
                let judged = self.judge(need.page, due);
                self.pin(need.page);
                held_by(need.page, judged)
            }
            Held::Miss(missed) => Held::Miss(missed),
            Held::Damaged { page, rule: _ } => Held::Damaged {
                page,
                rule: Rule::Taken,
            },
        }
    }

    /// A page of this kind and place is looked at, if it is there: it is the last one used.
    pub fn look_as(&mut self, need: Need, due: Place) -> Held
        ensures held { HoldsAs self.old need due result }
        ensures after { self.new ≡ after_looking self.old need result }
        ensures goes { GoesOn self.old self.new }
    {
        match self.find(&need) {
            Held::Here => {
                let judged = self.judge(need.page, due);
                self.look(need.page);
                held_by(need.page, judged)
            }
            Held::Miss(missed) => Held::Miss(missed),
            Held::Damaged { page, rule: _ } => Held::Damaged {
                page,
                rule: Rule::Taken,
            },
        }
    }

    /// Whether the page may be used.
    fn find(&self, need: &Need) -> Held
        ensures { Holds self.now need.now result }
    {
        if need.page >= self.cache.shape().limit {
            return Held::Damaged {
                page: need.page,
                rule: Rule::Taken,
            };
        }
        if self.cache.is_here(need) {
            Held::Here
        } else {
            Held::Miss(*need)
        }
    }

    /// The first rule that a page breaks by standing elsewhere than is due.
    fn judge(&self, page: u32, due: Place) -> Option<Rule>
        ensures { result ≡ misplaced (place_in (copy_in self.now.cache.held page)) due }
    {
        misplaced(self.cache.place(page), due)
    }
}

/// A page that is there is damage where it breaks a rule.
fn held_by(page: u32, broken: Option<Rule>) -> Held
    ensures { result ≡ judged page broken }
{
    match broken {
        Some(rule) => Held::Damaged { page, rule },
        None => Held::Here,
    }
}

/// The first rule that a page breaks by standing elsewhere than is due.
pub fn misplaced(found: Place, due: Place) -> Option<Rule>
    ensures { result ≡ misplaced found due }
{
    if found.kind != due.kind {
        return Some(Rule::Kind);
    }
    if found.relation != due.relation {
        return Some(Rule::Relation);
    }
    if found.sequence != due.sequence {
        return Some(Rule::Sequence);
    }
    None
}
