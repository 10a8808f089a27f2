//! What holds of a lawful journal: the laws of legal histories, over a region's journal. None of these
//! functions does anything.

ghost use Rattle.fbc_closed_cuts.specs.Cut.{Cut, IsClosedCut, view};
ghost use Rattle.fbc_kinds.specs.Meaning.{MeanTheSame, meaning_of, meaning_with};
ghost use Rattle.fbc_kinds.specs.Sound.{IsSound};
ghost use Rattle.fbc_kinds.specs.View.{View};
ghost use Rattle.fbc_legal.specs.Coherent.{CopiesAreNewest};
ghost use Rattle.fbc_legal.specs.Scene.{scene_of};
ghost use Rattle.fbc_region.specs.Lawful.{IsLawfulOver};
ghost use Rattle.fbc_region.specs.Shared.{history_of};
ghost use Rattle.fbc_runs.specs.Ended.{settled_by};
ghost use Rattle.fbc_simulation.specs.Beside.{commits_in, machine_of};
ghost use Rattle.fbc_simulation.specs.Newest.{opens_at};
ghost use Rattle.fbc_page_edits.specs.Edited.{IsOfShape};
ghost use Rattle.fbc_world.specs.History.{Recording};
ghost use Rattle.fbc_world.specs.World.{newest_of, world_of};
ghost use Rattle.std.specs.Prelude.{Bool, List, Option, [], ℕ};

use fbc_cut::{every_cut_is_sound, every_cut_means_the_machine, newest_pages_mean_the_machine};
use fbc_legal::legal_worlds_are_coherent;

/// Coherence: what an owner may use of a page is the newest content of that page.
pub fn journals_are_coherent()
    ensures { (size : ℕ) (bytes : Option (List ℕ)) (journal : Recording) (file : View) (landings : List Bool)
        → IsLawfulOver size bytes journal file landings → CopiesAreNewest (world_of journal.shape file (history_of journal landings)) }
{
    legal_worlds_are_coherent();
}

/// Every cut of a journal over a sound file is sound.
pub fn cuts_of_journals_are_sound()
    ensures { (size : ℕ) (bytes : Option (List ℕ)) (journal : Recording) (file : View) (landings : List Bool) (cut : Cut)
        → IsOfShape journal.shape file → IsSound file → IsLawfulOver size bytes journal file landings
        → IsClosedCut (world_of journal.shape file (history_of journal landings)) cut
        → IsSound (view (world_of journal.shape file (history_of journal landings)) cut) }
{
    every_cut_is_sound();
}

/// It means the machine, with the commits whose marks stand in drafts of the cut, and all other open
/// transactions rolled back.
pub fn cuts_of_journals_mean_the_machine()
    ensures { (size : ℕ) (bytes : Option (List ℕ)) (journal : Recording) (file : View) (landings : List Bool) (cut : Cut)
        → IsOfShape journal.shape file → IsSound file → IsLawfulOver size bytes journal file landings
        → IsClosedCut (world_of journal.shape file (history_of journal landings)) cut
        → MeanTheSame (meaning_of (view (world_of journal.shape file (history_of journal landings)) cut))
        (settled_by [] (commits_in (world_of journal.shape file (history_of journal landings)) cut)
        (machine_of journal.shape file (history_of journal landings))) }
{
    every_cut_means_the_machine();
}

/// The newest pages, with the transactions of living owners open, mean the machine.
pub fn newest_pages_of_journals_mean_the_machine()
    ensures { (size : ℕ) (bytes : Option (List ℕ)) (journal : Recording) (file : View) (landings : List Bool)
        → IsOfShape journal.shape file → IsSound file → IsLawfulOver size bytes journal file landings
        → MeanTheSame (meaning_with (opens_at (scene_of journal.shape file (history_of journal landings)))
        (newest_of (world_of journal.shape file (history_of journal landings))))
        (machine_of journal.shape file (history_of journal landings)) }
{
    newest_pages_mean_the_machine();
}
