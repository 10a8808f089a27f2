//! The laws of legal histories. None of these functions does anything.

ghost use Rattle.fbc_closed_cuts.specs.Cut.{Cut, IsClosedCut, view};
ghost use Rattle.fbc_kinds.specs.Machine.{IsRun};
ghost use Rattle.fbc_kinds.specs.Meaning.{MeanTheSame, meaning_of, meaning_with};
ghost use Rattle.fbc_kinds.specs.Sound.{IsSound};
ghost use Rattle.fbc_kinds.specs.View.{View};
ghost use Rattle.fbc_kinds.specs.declared.replies.Reply.{Reply};
ghost use Rattle.fbc_kinds.specs.declared.shapes.Shape.{Shape};
ghost use Rattle.fbc_legal.specs.Coherent.{CopiesAreNewest};
ghost use Rattle.fbc_legal.specs.Legal.{IsLegal};
ghost use Rattle.fbc_legal.specs.Scene.{scene_of};
ghost use Rattle.fbc_runs.specs.Ended.{settled_by};
ghost use Rattle.fbc_runs.specs.Runs.{MayAllCome};
ghost use Rattle.fbc_simulation.specs.Beside.{commits_in, machine_of};
ghost use Rattle.fbc_simulation.specs.Newest.{opens_at};
ghost use Rattle.fbc_page_edits.specs.Edited.{IsOfShape};
ghost use Rattle.fbc_world.specs.Commands.{commands_of};
ghost use Rattle.fbc_world.specs.History.{History};
ghost use Rattle.fbc_world.specs.World.{newest_of, world_of};
ghost use Rattle.std.specs.Prelude.{List, [], ℕ, false};

use fbc_legal::legal_worlds_are_coherent;
use fbc_runs::playable_commands_are_runs;
use fbc_simulation::{legal_histories_are_simulated, newest_pages_are_meant};
use fbc_soundness::legal_histories_are_whole;

/// Coherence: what an owner may use of a page is the newest content of that page.
pub fn copies_are_newest()
    ensures { (shape : Shape) (file : View) (history : History) → IsLegal shape file history → CopiesAreNewest (world_of shape file history) }
{
    legal_worlds_are_coherent();
}

/// Every cut is sound: whichever drafts may have reached the file, each with all that are to be written
/// before it.
pub fn every_cut_is_sound()
    ensures { (shape : Shape) (file : View) (history : History) (cut : Cut) → IsOfShape shape file → IsSound file → IsLegal shape file history
        → IsClosedCut (world_of shape file history) cut → IsSound (view (world_of shape file history) cut) }
{
    legal_histories_are_whole();
}

/// And it means the same as the one-thread machine after the history's commands, with the commits whose
/// marks stand in drafts of the cut, and with all other open transactions rolled back.
pub fn every_cut_means_the_machine()
    ensures { (shape : Shape) (file : View) (history : History) (cut : Cut) → IsOfShape shape file → IsSound file → IsLegal shape file history
        → IsClosedCut (world_of shape file history) cut
        → MeanTheSame (meaning_of (view (world_of shape file history) cut))
        (settled_by [] (commits_in (world_of shape file history) cut) (machine_of shape file history)) }
{
    legal_histories_are_simulated();
}

/// So the file itself is sound at each moment, whoever died before, and wherever.
pub fn kept_pages_are_sound()
    ensures { (shape : Shape) (file : View) (history : History) → IsOfShape shape file → IsSound file
        → IsLegal shape file history → IsSound (world_of shape file history).kept }
{
    every_cut_is_sound();
}

/// And it means the machine with every open transaction rolled back.
pub fn kept_pages_mean_the_machine()
    ensures { (shape : Shape) (file : View) (history : History) → IsOfShape shape file → IsSound file → IsLegal shape file history
        → MeanTheSame (meaning_of (world_of shape file history).kept) (settled_by [] (λ owner. false) (machine_of shape file history)) }
{
    every_cut_means_the_machine();
}

/// The newest pages, with the transactions of living owners open, mean the same as the machine.
pub fn newest_pages_mean_the_machine()
    ensures { (shape : Shape) (file : View) (history : History) → IsOfShape shape file → IsSound file → IsLegal shape file history
        → MeanTheSame (meaning_with (opens_at (scene_of shape file history)) (newest_of (world_of shape file history))) (machine_of shape file history) }
{
    legal_histories_are_whole();
    legal_histories_are_simulated();
    newest_pages_are_meant();
}

/// The commands of a legal history are a run of the machine, from the meaning of the file on: each may
/// come where it stands.
pub fn commands_are_a_run()
    ensures come { (shape : Shape) (file : View) (history : History) → IsOfShape shape file → IsSound file → IsLegal shape file history
        → MayAllCome (meaning_of file) (commands_of shape file history) }
    ensures run { (shape : Shape) (file : View) (history : History) → IsOfShape shape file → IsSound file → IsLegal shape file history
        → (replies : List Reply) × IsRun (meaning_of file) (commands_of shape file history) replies (machine_of shape file history) }
{
    legal_histories_are_simulated();
    playable_commands_are_runs();
}
