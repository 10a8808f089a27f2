//! The play theorem for one transaction.

ghost use Rattle.std.specs.Prelude.{◌≤◌, ◌⊎◌, ℕ, List, [], Option, Result, Some, count_by, reverse};
ghost use Rattle.fbc_script.specs.declared.single.SingleTransaction.TheVariants.{Absent, Steps};
ghost use Rattle.fbc_kinds.specs.Machine.{empty};
ghost use Rattle.fbc_script.specs.declared.single.Step.{Step};
ghost use Rattle.fbc_script.specs.SingleTransaction.{is_insert};
ghost use Rattle.fbc_console.specs.declared.statuses.Status.{Status};
ghost use Rattle.fbc_console.specs.Committing.{IsCommitted, IsPartCommitted, Stands};
ghost use Rattle.fbc_console.specs.Images.{IsFreshFile};
ghost use Rattle.fbc_console.specs.Transaction.{inserted, transcript};
ghost use Rattle.fbc_console.specs.Opening.{IsFreshDevice};
ghost use Rattle.fbc_console.specs.PlayTheorem.{TellReplies, IsFileOf, HasAllOrNothing, IsPlayOf, machine_of};

use fbc_files::{listed_pages, page_write};

/// The lines that answer a transaction are the replies of the one-thread machine that began
/// without rows.
pub fn answers_are_the_machines()
    ensures { (steps : List Step) → TellReplies steps (transcript steps) }
{}

/// After the commit the fresh file is a sound file that means this machine.
pub fn a_committed_file_means_the_machine()
    ensures { (reach : ℕ) (before now : List ℕ) (steps : List Step)
        → IsFreshFile before
        → count_by is_insert steps ≤ 45
        → IsCommitted (Some before) (Some now) (inserted (reverse steps))
        → IsFileOf reach now (machine_of steps) }
{
    page_write();
    listed_pages();
}

/// The fresh file is a sound file that means the machine without rows.
pub fn the_fresh_file_means_no_rows()
    ensures { (reach : ℕ) (bytes : List ℕ) → IsFreshFile bytes → IsFileOf reach bytes empty }
{
    listed_pages();
}

/// A transaction that is told whole and committed over the fresh file is the play of its steps.
pub fn a_committed_transaction_is_a_play()
    ensures { (reach : ℕ) (before now : Option (List ℕ)) (steps : List Step)
        → IsFreshDevice before
        → count_by is_insert steps ≤ 45
        → IsCommitted before now (inserted (reverse steps))
        → IsPlayOf reach (Steps steps) (transcript steps) now }
{
    answers_are_the_machines();
    a_committed_file_means_the_machine();
}

/// Where nothing is told and the fresh file is left, that is the play of the empty script.
pub fn an_untouched_file_is_an_empty_play()
    ensures { (reach : ℕ) (now : Option (List ℕ)) → IsFreshDevice now → IsPlayOf reach Absent [] now }
{
    the_fresh_file_means_no_rows();
}

/// After a part of the commit the file is sound, and means the machine without rows or the one
/// after all steps.
pub fn a_part_of_a_commit_stands_as_a_whole()
    ensures { (reach : ℕ) (before now : List ℕ) (steps : List Step)
        → IsFreshFile before
        → count_by is_insert steps ≤ 45
        → IsPartCommitted (Some before) (Some now) (inserted (reverse steps))
        → IsFileOf reach now empty ⊎ IsFileOf reach now (machine_of steps) }
{
    page_write();
    listed_pages();
}

/// However a play over the fresh file ended, the file is sound, and nothing of the transaction
/// stands in it, or all of it.
pub fn a_transaction_stands_as_a_whole()
    ensures { (reach : ℕ) (ended : Result (Unit {0}) Status) (before now : Option (List ℕ)) (steps : List Step)
        → IsFreshDevice before
        → count_by is_insert steps ≤ 45
        → Stands ended before now (inserted (reverse steps))
        → HasAllOrNothing reach now steps }
{
    the_fresh_file_means_no_rows();
    a_committed_file_means_the_machine();
    a_part_of_a_commit_stands_as_a_whole();
}
