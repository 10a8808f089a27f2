//! Pages that are taken, made, named and freed. None of these functions does anything.

ghost use Rattle.fbc_legal.specs.Facts.{Names};
ghost use Rattle.fbc_legal.specs.Legal.{IsLegal};
ghost use Rattle.fbc_legal.specs.Scene.{IsBefore, scene_of};
ghost use Rattle.fbc_examples.specs.Files.{empty_file, new_file, small_shape, stale_file};
ghost use Rattle.fbc_examples.specs.Pages.{with_freed_page, with_inventory, with_pointer_page, with_tip};
ghost use Rattle.fbc_examples.specs.Unnaming.{with_free_page, with_page_beside, with_taken_beside, with_unnamed_page};
ghost use Rattle.fbc_world.specs.World.{world_of};

/// A page is taken, made a data page, named, unnamed and freed again.
pub fn a_data_page_comes_and_goes()
    ensures { IsLegal small_shape new_file with_freed_page }
{}

/// The header gets one more page of each kind that it counts or names.
pub fn the_header_grows()
    ensures pointer { IsLegal small_shape new_file with_pointer_page }
    ensures tip { IsLegal small_shape new_file with_tip }
    ensures inventory { IsLegal small_shape new_file with_inventory }
{}

/// A page is freed that a pointer page in the file still names: the owner's draft of the pointer page
/// does not, and is to be written before.
pub fn a_page_is_freed_before_its_name_is_gone()
    ensures legal { IsLegal small_shape empty_file with_free_page }
    ensures named { Names ((world_of small_shape empty_file with_unnamed_page).kept 3) 4 }
{}

/// A page is made that a new pointer page still names in the file, and that may be written before it:
/// the header in the file does not name that pointer page, and will not before it is written.
pub fn a_page_is_made_beside_a_new_pointer_page()
    ensures legal { IsLegal small_shape stale_file with_page_beside }
    ensures named { Names ((world_of small_shape stale_file with_taken_beside).kept 5) 4 }
    ensures order { ¬ IsBefore (scene_of small_shape stale_file with_taken_beside) 5 4 }
{}
