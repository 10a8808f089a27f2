//! Words say one thing.

ghost use Rattle.std.specs.Prelude.{◌≡◌, List, string_bytes};
ghost use Rattle.std.specs.Global.{Global as Allocator};
ghost use Rattle.std.specs.declared.string.String.{String as Word};
ghost use Rattle.fbc_command_line.specs.declared.commands.Command.{Command as Asked};
ghost use Rattle.fbc_command_line.specs.declared.options.Given.{Given as One};
ghost use Rattle.fbc_command_line.specs.declared.options.OptionRule.{OptionRule as Rule};
ghost use Rattle.fbc_command_line.specs.Commands.{SpellsCommand};
ghost use Rattle.fbc_command_line.specs.Options.{GiveOptions};

/// The same words give the same options.
pub fn words_give_one_list()
    ensures { (table : List Rule) (words : List (Word Allocator)) (one other : List One)
        → GiveOptions table words one → GiveOptions table words other → one ≡ other }
{}

/// The same words spell the same command.
pub fn words_spell_one_command()
    ensures { (words : List (Word Allocator)) (one other : Asked)
        → SpellsCommand words one → SpellsCommand words other → one ≡ other }
{}
