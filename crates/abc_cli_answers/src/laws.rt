ghost use Rattle.std.specs.Prelude.{◌≡◌, ◌⊎◌, ℕ, List, []};
ghost use Rattle.abc_cli_answers.specs.declared.command.Command.{Command};
ghost use Rattle.abc_cli_answers.specs.Grammar.{Says, IsWellFormed, IsUsageWord};

/// Any words are a command line, which says one command, or there are none, or they have one usage word. Never two of
/// these hold.
pub fn words_are_one_of_three()
    ghost words: { List (List ℕ) }
    ensures some { IsWellFormed words ⊎ ((words ≡ []) ⊎ ((i : ℕ) × IsUsageWord words i)) }
    ensures one_command { (c d : Command) → Says words c → Says words d → c ≡ d }
    ensures one_usage_word { (i j : ℕ) → IsUsageWord words i → IsUsageWord words j → i ≡ j }
    ensures not_empty { words ≡ [] → ¬ IsWellFormed words }
    ensures not_usage { (i : ℕ) → IsUsageWord words i → ¬ IsWellFormed words }
    ensures usage_not_empty { (i : ℕ) → IsUsageWord words i → ¬ (words ≡ []) }
{}
