//! Laws of the command line.

ghost use Rattle.std.specs.Prelude.{◌≡◌, List, string_bytes};
ghost use Rattle.clap.specs.Walk.{Text};
ghost use Rattle.sim_run_options.specs.Asks.{Asks, AreRefused, AsksForHelp};
ghost use Rattle.sim_run_options.specs.declared.options.Options.{Options};

/// Words ask for at most one run.
pub fn words_ask_for_at_most_one_run()
    ensures { (words : List Text) (a b : Options) → Asks words a → Asks words b →
        (string_bytes a.top ≡ string_bytes b.top) × (a.stop ≡ b.stop) × (a.limit ≡ b.limit) × (a.workers ≡ b.workers) }
{}

/// Words that ask for a run are not refused.
pub fn words_for_a_run_are_not_refused()
    ensures { (words : List Text) (options : Options) → Asks words options → AreRefused words → ⊥ }
{}

/// Words that ask for a run do not ask for help.
pub fn words_for_a_run_do_not_ask_for_help()
    ensures { (words : List Text) (options : Options) → Asks words options → AsksForHelp words → ⊥ }
{}

/// Words that ask for help are not refused.
pub fn words_for_help_are_not_refused()
    ensures { (words : List Text) → AsksForHelp words → AreRefused words → ⊥ }
{}
