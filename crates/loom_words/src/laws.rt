//! Laws on the words that documents name.
ghost use Rattle.std.specs.Prelude.{◌≡◌, Some, true};
ghost use Rattle.clap.specs.Words.{subcommand_of, takes};
ghost use Rattle.loom_words.specs.Command.{loom_app};
ghost use Rattle.loom_words.specs.Jobs.{IsNamed, job_in};

/// A law: the words that documents name (`IsNamed`) are taken and mean their jobs.
#[tactic(auto, using(crate::proofs::Named::named_taken, crate::proofs::Named::named_meant))]
pub fn words_that_are_taken()
    ensures taken { (words : _) (job : _) → IsNamed words job → takes loom_app words ≡ true }
    ensures meant { (words : _) (job : _) → IsNamed words job
        → job_in (subcommand_of loom_app words) ≡ Some job }
{}
