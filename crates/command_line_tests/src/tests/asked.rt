//! What a few words ask for, proved only from the definition: if the definition were wrong, these
//! proofs would fail.
ghost use Rattle.std.specs.Prelude.{[], ◌∷◌, ℕ, List, Option, Some, codes};
ghost use Rattle.command_line.specs.CommandLine.{AskFor, AskForBoth, AskForRounds, AskToSave};

/// `--assume` takes the word after it, and FORMULA is the first word that no option takes. Words
/// with a fault ask for nothing. Only `--checkpoint` asks for a checkpoint, and only `--rounds` for
/// rounds.
pub fn words_ask_for_files()
    ensures assumed { AskFor (codes "--assume" ∷ codes "a" ∷ codes "f" ∷ codes "s" ∷ [])
        (codes "f") (Some (codes "a")) }
    ensures fault { (formula : List ℕ) (assume : Option (List ℕ)) →
        ¬ AskFor (codes "--assume" ∷ codes "a" ∷ codes "f" ∷ []) formula assume }
    ensures saved { AskToSave (codes "f" ∷ codes "--checkpoint=c" ∷ codes "s" ∷ []) (codes "c") }
    ensures unsaved { (path : List ℕ) →
        ¬ AskToSave (codes "--assume" ∷ codes "a" ∷ codes "f" ∷ codes "s" ∷ []) path }
    ensures rounds { AskForRounds (codes "f" ∷ codes "--rounds=d" ∷ codes "s" ∷ []) (codes "d") }
    ensures one_round { (folder : List ℕ) →
        ¬ AskForRounds (codes "--checkpoint" ∷ codes "d" ∷ codes "f" ∷ codes "s" ∷ []) folder }
    ensures both { AskForBoth
        (codes "--checkpoint=c" ∷ codes "--rounds=d" ∷ codes "f" ∷ codes "s" ∷ []) }
{}
