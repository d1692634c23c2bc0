//! What the definitions of the written form come to.
ghost use Rattle.std.specs.Prelude.{◌≡◌, ◌≤◌, ◌↔◌, ℕ, List, [], Some, String, is_some, map, string_bytes, true};
ghost use Rattle.std.specs.declared.alloc.Global.{Global as Heap};
ghost use Rattle.clap.specs.Matches.{first_value, found_of};
ghost use Rattle.clap.specs.Simple.{HasMatchesOf};
ghost use Rattle.clap.specs.Takes.{takes};
ghost use Rattle.clap.specs.declared.parser.matches.ArgMatches.{ArgMatches};
ghost use Rattle.scr_args.specs.Command.{program};
ghost use Rattle.scr_args.specs.Forms.{Said, said, said_by, workers_of};
ghost use Rattle.scr_args.specs.Options.{Given, options_in};
ghost use Rattle.scr_args.specs.Spelled.{AreSpelled};

/// Words give options exactly where they spell them one after another, each as two words
/// `--name value` or as one word `--name=value`, each known, with a value, and given once.
pub fn spelled()
    ensures { (words : List (List ℕ)) (options : List Given)
        → (options_in words ≡ Some options) ↔ AreSpelled [] options words }
{}

/// On every list of words that has a written form `clap` takes the words, and finds the values that
/// say what the words say.
pub fn clap_agrees()
    ensures takes { (words : List (String Heap)) → is_some (said words) ≡ true
        → takes program (map string_bytes words) ≡ true }
    ensures finds { (words : List (String Heap)) (matches : ArgMatches)
        → is_some (said words) ≡ true → HasMatchesOf program (map string_bytes words) matches
        → said_by (first_value (found_of matches)) ≡ said words }
{}

/// The number of workers that words say is one from 1 to 64.
pub fn workers()
    ensures { (words : List (String Heap)) (says : Said) → said words ≡ Some says
        → (1 ≤ workers_of says) × (workers_of says ≤ 64) }
{}
