//! Command lines, worked out apart from the definitions.

ghost use Rattle.std.specs.Prelude.{◌≡◌, [], ◌∷◌, codes, replicate, Some, None, true, false};
ghost use Rattle.sweet_words.specs.declared.merging.Merging.TheVariants.{Never, Exits, Joins};
ghost use Rattle.sweet_words.specs.Commands.{Analyse, Check, Replay, Lower, Print, Run, Generate, Migrate, Cache};
ghost use Rattle.sweet_words.specs.Commands.{Worst, Tasks, command_of};
ghost use Rattle.sweet_words.specs.Files.{Alf, C};
ghost use Rattle.sweet_words.specs.Roots.{name_or_main};

/// What the words of `analyse` leave out is `main`, no files, 100,000 turns, merging everywhere, 1,000 pivots and
/// no certificate.
pub fn analyse_takes_what_its_words_say()
    ensures plain { command_of (codes "analyse" ∷ codes "p.alf" ∷ [])
        ≡ Some
        (Analyse
        (record {
          program = Alf (codes "p.alf");
          root = codes "main";
          inputs = None;
          costs = None;
          turns = 100000;
          merging = Joins;
          pivots = 1000;
          certified = false;
        })) }
    ensures full { command_of
        (codes "analyse" ∷ codes "p.c" ∷ codes "--root" ∷ codes "f" ∷ codes "--inputs" ∷ codes "i" ∷ codes "--costs"
        ∷ codes "k" ∷ codes "--turns" ∷ codes "7" ∷ codes "--merge" ∷ codes "exits" ∷ codes "--pivots" ∷ codes "4000"
        ∷ codes "--cert" ∷ [])
        ≡ Some
        (Analyse
        (record {
          program = C (codes "p.c");
          root = codes "f";
          inputs = Some (codes "i");
          costs = Some (codes "k");
          turns = 7;
          merging = Exits;
          pivots = 4000;
          certified = true;
        })) }
    ensures few { command_of (codes "analyse" ∷ codes "p.alf" ∷ codes "--turns" ∷ codes "0" ∷ []) ≡ None }
    ensures most { command_of (codes "analyse" ∷ codes "p.alf" ∷ codes "--turns" ∷ codes "1000001" ∷ []) ≡ None }
    ensures pivots { command_of (codes "analyse" ∷ codes "p.alf" ∷ codes "--pivots" ∷ codes "4001" ∷ []) ≡ None }
    ensures file { command_of (codes "analyse" ∷ []) ≡ None }
    ensures quoted { command_of (codes "analyse" ∷ codes "p.alf" ∷ codes "--root" ∷ codes "a\"b" ∷ []) ≡ None }
{}

/// Each command takes its files in their order, and `lower` a file of C alone.
pub fn commands_take_their_words()
    ensures check { command_of (codes "check" ∷ codes "p" ∷ codes "r" ∷ [])
        ≡ Some
        (Check
        (record { program = Alf (codes "p"); report = codes "r"; root = codes "main"; inputs = None; costs = None })) }
    ensures replay { command_of (codes "replay" ∷ codes "p" ∷ codes "r" ∷ codes "--at" ∷ codes "v" ∷ [])
        ≡ Some
        (Replay
        (record {
          program = Alf (codes "p");
          report = codes "r";
          values = Some (codes "v");
          root = codes "main";
          inputs = None;
          costs = None;
        })) }
    ensures lower { command_of (codes "lower" ∷ codes "p.c" ∷ [])
        ≡ Some (Lower (record { file = codes "p.c"; root = codes "main" })) }
    ensures lower_alf { command_of (codes "lower" ∷ codes "p.alf" ∷ []) ≡ None }
    ensures print { command_of (codes "print" ∷ codes "pc" ∷ []) ≡ Some (Print (Alf (codes "pc"))) }
    ensures run { command_of (codes "run" ∷ codes "p" ∷ [])
        ≡ Some
        (Run (record { program = Alf (codes "p"); root = codes "main"; inputs = None; costs = None; turns = 100000 })) }
    ensures generate { command_of (codes "generate" ∷ codes "40" ∷ []) ≡ Some (Generate 40) }
    ensures more { command_of (codes "generate" ∷ codes "41" ∷ []) ≡ None }
    ensures migrate { command_of (codes "migrate" ∷ codes "r" ∷ []) ≡ Some (Migrate (codes "r")) }
    ensures cache { command_of
        (codes "cache" ∷ codes "p" ∷ codes "--sets" ∷ codes "1" ∷ codes "--ways" ∷ codes "2" ∷ codes "--line"
        ∷ codes "4" ∷ codes "--penalty" ∷ codes "0" ∷ [])
        ≡ Some
        (Cache
        (record {
          program = Alf (codes "p");
          root = codes "main";
          inputs = None;
          costs = None;
          turns = 100000;
          merging = Joins;
          sets = 1;
          ways = 2;
          line = 4;
          penalty = 0;
        })) }
    ensures worst { command_of (codes "worst" ∷ codes "p" ∷ [])
        ≡ Some
        (Worst
        (record {
          program = Alf (codes "p");
          root = codes "main";
          inputs = None;
          costs = None;
          turns = 100000;
          merging = Joins;
          pivots = 1000;
          splits = 16;
        })) }
    ensures tasks { command_of (codes "tasks" ∷ codes "t" ∷ []) ≡ Some (Tasks (codes "t")) }
    ensures unknown { command_of (codes "analyze" ∷ codes "p" ∷ []) ≡ None }
{}

/// The root may be a name of 1 to 64 printable bytes without a quotation mark and a backslash.
pub fn roots_are_names()
    ensures absent { name_or_main None ≡ Some (codes "main") }
    ensures named { name_or_main (Some (codes "f ~!g")) ≡ Some (codes "f ~!g") }
    ensures empty { name_or_main (Some []) ≡ None }
    ensures longest { name_or_main (Some (replicate 64 126)) ≡ Some (replicate 64 126) }
    ensures long { name_or_main (Some (replicate 65 126)) ≡ None }
    ensures line_feed { name_or_main (Some (120 ∷ 10 ∷ 121 ∷ [])) ≡ None }
    ensures control { name_or_main (Some (31 ∷ [])) ≡ None }
    ensures quote { name_or_main (Some (34 ∷ [])) ≡ None }
    ensures backslash { name_or_main (Some (92 ∷ [])) ≡ None }
    ensures high { name_or_main (Some (127 ∷ [])) ≡ None }
{}
