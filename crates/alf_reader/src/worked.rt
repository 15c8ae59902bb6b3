//! Small expressions, read by hand.

ghost use Rattle.std.specs.Prelude.{◌≡◌, [], ◌∷◌, codes, Ok, Err, true, false};
ghost use Rattle.alf_program.specs.Tree.{Number, Address, Load};
ghost use Rattle.alf_reader.specs.Grammar.{Number as TooGreat, OutOfProfile};
ghost use Rattle.alf_reader.specs.Worked.{term_in, load_text};

/// A number has its size, and a load its size and its address; a number past its size, a size past 64 and an
/// operator of another profile depart where they stand.
pub fn terms_are_what_their_texts_say()
    ensures least { term_in (codes "{dec_signed 8{minus 128}}")
        ≡ Ok (Number (record { signed = true; size = 8; bits = 128 })) }
    ensures past { term_in (codes "{dec_signed 8 128}") ≡ Err (TooGreat 4) }
    ensures greatest { term_in (codes "{dec_unsigned 8 255}")
        ≡ Ok (Number (record { signed = false; size = 8; bits = 255 })) }
    ensures more { term_in (codes "{dec_unsigned 8 256}") ≡ Err (TooGreat 4) }
    ensures load { term_in load_text ≡ Ok (Load 32 (Address (codes "x") 4)) }
    ensures wide { term_in (codes "{dec_unsigned 65 0}") ≡ Err (OutOfProfile 5 (codes "65")) }
    ensures unknown { term_in (codes "{f_add 32}") ≡ Err (OutOfProfile 9 (codes "f_add")) }
{}
