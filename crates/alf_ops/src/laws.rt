//! What words, operators and the meaning of a run promise, as clauses of functions that do nothing.

ghost use Rattle.std.specs.Prelude.{◌≡◌, ℕ, true, false};
ghost use Rattle.alf_ops.specs.declared.history.Value.TheVariants.{Int, Ptr};
ghost use Rattle.alf_ops.specs.Values.{size_of, bits_of, is_pointer};
ghost use Rattle.alf_ops.specs.WordLaws.{ReadsTwosComplement, IsRead, ReadsByHighestBit, BelowItsSize};
ghost use Rattle.alf_ops.specs.WordLaws.{TruncatesTowardZero, MovesRound, LesserAndGreater, SelectsBytes};
ghost use Rattle.alf_ops.specs.WordLaws.{ConcatenatesWords};
ghost use Rattle.alf_ops.specs.OperatorLaws.{ChoosesByBit, AddsWithCarry, SubtractsWithBorrow, Negates};
ghost use Rattle.alf_ops.specs.OperatorLaws.{MultipliesInFull, MultipliesReadings, DividesWords, ShiftsUp, RoundsDown};
ghost use Rattle.alf_ops.specs.OperatorLaws.{OrdersWords, TellsEqual, KeepsReading, TakesBitsOfBoth};
ghost use Rattle.alf_ops.specs.Names.{HaveOwnNames};
ghost use Rattle.alf_ops.specs.PointerLaws.{TableDecides, Unequal, Unordered, AsOffsets, Moves, Chosen, KindElsewhere};
ghost use Rattle.alf_ops.specs.PointerLaws.{DividedPointer, OutcomeFits, FirstFaultCounts};
ghost use Rattle.alf_ops.specs.HistoryLaws.{StoreThenLoad, StoreElsewhere, ReadsBack, EnterEmpties, EnterKeepsOthers};
ghost use Rattle.alf_ops.specs.HistoryLaws.{LeaveEnds, LeaveKeepsOthers, KindFirst, DeadNext, PastTheEnd, EmptyByte};
ghost use Rattle.alf_ops.specs.HistoryLaws.{PointerByte, WordOfBytes, ComesFromNewest, IsOneStore, StoreKeepsSound};
ghost use Rattle.alf_ops.specs.HistoryLaws.{LoadFits, HasOneAnswer};

use crate::table::rows;

/// A word is read in two's complement.
pub fn words_are_read_in_twos_complement()
    ensures signed { ReadsTwosComplement }
    ensures read { IsRead }
    ensures highest_bit { ReadsByHighestBit }
{}

/// Each value is cut to its size, a signed quotient is truncated toward zero, a rotation moves each
/// bit round, of two words one is the lesser, and bytes are selected and put together.
pub fn words_are_cut_and_computed()
    ensures fits { BelowItsSize }
    ensures truncated { TruncatesTowardZero }
    ensures rotated { MovesRound }
    ensures lesser { LesserAndGreater }
    ensures selected { SelectsBytes }
    ensures concatenated { ConcatenatesWords }
{}

/// A sum and its carry are the numbers added up, what is subtracted gives the number back, products
/// are not cut, and a quotient and its rest give the number back.
pub fn words_are_added_and_divided()
    ensures sum { AddsWithCarry }
    ensures difference { SubtractsWithBorrow }
    ensures negative { Negates }
    ensures product { MultipliesInFull }
    ensures signed_product { MultipliesReadings }
    ensures quotient { DividesWords }
{}

/// 1 chooses the first operand and 0 the second, shifts multiply and divide by powers of 2, and
/// bits are those of both, of either and of just one of two words.
pub fn words_are_chosen_and_shifted()
    ensures chosen { ChoosesByBit }
    ensures up { ShiftsUp }
    ensures down { RoundsDown }
    ensures bits { TakesBitsOfBoth }
{}

/// The orders are those of the numbers and of their signed readings, and an extension keeps them.
pub fn words_are_ordered_as_they_read()
    ensures order { OrdersWords }
    ensures equal { TellsEqual }
    ensures extended { KeepsReading }
{}

/// A pointer has the 32 bits of an address, and its offset in place of a word.
pub fn pointers_have_the_size_of_an_address()
    ensures size { (frame offset : ℕ) → size_of (Ptr frame offset) ≡ 32 }
    ensures offset { (frame offset : ℕ) → bits_of (Ptr frame offset) ≡ offset }
    ensures word { (size word : ℕ) → size_of (Int size word) ≡ size }
    ensures pointer { (frame offset : ℕ) → is_pointer (Ptr frame offset) ≡ true }
    ensures no_pointer { (size word : ℕ) → is_pointer (Int size word) ≡ false }
{}

/// No two operators have one name.
pub fn operators_have_their_own_names()
    ensures { HaveOwnNames }
{
    let _ = rows();
}

/// Where no operand is a pointer the table decides.
pub fn the_table_decides_at_words()
    ensures { TableDecides }
{}

/// Pointers to different frames are unequal, and neither ordered nor subtracted; pointers to one
/// frame are compared and subtracted as their offsets are.
pub fn pointers_are_compared_within_a_frame()
    ensures unequal { Unequal }
    ensures unordered { Unordered }
    ensures offsets { AsOffsets }
{}

/// A pointer moves within its frame, a choice may give one, and a pointer anywhere else is the
/// fault `Kind`, of every operator.
pub fn pointers_stand_where_a_rule_takes_them()
    ensures moves { Moves }
    ensures chosen { Chosen }
    ensures elsewhere { KindElsewhere }
    ensures divided { DividedPointer }
{}

/// An outcome has the size of the operator's result.
pub fn outcomes_have_their_size()
    ensures { OutcomeFits }
{}

/// Operands fault before their operator, the leftmost first.
pub fn operands_fault_from_left_to_right()
    ensures { FirstFaultCounts }
{}

/// A store and then a load of the same cell gives the value, and a load within a word that was
/// stored gives the word's bits there, the lowest bits at the lowest offset.
pub fn a_load_gives_what_was_stored()
    ensures same { StoreThenLoad }
    ensures within { ReadsBack }
{}

/// A store leaves a cell that shares no byte with it, and each cell of another frame, as it was.
pub fn a_store_leaves_other_cells()
    ensures { StoreElsewhere }
{}

/// Entering a function empties its frames, and those alone.
pub fn entering_empties_the_frames_of_the_function()
    ensures empties { EnterEmpties }
    ensures others { EnterKeepsOthers }
{}

/// Leaving a function ends its frames, and those alone.
pub fn leaving_ends_the_frames_of_the_function()
    ensures ends { LeaveEnds }
    ensures others { LeaveKeepsOthers }
{}

/// A load and a store test their address in the order `Kind`, `Dead`, `Bounds`.
pub fn an_address_is_tested_in_order()
    ensures kind { KindFirst }
    ensures dead { DeadNext }
    ensures bounds { PastTheEnd }
{}

/// A load reads its bytes: one without a store makes it `Uninit`; where they are not all of one
/// store of the very cell, one of a pointer makes it `Mixed`, and else it gives their word. It gives
/// exactly one of a value and a fault.
pub fn a_load_reads_its_bytes()
    ensures empty { EmptyByte }
    ensures mixed { PointerByte }
    ensures word { WordOfBytes }
    ensures one_answer { HasOneAnswer }
{}

/// A byte comes from the newest store since the frame's function was entered that covers it, and
/// bytes that come from stores of one cell come from stores of one value.
pub fn a_byte_comes_from_the_newest_store()
    ensures newest { ComesFromNewest }
    ensures one_store { IsOneStore }
{}

/// A store of a value that fits keeps a history sound, and a load of a sound history gives a value
/// of the size that is loaded.
pub fn sound_histories_give_values_that_fit()
    ensures stored { StoreKeepsSound }
    ensures loaded { LoadFits }
{}
