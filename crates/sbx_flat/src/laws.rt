//! Laws of the flat machine's definitions. Each is the contract of a function that does nothing.
ghost use Rattle.std.specs.Prelude.{◌≡◌, ◌≢◌, ℕ, ◌+◌, ◌-◌, ◌<◌, ◌≤◌, ◌%◌, ◌*◌, ◌^◌, ◌==◌, if◌then◌else◌, List, [], ◌∷◌};
ghost use Rattle.std.specs.Prelude.{◌++◌, length, Option, None, Some, Bool, false, true};
ghost use Rattle.std.specs.List.{AllByRecursion};
ghost use Rattle.sbx_image.specs.Parts.{Parts};
ghost use Rattle.sbx_image.specs.Spelling.{IsTypedRegion};
ghost use Rattle.sbx_flat.specs.Alike.{Alike, AlikeRegisters, Known, PopsAlike, known_popped, known_pushed, known_slot};
ghost use Rattle.sbx_flat.specs.Alike.{known_written, knows};
ghost use Rattle.sbx_flat.specs.Examples.{at_first, at_restore, at_save, at_second, at_third, based, called_by};
ghost use Rattle.sbx_flat.specs.Examples.{save_and_restore, step_of, with_addresses, with_region, with_slots};
ghost use Rattle.sbx_flat.specs.Examples.{with_two_regions};
ghost use Rattle.sbx_flat.specs.Invariants.{IsInvariant};
ghost use Rattle.sbx_flat.specs.Locations.{location_in};
ghost use Rattle.sbx_flat.specs.Memory.{with_number};
ghost use Rattle.sbx_flat.specs.Registers.{Frame, Fresh, IsFresh, Registers, popped, pushed, pushed_frame, with_slot};
ghost use Rattle.sbx_flat.specs.Registers.{word_in, written};
ghost use Rattle.sbx_flat.specs.Runs.{AreBytes, FlatRun, FlatSafe, IsStart, Place, Run, weight, weight_at};
ghost use Rattle.sbx_flat.specs.States.{BadFrame, Fails, Goes, Misaligned, NoCaller, NoService, NotAdmitted};
ghost use Rattle.sbx_flat.specs.States.{OutsideCode, OutsideData, Over, StackPointer, State, TagOverflow, ZeroDivisor};
ghost use Rattle.sbx_flat.specs.States.{reg, with_reg};
ghost use Rattle.sbx_flat.specs.Traffic.{traffic};
ghost use Rattle.sbx_flat.specs.OwnPages.{is_own_code_page, is_own_data_page};
ghost use Rattle.sbx_flat.specs.Turns.{IsWrong, Step, turn};
ghost use Rattle.sbx_flat.specs.Unread.{Unread, asks};
ghost use Rattle.sbx_flat.specs.WellFormed.{IsWellFormed};

use crate::invariants::Relation;

/// A register reads what was written to it, and the others what they read before; register 0 reads 0.
#[tactic(auto, using(crate::proofs::Registers::reg_with_reg, crate::proofs::Registers::reg_zero))]
pub fn registers_keep_words()
    ensures written { (n v : ℕ) (s : State) (r : ℕ) → n ≢ 0 → reg (with_reg n v s) r ≡ (if r == n then v else reg s r) }
    ensures zero { (s : State) → reg s 0 ≡ 0 }
{}

/// A frame that is pushed and popped leaves the registers of its caller, whatever it held.
pub fn frames_come_and_go()
    ensures { (fresh : Fresh) (base : ℕ) (file : Registers) → popped (pushed fresh base file) ≡ Some file }
{}

/// A frame that is pushed has its base as %sp, the caller's outs as its ins, and the globals; its locals and its other
/// outs are open.
#[tactic(auto, using(crate::proofs::Registers::base_pushed, crate::proofs::Registers::globals_pushed, crate::proofs::Registers::outs_pushed, crate::proofs::Registers::locals_pushed, crate::proofs::Registers::ins_pushed))]
pub fn frames_share_registers()
    ensures base { (fresh : Fresh) (base : ℕ) (file : Registers) → word_in (pushed fresh base file) 14 ≡ base }
    ensures globals { (fresh : Fresh) (base : ℕ) (file : Registers) (r : ℕ) → r < 8 →
        word_in (pushed fresh base file) r ≡ word_in file r }
    ensures outs { (fresh : Fresh) (base : ℕ) (file : Registers) (r : ℕ) → 8 ≤ r → r < 16 → r ≢ 14 →
        word_in (pushed fresh base file) r ≡ fresh.outs r }
    ensures locals { (fresh : Fresh) (base : ℕ) (file : Registers) (r : ℕ) → 16 ≤ r → r < 24 →
        word_in (pushed fresh base file) r ≡ fresh.locals r }
    ensures ins { (fresh : Fresh) (base : ℕ) (file : Registers) (r : ℕ) → 24 ≤ r → r < 32 →
        word_in (pushed fresh base file) r ≡ word_in file (r - 16) }
{}

/// Each step counts, annulled ones too: so a path within a budget ends.
#[tactic(auto, using(crate::proofs::Turns::weighs_some))]
pub fn each_step_counts()
    ensures { (parts : Parts) (place : Place) → 1 ≤ weight_at parts place }
{}

/// A state that isn't wrong and has no exit word has a next one, whatever words a pushed frame would hold.
#[tactic(auto, using(crate::proofs::Goes::goes))]
pub fn states_go_on_or_are_wrong()
    ensures { (parts : Parts) (fresh : Fresh) (s : State) → IsFresh fresh →
        s.exit ≡ None → (IsWrong parts s → ⊥) → (next : State) × (turn parts fresh s ≡ Goes next) }
{}

/// Each state that a run reaches is well-formed: registers, slots, Y and the exit word are words, the data, the input
/// and the output bytes, PC and nPC multiples of 4, and the open calls have 64 bytes each on the stack, one below the
/// other, with their slots between them.
pub fn states_stay_well_formed()
    ensures starts { (parts : Parts) (input : List ℕ) (s : State) → 1 ≤ parts.stack_pages →
        AllByRecursion IsTypedRegion parts.regions → AreBytes input → IsStart parts input s →
        IsWellFormed parts.stack_pages s }
    ensures steps { (parts : Parts) (s next : State) → IsWellFormed parts.stack_pages s → Step parts s next →
        IsWellFormed parts.stack_pages next }
    ensures runs { (parts : Parts) (input : List ℕ) (path : List Place) (s : State) → 1 ≤ parts.stack_pages →
        AllByRecursion IsTypedRegion parts.regions → AreBytes input → FlatRun parts input path s →
        IsWellFormed parts.stack_pages s }
{}

/// An invariant of two runs makes an image safe, whichever relation it is; and it holds of the states that two runs
/// over one input reach along the same path.
pub fn invariants_make_safe<I: Relation>()
    ensures safe { (parts : Parts) → IsInvariant parts (I.related parts) → FlatSafe parts }
    ensures along { (parts : Parts) (input : List ℕ) (path : List Place) (s t : State) →
        IsInvariant parts (I.related parts) → AreBytes input → FlatRun parts input path s →
        FlatRun parts input path t → I.related parts (weight parts path) s t }
{}

/// A location but register 0, the registers by number and from 32 on the words of the newest frame, holds the word that
/// was last written to it, and the others what they held before; the frame's base stays what it was.
pub fn locations_keep_words()
    ensures register { (base n v : ℕ) (file : Registers) (l : ℕ) → n ≢ 0 → n < 32 →
        location_in base (written n v file) l ≡ (if l == n then Some v else location_in base file l) }
    ensures frame_word { (base k v : ℕ) (file : Registers) (l : ℕ) →
        location_in base (with_slot (base + 64 + 4 * k) v file) l ≡
        (if l == 32 + k then Some v else location_in base file l) }
{}

/// Two states that agree in what is known of them still do after the same word is written to a register or to a slot of
/// both, and after both push a frame of the same base, whatever its other words are, or both go back to the caller.
/// What is known reads alike.
pub fn known_words_stay_alike()
    ensures reads { (k : Known) (s t : State) (r : ℕ) → Alike k s t → r < 32 → knows k r ≡ true → reg s r ≡ reg t r }
    ensures writes { (k : Known) (s t : State) (n v : ℕ) → n < 32 → Alike k s t →
        Alike (known_written n k) (with_reg n v s) (with_reg n v t) }
    ensures slots { (k : Known) (a b : Registers) (address v : ℕ) → AlikeRegisters k a b →
        AlikeRegisters (known_slot address k) (with_slot address v a) (with_slot address v b) }
    ensures pushes { (k : Known) (a b : Registers) (fresh other : Fresh) (base : ℕ) → AlikeRegisters k a b →
        AlikeRegisters (known_pushed k) (pushed fresh base a) (pushed other base b) }
    ensures pops { (k : Known) (a b : Registers) → AlikeRegisters k a b →
        PopsAlike (known_popped k) (popped a) (popped b) }
{}

/// A run that asks for no more bytes than the front of its input has goes the same way whatever bytes follow, and
/// leaves them.
pub fn input_beyond_is_unread()
    ensures { (parts : Parts) (path : List Place) (s t : State) (front rest other : List ℕ) → s.input ≡ front ++ rest →
        Run parts s path t → asks parts path ≤ length front → Unread parts s t path front rest other }
{}

/// Three of four windows hold frames, one of them the first: so the last of three calls spills that frame, and the last
/// of three returns fills it again. Four steps count 1, and these two count 25.
#[tactic(auto, using(crate::proofs::Examples::traffic_of_three))]
pub fn three_calls_overflow_four_windows()
    ensures { (parts : Parts) →
        traffic (record parts { words = save_and_restore }) 4
        (at_save ∷ at_save ∷ at_save ∷ at_restore ∷ at_restore ∷ at_restore ∷ []) ≡
        record { windows = 1; overflows = 1; underflows = 1; turns = 54 } }
{}

/// Two words are on the first page of the code alone, and eight bytes of a region on the first of the data, which is
/// one for stores only where the region may be written; a second region is on the next page. Two stack pages are the
/// last below the stack's end.
pub fn pages_are_own_to_their_bounds()
    ensures code { (parts : Parts) → is_own_code_page (record parts { words = save_and_restore }) 0x40 ≡ true }
    ensures before_code { (parts : Parts) → is_own_code_page parts 0x3F ≡ false }
    ensures after_code { (parts : Parts) → is_own_code_page (record parts { words = save_and_restore }) 0x41 ≡ false }
    ensures data { (parts : Parts) → is_own_data_page (with_region true 8 parts) true 0x80 ≡ true }
    ensures after_data { (parts : Parts) →
        is_own_data_page (record (with_region true 8 parts) { stack_pages = 2 }) false 0x81 ≡ false }
    ensures loaded { (parts : Parts) → is_own_data_page (with_region false 8 parts) false 0x80 ≡ true }
    ensures not_stored { (parts : Parts) →
        is_own_data_page (record (with_region false 8 parts) { stack_pages = 2 }) true 0x80 ≡ false }
    ensures second { (parts : Parts) → is_own_data_page (with_two_regions parts) true 0x81 ≡ true }
    ensures first_not_stored { (parts : Parts) →
        is_own_data_page (record (with_two_regions parts) { stack_pages = 2 }) true 0x80 ≡ false }
    ensures after_second { (parts : Parts) →
        is_own_data_page (record (with_two_regions parts) { stack_pages = 2 }) false 0x82 ≡ false }
    ensures before_stack { (parts : Parts) →
        is_own_data_page (record parts { regions = []; stack_pages = 2 }) false 0xFD ≡ false }
    ensures stack { (parts : Parts) →
        is_own_data_page (record parts { regions = []; stack_pages = 2 }) true 0xFE ≡ true }
    ensures last { (parts : Parts) →
        is_own_data_page (record parts { regions = []; stack_pages = 2 }) true 0xFF ≡ true }
    ensures after_stack { (parts : Parts) →
        is_own_data_page (record parts { regions = []; stack_pages = 2 }) false 0x100 ≡ false }
{}

/// SAVE opens a frame: `save %sp,-96,%sp` with %sp at 000FFFC0. The same with -56, -100 and, of one stack page, -4040:
/// less than 64 bytes, no multiple of 8, below the page. And a SAVE to %o0.
#[tactic(auto, unfolding(crate::specs::Turns::turn, crate::specs::Turns::word_at, crate::specs::States::reg, crate::specs::Registers::written, v8_formats::specs::Table::meaning, v8_meaning::specs::Operations::operation_of, v8_meaning::specs::Admitted::is_admitted))]
pub fn save_opens_a_frame()
    ensures opens { (parts : Parts) (fresh : Fresh) (s : State) →
        step_of 0x9DE3BFA0 (record parts { stack_pages = 1 }) fresh (based 0xFFFC0 s) ≡
        Goes (at_second (record s { registers = pushed fresh 0xFFF60 (based 0xFFFC0 s).registers })) }
    ensures least { (parts : Parts) (fresh : Fresh) (s : State) →
        step_of 0x9DE3BFC0 (record parts { stack_pages = 1 }) fresh (based 0xFFFC0 s) ≡
        Goes (at_second (record s { registers = pushed fresh 0xFFF80 (based 0xFFFC0 s).registers })) }
    ensures near { (parts : Parts) (fresh : Fresh) (s : State) →
        step_of 0x9DE3BFC8 (record parts { stack_pages = 1 }) fresh (based 0xFFFC0 s) ≡ Fails BadFrame }
    ensures odd { (parts : Parts) (fresh : Fresh) (s : State) →
        step_of 0x9DE3BF9C (record parts { stack_pages = 1 }) fresh (based 0xFFFC0 s) ≡ Fails BadFrame }
    ensures low { (parts : Parts) (fresh : Fresh) (s : State) →
        step_of 0x9DE3B038 (record parts { stack_pages = 1 }) fresh (based 0xFFFC0 s) ≡ Fails BadFrame }
    ensures another_register { (parts : Parts) (fresh : Fresh) (s : State) →
        step_of 0x91E3BFA0 (record parts { stack_pages = 1 }) fresh (based 0xFFFC0 s) ≡ Fails BadFrame }
{}

/// A frame's slots are the words from 64 above its base up to its caller's base.
#[tactic(auto, unfolding(crate::specs::Turns::turn, crate::specs::Turns::word_at, crate::specs::States::reg, crate::specs::Registers::written, v8_formats::specs::Table::meaning, v8_meaning::specs::Operations::operation_of, v8_meaning::specs::Admitted::is_admitted))]
pub fn slots_lie_above_the_save_area()
    ensures first { (fresh : Fresh) → (pushed_frame fresh 0xFFF60 0xFFFC0).slots 0xFFFA0 ≡ Some (fresh.slots 0xFFFA0) }
    ensures last { (fresh : Fresh) → (pushed_frame fresh 0xFFF60 0xFFFC0).slots 0xFFFBC ≡ Some (fresh.slots 0xFFFBC) }
    ensures below { (fresh : Fresh) → (pushed_frame fresh 0xFFF60 0xFFFC0).slots 0xFFF9C ≡ None }
    ensures between { (fresh : Fresh) → (pushed_frame fresh 0xFFF60 0xFFFC0).slots 0xFFFA2 ≡ None }
    ensures above { (fresh : Fresh) → (pushed_frame fresh 0xFFF60 0xFFFC0).slots 0xFFFC0 ≡ None }
{}

/// RESTORE goes back to the caller and then writes its register: `restore %g0,7,%o0`. The oldest frame has no caller.
#[tactic(auto, unfolding(crate::specs::Turns::turn, crate::specs::Turns::word_at, crate::specs::States::reg, crate::specs::Registers::written, v8_formats::specs::Table::meaning, v8_meaning::specs::Operations::operation_of, v8_meaning::specs::Admitted::is_admitted))]
pub fn restore_goes_back()
    ensures back { (parts : Parts) (fresh : Fresh) (s : State) → (caller : Frame) (older : List Frame) →
        step_of 0x91E82007 parts fresh (called_by caller older s) ≡
        Goes (at_second
        (with_reg 8 7 (record s { registers = record s.registers { newest = caller; older = older } }))) }
    ensures oldest { (parts : Parts) (fresh : Fresh) (s : State) →
        step_of 0x81E80000 parts fresh (record s { registers = record s.registers { older = [] } }) ≡ Fails NoCaller }
{}

/// LD and ST of a slot: `ld [%sp+64],%o0` and `st %o1,[%sp+64]` with %sp at 000FFF60. A byte of a slot is out of reach.
#[tactic(auto, unfolding(crate::specs::Turns::turn, crate::specs::Turns::word_at, crate::specs::States::reg, crate::specs::Registers::written, sbx_parts::specs::Regions::holds, v8_formats::specs::Table::meaning, v8_meaning::specs::Operations::operation_of, v8_meaning::specs::Admitted::is_admitted))]
pub fn slots_hold_words()
    ensures loads { (parts : Parts) (fresh : Fresh) (s : State) →
        step_of 0xD003A040 parts fresh (with_slots (λ a. Some a) (based 0xFFF60 s)) ≡
        Goes (at_second (with_reg 8 0xFFFA0 (with_slots (λ a. Some a) (based 0xFFF60 s)))) }
    ensures stores { (parts : Parts) (fresh : Fresh) (s : State) →
        step_of 0xD223A040 parts fresh (with_slots (λ a. Some a) (based 0xFFF60 s)) ≡
        Goes (at_second (with_slots (λ a. if a == 0xFFFA0 then Some 0xFFF60 else Some a) (based 0xFFF60 s))) }
    ensures no_slot { (parts : Parts) (fresh : Fresh) (s : State) →
        step_of 0xD003A040 parts fresh (record (with_slots (λ a. None) (based 0xFFF60 s)) { memory = λ a. None }) ≡
        Fails OutsideData }
    ensures byte { (parts : Parts) (fresh : Fresh) (s : State) →
        step_of 0xD22BA040 parts fresh (record (with_slots (λ a. Some a) (based 0xFFF60 s)) { memory = λ a. None }) ≡
        Fails OutsideData }
{}

/// Loads take bytes in big-endian order, at a multiple of their size, and only where they all lie in one region,
/// whether or not it may be written: `lduh [%l0+4]`, `ldsb [%l0+128]`, `ld [%l0+8]` and `ldd [%l0+8]`, all into %o0,
/// with %l0 at the start of the data, of regions of 136, 16 and 15 bytes; `lduh [5]` and `ldd [4]`. Every byte is its
/// address.
#[tactic(auto, unfolding(crate::specs::Turns::turn, crate::specs::Turns::word_at, crate::specs::States::reg, crate::specs::Registers::written, sbx_parts::specs::Regions::holds, v8_formats::specs::Table::meaning, v8_meaning::specs::Operations::operation_of, v8_meaning::specs::Admitted::is_admitted))]
pub fn loads_are_big_endian()
    ensures half { (parts : Parts) (writable : Bool) (fresh : Fresh) (s : State) →
        step_of 0xD0142004 (with_region writable 136 parts) fresh (with_addresses s) ≡
        Goes (at_second (with_reg 8 0x0405 (with_addresses s))) }
    ensures signed { (parts : Parts) (writable : Bool) (fresh : Fresh) (s : State) →
        step_of 0xD04C2080 (with_region writable 136 parts) fresh (with_addresses s) ≡
        Goes (at_second (with_reg 8 0xFFFFFF80 (with_addresses s))) }
    ensures word { (parts : Parts) (writable : Bool) (fresh : Fresh) (s : State) →
        step_of 0xD0042008 (with_region writable 136 parts) fresh (with_slots (λ a. None) (with_addresses s)) ≡
        Goes (at_second (with_reg 8 0x08090A0B (with_slots (λ a. None) (with_addresses s)))) }
    ensures double { (parts : Parts) (writable : Bool) (fresh : Fresh) (s : State) →
        step_of 0xD01C2008 (with_region writable 136 parts) fresh (with_addresses s) ≡
        Goes (at_second (with_reg 8 0x08090A0B (with_reg 9 0x0C0D0E0F (with_addresses s)))) }
    ensures misaligned { (parts : Parts) (fresh : Fresh) (s : State) →
        step_of 0xD0102005 parts fresh s ≡ Fails Misaligned }
    ensures double_misaligned { (parts : Parts) (fresh : Fresh) (s : State) →
        step_of 0xD0182004 parts fresh s ≡ Fails Misaligned }
    ensures last { (parts : Parts) (writable : Bool) (fresh : Fresh) (s : State) →
        step_of 0xD01C2008 (with_region writable 16 parts) fresh (with_addresses s) ≡
        Goes (at_second (with_reg 8 0x08090A0B (with_reg 9 0x0C0D0E0F (with_addresses s)))) }
    ensures past { (parts : Parts) (writable : Bool) (fresh : Fresh) (s : State) →
        step_of 0xD01C2008 (with_region writable 15 parts) fresh (with_addresses s) ≡ Fails OutsideData }
    ensures before { (parts : Parts) (writable : Bool) (fresh : Fresh) (s : State) →
        step_of 0xD0143FFE (with_region writable 136 parts) fresh (with_addresses s) ≡ Fails OutsideData }
    ensures no_region { (parts : Parts) (fresh : Fresh) (s : State) →
        step_of 0xD0142004 (record parts { regions = [] }) fresh (with_addresses s) ≡ Fails OutsideData }
    ensures no_bytes { (parts : Parts) (fresh : Fresh) (s : State) →
        step_of 0xD0102004 parts fresh (record s { memory = λ a. None }) ≡ Fails OutsideData }
{}

/// Stores, and the two accesses that load and store, reach only a region that may be written: `stb %o1,[%l0+5]`, `std
/// %o0,[%l0+8]`, `ldstub [%l0+5],%o0` and `swap [%l0+8],%o0`, with %l0 at the start of the data, of a region of 16
/// bytes; and `swap [5],%o0`.
#[tactic(auto, unfolding(crate::specs::Turns::turn, crate::specs::Turns::word_at, crate::specs::States::reg, crate::specs::Registers::written, sbx_parts::specs::Regions::holds, v8_formats::specs::Table::meaning, v8_meaning::specs::Operations::operation_of, v8_meaning::specs::Admitted::is_admitted))]
pub fn stores_are_big_endian()
    ensures byte { (parts : Parts) (fresh : Fresh) (s : State) →
        step_of 0xD22C2005 (with_region true 16 parts) fresh (with_addresses s) ≡
        Goes (at_second
        (record (with_addresses s) { memory = with_number (with_addresses s).memory 0x80005 1 (reg s 9 % 2 ^ 8) })) }
    ensures double { (parts : Parts) (fresh : Fresh) (s : State) →
        step_of 0xD03C2008 (with_region true 16 parts) fresh (with_addresses s) ≡
        Goes (at_second
        (record (with_addresses s) {
          memory =
              with_number (with_addresses s).memory 0x80008 8 (reg s 8 * 2 ^ 32 + reg s 9);
        })) }
    ensures load_store { (parts : Parts) (fresh : Fresh) (s : State) →
        step_of 0xD06C2005 (with_region true 16 parts) fresh (with_addresses s) ≡
        Goes (at_second
        (with_reg 8 5 (record (with_addresses s) { memory = with_number (with_addresses s).memory 0x80005 1 0xFF }))) }
    ensures swap { (parts : Parts) (fresh : Fresh) (s : State) →
        step_of 0xD07C2008 (with_region true 16 parts) fresh (with_addresses s) ≡
        Goes (at_second
        (with_reg 8 0x08090A0B
        (record (with_addresses s) { memory = with_number (with_addresses s).memory 0x80008 4 (reg s 8) }))) }
    ensures misaligned { (parts : Parts) (fresh : Fresh) (s : State) →
        step_of 0xD0782005 parts fresh s ≡ Fails Misaligned }
    ensures read_only_byte { (parts : Parts) (fresh : Fresh) (s : State) →
        step_of 0xD22C2005 (with_region false 16 parts) fresh (with_addresses s) ≡ Fails OutsideData }
    ensures read_only_double { (parts : Parts) (fresh : Fresh) (s : State) →
        step_of 0xD03C2008 (with_region false 16 parts) fresh (with_addresses s) ≡ Fails OutsideData }
    ensures read_only_load_store { (parts : Parts) (fresh : Fresh) (s : State) →
        step_of 0xD06C2005 (with_region false 16 parts) fresh (with_addresses s) ≡ Fails OutsideData }
    ensures read_only_swap { (parts : Parts) (fresh : Fresh) (s : State) →
        step_of 0xD07C2008 (with_region false 16 parts) fresh (with_addresses s) ≡ Fails OutsideData }
    ensures high { (bytes : ℕ → Option ℕ) → with_number bytes 8 4 0x01020304 8 ≡ Some 1 }
    ensures low { (bytes : ℕ → Option ℕ) → with_number bytes 8 4 0x01020304 11 ≡ Some 4 }
    ensures past { (bytes : ℕ → Option ℕ) → with_number bytes 8 4 0x01020304 12 ≡ bytes 12 }
    ensures second_word { (bytes : ℕ → Option ℕ) →
        with_number bytes 8 8 (0x01020304 * 2 ^ 32 + 0x05060708) 12 ≡ Some 5 }
{}

/// Transfers of control: `call .+8` keeps its place in %o7; `be .+16`, taken or not, with and without its annul bit;
/// `ba,a .+16`; `ret` and `retl`; an annulled instruction is passed by.
#[tactic(auto, unfolding(crate::specs::Turns::turn, crate::specs::Turns::word_at, crate::specs::States::reg, crate::specs::Registers::written, v8_formats::specs::Table::meaning, v8_meaning::specs::Operations::operation_of, v8_meaning::specs::Admitted::is_admitted))]
pub fn transfers_have_delay_slots()
    ensures call { (parts : Parts) (fresh : Fresh) (s : State) →
        step_of 0x40000002 parts fresh s ≡ Goes (with_reg 15 0x40000 (record (at_second s) { npc = 0x40008 })) }
    ensures taken { (parts : Parts) (fresh : Fresh) (s : State) →
        step_of 0x22800004 parts fresh (record s { icc = record s.icc { z = true } }) ≡
        Goes (record (at_second s) { npc = 0x40010; icc = record s.icc { z = true } }) }
    ensures not_taken { (parts : Parts) (fresh : Fresh) (s : State) →
        step_of 0x02800004 parts fresh (record s { icc = record s.icc { z = false } }) ≡
        Goes (record (at_second s) { icc = record s.icc { z = false } }) }
    ensures annuls { (parts : Parts) (fresh : Fresh) (s : State) →
        step_of 0x22800004 parts fresh (record s { icc = record s.icc { z = false } }) ≡
        Goes (record (at_second s) { annulled = true; icc = record s.icc { z = false } }) }
    ensures always { (parts : Parts) (fresh : Fresh) (s : State) → step_of 0x30800004 parts fresh s ≡ Goes (record (at_second s) { npc = 0x40010; annulled = true }) }
    ensures ret { (parts : Parts) (fresh : Fresh) (s : State) → (caller : Frame) (older : List Frame) →
        step_of 0x81C7E008 parts fresh (called_by (record caller { outs = λ _. 0x40100 }) older s) ≡
        Goes (called_by (record caller { outs = λ _. 0x40100 }) older (record (at_second s) { npc = 0x40108 })) }
    ensures retl { (parts : Parts) (fresh : Fresh) (s : State) →
        step_of 0x81C3E008 parts fresh (based 0x40100 s) ≡
        Goes (based 0x40100 (record (at_second s) { npc = 0x40108 })) }
    ensures misaligned { (parts : Parts) (fresh : Fresh) (s : State) →
        step_of 0x81C3E008 parts fresh (based 0x40102 s) ≡ Fails Misaligned }
    ensures annulled { (parts : Parts) (fresh : Fresh) (s : State) →
        turn parts fresh (record s { pc = 0x40004; npc = 0x40010; annulled = true; exit = None }) ≡
        Goes (record s { pc = 0x40010; npc = 0x40014; annulled = false; exit = None }) }
{}

/// The services: `ta 1` gets the next byte of the input, and all ones at its end; `ta 2` puts the low byte of %o0; `ta
/// 0` exits with %o0. None that the image doesn't declare, and no other.
#[tactic(auto, unfolding(crate::specs::Turns::turn, crate::specs::Turns::word_at, crate::specs::States::reg, crate::specs::Registers::written, v8_formats::specs::Table::meaning, v8_meaning::specs::Operations::operation_of, v8_meaning::specs::Admitted::is_admitted))]
pub fn services_serve()
    ensures get { (parts : Parts) (fresh : Fresh) (s : State) → (byte : ℕ) (rest : List ℕ) →
        step_of 0x91D02001 (record parts { services = record { 0 = 2 } }) fresh (record s { input = byte ∷ rest }) ≡
        Goes (at_second (with_reg 8 byte (record s { input = rest }))) }
    ensures end { (parts : Parts) (fresh : Fresh) (s : State) →
        step_of 0x91D02001 (record parts { services = record { 0 = 2 } }) fresh (record s { input = [] }) ≡
        Goes (at_second (with_reg 8 0xFFFFFFFF (record s { input = [] }))) }
    ensures put { (parts : Parts) (fresh : Fresh) (s : State) →
        step_of 0x91D02002 (record parts { services = record { 0 = 4 } }) fresh s ≡
        Goes (at_second (record s { output = s.output ++ (reg s 8 % 2 ^ 8) ∷ [] })) }
    ensures exit { (parts : Parts) (fresh : Fresh) (s : State) →
        step_of 0x91D02000 (record parts { services = record { 0 = 1 } }) fresh s ≡
        Goes (record (at_second s) { exit = Some (reg s 8) }) }
    ensures undeclared { (parts : Parts) (fresh : Fresh) (s : State) →
        step_of 0x91D02002 (record parts { services = record { 0 = 3 } }) fresh s ≡ Fails NoService }
    ensures unknown { (parts : Parts) (fresh : Fresh) (s : State) →
        step_of 0x91D02003 (record parts { services = record { 0 = 7 } }) fresh s ≡ Fails NoService }
    ensures of_a_register { (parts : Parts) (fresh : Fresh) (s : State) →
        step_of 0x91D00001 parts fresh s ≡ Fails NotAdmitted }
{}

/// Results: `addcc %g0,-1,%o0` and its codes; SETHI; Y written and read; no quotient by 0 and no tagged sum of an
/// untagged number; and no write of %sp or %fp.
#[tactic(auto, unfolding(crate::specs::Turns::turn, crate::specs::Turns::word_at, crate::specs::States::reg, crate::specs::Registers::written, v8_formats::specs::Table::meaning, v8_meaning::specs::Operations::operation_of, v8_meaning::specs::Admitted::is_admitted, v8_alu::specs::Outcomes::outcome, v8_alu::specs::Outcomes::tagged_outcome))]
pub fn results_are_written()
    ensures codes { (parts : Parts) (fresh : Fresh) (s : State) →
        step_of 0x90803FFF parts fresh s ≡
        Goes (at_second
        (with_reg 8 0xFFFFFFFF (record s { icc = record { n = true; z = false; v = false; c = false } }))) }
    ensures high { (parts : Parts) (fresh : Fresh) (s : State) →
        step_of 0x11000001 parts fresh s ≡ Goes (at_second (with_reg 8 0x400 s)) }
    ensures write_y { (parts : Parts) (fresh : Fresh) (s : State) →
        step_of 0x81802005 parts fresh s ≡ Goes (at_second (record s { y = 5 })) }
    ensures read_y { (parts : Parts) (fresh : Fresh) (s : State) →
        step_of 0x91400000 parts fresh (record s { y = 7 }) ≡ Goes (at_second (with_reg 8 7 (record s { y = 7 }))) }
    ensures zero_divisor { (parts : Parts) (fresh : Fresh) (s : State) →
        step_of 0x90726000 parts fresh s ≡ Fails ZeroDivisor }
    ensures tagged { (parts : Parts) (fresh : Fresh) (s : State) →
        step_of 0x91102001 parts fresh s ≡ Fails TagOverflow }
    ensures stack_pointer { (parts : Parts) (fresh : Fresh) (s : State) →
        step_of 0x9C002005 parts fresh s ≡ Fails StackPointer }
    ensures frame_pointer { (parts : Parts) (fresh : Fresh) (s : State) →
        step_of 0xBC002005 parts fresh s ≡ Fails StackPointer }
{}

/// Where there is no step: before and after the code and between its words, at a word that sandboxed code may not have,
/// and once there is an exit word.
#[tactic(auto, unfolding(crate::specs::Turns::turn, crate::specs::Turns::word_at, crate::specs::States::reg, crate::specs::Registers::written, v8_formats::specs::Table::meaning, v8_meaning::specs::Operations::operation_of, v8_meaning::specs::Admitted::is_admitted))]
pub fn some_states_have_no_step()
    ensures past { (parts : Parts) (fresh : Fresh) (s : State) →
        turn (record parts { words = 0x01000000 ∷ [] }) fresh (at_second s) ≡ Fails OutsideCode }
    ensures before { (parts : Parts) (fresh : Fresh) (s : State) →
        turn (record parts { words = 0x01000000 ∷ [] }) fresh (record (at_first s) { pc = 0x3FFFC }) ≡
        Fails OutsideCode }
    ensures between { (parts : Parts) (fresh : Fresh) (s : State) →
        turn (record parts { words = 0x01000000 ∷ [] }) fresh (record (at_first s) { pc = 0x40002 }) ≡
        Fails OutsideCode }
    ensures undefined { (parts : Parts) (fresh : Fresh) (s : State) → step_of 0 parts fresh s ≡ Fails NotAdmitted }
    ensures never { (parts : Parts) (fresh : Fresh) (s : State) → step_of 0x00800004 parts fresh s ≡ Fails NotAdmitted }
    ensures over { (parts : Parts) (fresh : Fresh) (s : State) (word : ℕ) →
        turn parts fresh (record s { exit = Some word }) ≡ Over }
{}

/// A whole run: the SAVE and the RESTORE of `save_and_restore`, of one stack page, leave the caller's registers as they
/// were. It weighs 50.
#[tactic(auto, using(crate::proofs::Examples::run_of_two, crate::proofs::Examples::weight_of_two))]
pub fn a_call_comes_back()
    ensures run { (parts : Parts) (s : State) →
        Run (record parts { words = save_and_restore; stack_pages = 1 }) (at_first (based 0xFFFC0 s))
        (at_save ∷ at_restore ∷ []) (at_third (based 0xFFFC0 s)) }
    ensures weight { (parts : Parts) →
        weight (record parts { words = save_and_restore }) (at_save ∷ at_restore ∷ []) ≡ 50 }
{}
