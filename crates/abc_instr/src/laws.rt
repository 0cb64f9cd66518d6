ghost use Rattle.std.specs.Prelude.{◌↔◌, List, ℕ};
ghost use Rattle.abc_file_types.specs.Canonical.{IsCanonical};
ghost use Rattle.abc_file_types.specs.Law.{Exact, IsDetermined};
ghost use Rattle.abc_file_types.specs.Places.{instruction_place};
ghost use Rattle.abc_file_types.specs.Ready.{IsReady};
ghost use Rattle.abc_file_types.specs.declared.code.Instr.{Instr as AnyInstr};
ghost use Rattle.abc_file_types.specs.declared.instructions.Code.{Code as AnyCode};
ghost use Rattle.abc_file_types.specs.Code.{code as code_part, code_listing};
ghost use Rattle.abc_file_types.specs.CodeBytes.{code_bytes};
ghost use Rattle.abc_instr.specs.Laws.{SpellsWithLength};

/// What reading and putting code stand on. Code is spelled by the number of its bytes, below 2^23, and by the pieces of
/// its instructions, one after the other, whose targets are the numbers of the instructions that begin where the offsets
/// lead. What reading code, or a place in it, answers is what a front of the bytes spells, or their first fault. Bytes
/// begin with code in exactly one way, or are refused at exactly one place for one reason, and never both. The canonical
/// bytes spell what any spelling spells, but for where the instructions began as they were read, and none is shorter. Code
/// is ready exactly where some bytes spell it.
pub fn code_law()
    ensures spelled { (c : AnyCode) → (b : List ℕ) → code_part.spells c b ↔ SpellsWithLength c b }
    ensures exact { Exact code_part }
    ensures place { (starts : List ℕ) → Exact (instruction_place starts) }
    ensures determined { IsDetermined code_part }
    ensures shortest { IsCanonical code_listing code_bytes }
    ensures ready { (is : List AnyInstr) → IsReady is ↔ ((b : List ℕ) × code_listing.spells is b) }
{}
