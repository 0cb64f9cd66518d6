ghost use Rattle.std.specs.Prelude.{◌≡◌, true};
ghost use Rattle.abc_file_types.specs.Opcodes.{is_in};
ghost use Rattle.abc_verify_typing.specs.Agreement.{agrees, is_left_out, not_run};

/// The rows beside the file format's table of instructions. A row uses the operands that its instruction has, and the
/// instructions that are not run are eleven.
#[tactic(auto, using(crate::proofs::Agreeing::agree, crate::proofs::Agreeing::left_out))]
pub fn law_of_rows(op: u8)
    ensures agrees { agrees op ≡ true }
    ensures left_out { is_left_out op ≡ is_in op not_run }
{
    let _op = op;
}
