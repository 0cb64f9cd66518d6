ghost use Rattle.abc_machine.specs.OptionLaws.{OptionsAreThere};

/// Each option of a method of a linked file has a number below 2^30, and its value, where it is none of a double, exists in every
/// heap that stands over the file, whatever formulas the host has.
pub fn options_are_there()
    ensures { OptionsAreThere }
{}
