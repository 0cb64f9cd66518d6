ghost use Rattle.abc_meaning.specs.Agreement.{HasEveryAct};

/// An instruction has an act exactly where it has a row.
pub fn every_row_has_its_act()
    ensures { HasEveryAct }
{}
